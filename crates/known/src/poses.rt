// Pose on a table known to be sound, and where all indices are held already.
ghost use Rattle.std.specs.Prelude.{◌≡◌, true, [], ◌∷◌, length};
ghost use Rattle.base.specs.Lent.{Fills, change};
ghost use Rattle.scope.specs.Table.{Table};
ghost use Rattle.scope.specs.Contract.{given, lent};
ghost use Rattle.scope.specs.Sound.{soundb};
ghost use Rattle.scope.specs.Cursor.{NoneFree};
ghost use Rattle.scope.specs.Pose.{pose_of};
ghost use Rattle.mapping.specs.Parts.{free};
ghost use Rattle.ready.specs.Ready.{PosedAtOnce};
ghost use Rattle.numbers.specs.Surface.{plain, Gives};

use answers::posed::{HzPosed, posed_out};
use scope::Counts;

// Pose (3, 4, 5, 2): `pose_of`.
#[unsafe(no_mangle)]
pub extern "C" fn hz_known_pose(
    c: Counts,
    gu: &mut [u32],
    ug: &mut [u32],
    sg: &mut [u32],
    gs: &mut [u32],
    assignment: &mut [u32],
    records: &mut [u32],
    lits: &[u32],
    sampling: bool,
    gfrom: u32,
    out: &mut [u32],
    notes: &mut [u32],
) -> HzPosed
    requires records_value { soundb (given c gu.old ug.old sg.old gs.old assignment.old records.old) ≡ true }
    requires none_free { NoneFree (free records.old) c.global gfrom }
    ensures gives { Gives (λ t room. pose_of t lits.now sampling (length out.old) room) (plain 2)
        (result.refusal ∷ result.filled ∷ result.notes ∷ []) result.counts
        (lent c (change gu.old gu.new) (change ug.old ug.new) (change sg.old sg.new) (change gs.old gs.new)
        (change assignment.old assignment.new) (change records.old records.new) (change notes.old notes.new)) }
    ensures out { Fills (change out.old out.new) 0
        (pose_of (given c gu.old ug.old sg.old gs.old assignment.old records.old) lits.now sampling (length out.old) (length notes.old)).words }
{
    let r = posing::known_solver_from_user_lits(
        c, gu, ug, sg, gs, assignment, records, lits, sampling, gfrom, out, notes,
    );
    posed_out(r, c)
}

// Pose of literals whose users all have solver indices, in the lists that it reads: filled exactly where the call is accepted and makes no note, on every
// sound table that has these lists. Any words may be lent.
#[unsafe(no_mangle)]
pub extern "C" fn hz_pose_in(
    gu: &[u32],
    sg: &[u32],
    records: &[u32],
    lits: &[u32],
    sampling: bool,
    out: &mut [u32],
) -> bool
    ensures { (t : Table) → soundb t ≡ true → t.global_from_user ≡ gu.now → t.solver_from_global ≡ sg.now → t.records ≡ records.now
        → PosedAtOnce t lits.now sampling result out.old out.new }
{
    ready::pose_in(gu, sg, records, lits, sampling, out)
}
