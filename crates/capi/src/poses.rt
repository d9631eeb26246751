// Pose.
ghost use Rattle.std.specs.Prelude.{[], ◌∷◌, length};
ghost use Rattle.base.specs.Lent.{Fills, change};
ghost use Rattle.scope.specs.Contract.{lent, given};
ghost use Rattle.scope.specs.Pose.{pose_of};
ghost use Rattle.numbers.specs.Surface.{plain, Gives};

use answers::posed::{HzPosed, posed_out};
use scope::Counts;

// Pose (1, 3, 4, 5, 2): `pose_of`.
pub fn hz_pose(
    c: Counts,
    gu: &mut [u32],
    ug: &mut [u32],
    sg: &mut [u32],
    gs: &mut [u32],
    assignment: &mut [u32],
    records: &mut [u32],
    lits: &[u32],
    sampling: bool,
    out: &mut [u32],
    notes: &mut [u32],
) -> HzPosed
    ensures gives { Gives (λ t room. pose_of t lits.now sampling (length out.old) room) (plain 2)
        (result.refusal ∷ result.filled ∷ result.notes ∷ []) result.counts
        (lent c (change gu.old gu.new) (change ug.old ug.new) (change sg.old sg.new) (change gs.old gs.new)
        (change assignment.old assignment.new) (change records.old records.new) (change notes.old notes.new)) }
    ensures out { Fills (change out.old out.new) 0
        (pose_of (given c gu.old ug.old sg.old gs.old assignment.old records.old) lits.now sampling (length out.old) (length notes.old)).words }
{
    let r = posing::solver_from_user_lits(
        c, gu, ug, sg, gs, assignment, records, lits, sampling, out, notes,
    );
    posed_out(r, c)
}
