// Pose. How the contracts read: crates/scope/specs/Contract.antt.
// Lists of which some are written stay parameters of their own: a `&mut` lends only what may change, and by type the rest stays.
#![tactic(auto)]

ghost use Rattle.std.specs.Prelude.{◌≡◌, true, length};
ghost use Rattle.base.specs.Lent.{Fills, change};
ghost use Rattle.scope.specs.Contract.{given, after, lent, Meets};
ghost use Rattle.scope.specs.Pose.{pose, pose_refusal, pose_of};
ghost use Rattle.scope.specs.Refusals.{refused_by};
ghost use Rattle.scope.specs.Sound.{soundb};
ghost use Rattle.scope.specs.Cursor.{NoneFree};
ghost use Rattle.changes.specs.Leaves.{Leaves};
ghost use Rattle.mapping.specs.Parts.{free};
ghost use Rattle.table.specs.Lists.{seen};
ghost use Rattle.held.specs.Parts.{HeldTo};
ghost use Rattle.posing.specs.Answers.{posed};
ghost use Rattle.posing.specs.Asks.{pose_user, PlaceAsks, PoseAsks};

use changes::Passed;
use distinct::needs_of;
use granting::grant_index;
use held::{any_unsampled, held_lits, pose_held};
use mapping::{counts_after, map_up};
use scope::{Counts, Refusal, Solver, User};
use table::{Lists, any_outside};

// A user's solver index, with the cursor of free globals, the counts and the place in the notes after it.
#[derive(Clone, Copy)]
pub struct Placed {
    pub solver: Solver,
    pub from: u32,
    pub after: Passed,
}

// The answer: how many solver literals were filled, the counts and how many notes were written.
#[derive(Clone, Copy)]
pub struct PosedLits {
    pub filled: u32,
    pub counts: Counts,
    pub notes: u32,
}

// The solver index of a user of a sound table: mapped, where a free global is searched from the cursor on, then granted.
fn place_new(
    p: Passed,
    gu: &mut [u32],
    ug: &mut [u32],
    sg: &mut [u32],
    gs: &mut [u32],
    assignment: &mut [u32],
    records: &mut [u32],
    user: User,
    from: u32,
    notes: &mut [u32],
) -> Placed
    requires place_asks { PlaceAsks (given p.counts gu.old ug.old sg.old gs.old assignment.old records.old) user.0 p.at (length notes.old) }
    requires none_free { NoneFree (free records.old) p.counts.global from }
    ensures solver_value { result.solver.0 ≡ (pose_user user.0 (given p.counts gu.old ug.old sg.old gs.old assignment.old records.old)).value }
    ensures leaves { Leaves (pose_user user.0 (given p.counts gu.old ug.old sg.old gs.old assignment.old records.old)) p.at result.after.at
        (after result.after.counts (change gu.old gu.new) (change ug.old ug.new) (change sg.old sg.new) (change gs.old gs.new) (change assignment.old assignment.new) (change records.old records.new)) notes.old notes.new }
    ensures none_free_2 { NoneFree (free records.new) result.after.counts.global result.from }
{
    let c = p.counts;
    let m = map_up(
        c.capacity, c.user, c.global, c.used, gu, ug, records, user, from, p.at, notes,
    );
    let mapped = Passed {
        counts: counts_after(c, m),
        at: m.at,
    };
    let h = grant_index(mapped, sg, gs, assignment, records, m.global, notes);
    Placed {
        solver: h.solver,
        from: m.from,
        after: h.after,
    }
}

// A solver literal for each user literal, on a sound table with room for all. A free global is searched from the cursor on.
// The place is counted by hand: each turn goes past a run of literals, whose length `held_lits` answers.
fn place_all(
    c: Counts,
    gu: &mut [u32],
    ug: &mut [u32],
    sg: &mut [u32],
    gs: &mut [u32],
    assignment: &mut [u32],
    records: &mut [u32],
    lits: &[u32],
    from: u32,
    out: &mut [u32],
    notes: &mut [u32],
) -> Passed
    requires pose_asks { PoseAsks (given c gu.old ug.old sg.old gs.old assignment.old records.old) lits.now (length out.old) (length notes.old) }
    requires none_free { NoneFree (free records.old) c.global from }
    ensures value { let x = pose lits.now (given c gu.old ug.old sg.old gs.old assignment.old records.old) in
        Leaves x 0 result.at (after result.counts (change gu.old gu.new) (change ug.old ug.new) (change sg.old sg.new) (change gs.old gs.new) (change assignment.old assignment.new) (change records.old records.new)) notes.old notes.new }
    ensures out { let x = pose lits.now (given c gu.old ug.old sg.old gs.old assignment.old records.old) in
        Fills (change out.old out.new) 0 x.value }
{
    let mut p = Passed { counts: c, at: 0 };
    let mut k = from;
    let mut i: usize = 0;
    loop {
        i = held_lits(gu, sg, lits, i, out);
        if lits.len() <= i {
            return p;
        }
        let code = lits[i];
        let user = User(code / 2);
        let q = place_new(p, gu, ug, sg, gs, assignment, records, user, k, notes);
        p = q.after;
        k = q.from;
        out[i] = 2 * q.solver.0 + code % 2;
        i += 1;
    }
}

// The first refusal of Pose that applies to a sound table. The users of the first `lead` literals have solver indices: they are in range
// and need nothing.
fn pose_refusal(
    t: &Lists,
    lits: &[u32],
    lead: usize,
    sampling: bool,
    outs: usize,
    room: usize,
) -> Result<(), Refusal>
    requires records_value { soundb (seen t.now) ≡ true }
    requires held_to { HeldTo t.now.gu.now t.now.sg.now lits.now lead }
    ensures { refused_by result ≡ pose_refusal (seen t.now) lits.now sampling outs room }
{
    let c = t.counts;
    if 8192 < lits.len() {
        return Err(Refusal::OutOfRange);
    }
    let rest = &lits[lead..];
    if any_outside(c.capacity, rest) {
        return Err(Refusal::OutOfRange);
    }
    if any_unsampled(t.gu, t.records, lits, sampling) {
        return Err(Refusal::NotSampled);
    }
    let n = needs_of(c.user, t.gu, t.sg, rest);
    let users = n.low + (n.top - c.user);
    if c.capacity < c.used + users {
        return Err(Refusal::NoRoom);
    }
    let words = 3 * ((users + n.grants) as usize);
    if (outs < lits.len()) | (room < words) {
        return Err(Refusal::Short);
    }
    Ok(())
}

// Pose on a sound table, whatever is to be mapped, granted or refused.
fn pose_any(
    c: Counts,
    gu: &mut [u32],
    ug: &mut [u32],
    sg: &mut [u32],
    gs: &mut [u32],
    assignment: &mut [u32],
    records: &mut [u32],
    lits: &[u32],
    lead: usize,
    sampling: bool,
    gfrom: u32,
    out: &mut [u32],
    notes: &mut [u32],
) -> Result<PosedLits, Refusal>
    requires records_value { soundb (given c gu.old ug.old sg.old gs.old assignment.old records.old) ≡ true }
    requires held_to { HeldTo gu.old sg.old lits.now lead }
    requires none_free { NoneFree (free records.old) c.global gfrom }
    ensures meets { Meets (λ t room. pose_of t lits.now sampling (length out.old) room) (posed result c)
        (lent c (change gu.old gu.new) (change ug.old ug.new) (change sg.old sg.new) (change gs.old gs.new)
        (change assignment.old assignment.new) (change records.old records.new) (change notes.old notes.new)) }
    ensures out { Fills (change out.old out.new) 0 (pose_of (given c gu.old ug.old sg.old gs.old assignment.old records.old) lits.now sampling
        (length out.old) (length notes.old)).words }
{
    let t = Lists {
        counts: c,
        gu,
        ug,
        sg,
        gs,
        assignment,
        records,
    };
    pose_refusal(&t, lits, lead, sampling, out.len(), notes.len())?;
    let p = place_all(
        c, gu, ug, sg, gs, assignment, records, lits, gfrom, out, notes,
    );
    Ok(PosedLits {
        filled: lits.len() as u32,
        counts: p.counts,
        notes: (p.at / 3) as u32,
    })
}

// Pose (01, `solver_from_user_lits`; refusals 1, 3, 4, 5, 2): literal by literal, Map of the user and Grant of its global; the sign stays.
// Definition: crates/scope/specs/Pose.antt, `pose_of`; its answer: specs/Answers.antt, `posed`.
pub fn solver_from_user_lits(
    c: Counts,
    gu: &mut [u32],
    ug: &mut [u32],
    sg: &mut [u32],
    gs: &mut [u32],
    assignment: &mut [u32],
    records: &mut [u32],
    lits: &[u32],
    sampling: bool,
    out: &mut [u32],
    notes: &mut [u32],
) -> Result<PosedLits, Refusal>
    ensures meets { Meets (λ t room. pose_of t lits.now sampling (length out.old) room) (posed result c)
        (lent c (change gu.old gu.new) (change ug.old ug.new) (change sg.old sg.new) (change gs.old gs.new)
        (change assignment.old assignment.new) (change records.old records.new) (change notes.old notes.new)) }
    ensures out { Fills (change out.old out.new) 0 (pose_of (given c gu.old ug.old sg.old gs.old assignment.old records.old) lits.now sampling
        (length out.old) (length notes.old)).words }
{
    let t = Lists {
        counts: c,
        gu,
        ug,
        sg,
        gs,
        assignment,
        records,
    };
    t.check_sound()?;
    known_solver_from_user_lits(
        c, gu, ug, sg, gs, assignment, records, lits, sampling, 0, out, notes,
    )
}

// Pose on a table known to be sound, which is not tested. Free globals are searched from `gfrom` on: no global below is deleted.
// The same definition and answer.
pub fn known_solver_from_user_lits(
    c: Counts,
    gu: &mut [u32],
    ug: &mut [u32],
    sg: &mut [u32],
    gs: &mut [u32],
    assignment: &mut [u32],
    records: &mut [u32],
    lits: &[u32],
    sampling: bool,
    gfrom: u32,
    out: &mut [u32],
    notes: &mut [u32],
) -> Result<PosedLits, Refusal>
    requires records_value { soundb (given c gu.old ug.old sg.old gs.old assignment.old records.old) ≡ true }
    requires none_free { NoneFree (free records.old) c.global gfrom }
    ensures meets { Meets (λ t room. pose_of t lits.now sampling (length out.old) room) (posed result c)
        (lent c (change gu.old gu.new) (change ug.old ug.new) (change sg.old sg.new) (change gs.old gs.new)
        (change assignment.old assignment.new) (change records.old records.new) (change notes.old notes.new)) }
    ensures out { Fills (change out.old out.new) 0 (pose_of (given c gu.old ug.old sg.old gs.old assignment.old records.old) lits.now sampling
        (length out.old) (length notes.old)).words }
{
    match pose_held(gu, sg, records, lits, sampling, out) {
        Ok(()) => Ok(PosedLits {
            filled: lits.len() as u32,
            counts: c,
            notes: 0,
        }),
        Err(lead) => pose_any(
            c, gu, ug, sg, gs, assignment, records, lits, lead, sampling, gfrom, out, notes,
        ),
    }
}
