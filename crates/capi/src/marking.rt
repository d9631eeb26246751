// Marks and Assign.
ghost use Rattle.std.specs.Prelude.{[], ◌∷◌};
ghost use Rattle.base.specs.Lent.{constant, change};
ghost use Rattle.scope.specs.Contract.{quiet};
ghost use Rattle.scope.specs.Marks.{mark_of, assign_of};
ghost use Rattle.numbers.specs.Numbers.{for_known, mark_for};
ghost use Rattle.numbers.specs.Surface.{plain, Gives};

use answers::changed::{HzChanged, changed_out};
use numbers::mark_in;
use scope::{Counts, Solver};

// Marks (1, 8): `mark_of`.
pub fn hz_mark(
    c: Counts,
    gu: &[u32],
    ug: &[u32],
    sg: &[u32],
    gs: &[u32],
    assignment: &[u32],
    records: &mut [u32],
    mark: u32,
    solver: u32,
) -> HzChanged
    ensures { Gives (λ t room. for_known (mark_for mark) t (λ m. mark_of t m solver)) (plain 0) (result.refusal ∷ []) result.counts
        (quiet c (constant gu.now) (constant ug.now) (constant sg.now) (constant gs.now)
        (constant assignment.now) (change records.old records.new)) }
{
    let Some(m) = mark_in(mark) else {
        return HzChanged {
            refusal: 0xffffffff,
            counts: c,
        };
    };
    let r = marks::mark(c, gu, ug, sg, gs, assignment, records, m, Solver(solver));
    changed_out(r, c)
}

// Assign (1, 8, 9): `assign_of`.
pub fn hz_assign(
    c: Counts,
    gu: &[u32],
    ug: &[u32],
    sg: &[u32],
    gs: &[u32],
    assignment: &mut [u32],
    records: &[u32],
    lit: u32,
) -> HzChanged
    ensures { Gives (λ t room. assign_of t lit) (plain 0) (result.refusal ∷ []) result.counts
        (quiet c (constant gu.now) (constant ug.now) (constant sg.now) (constant gs.now)
        (change assignment.old assignment.new) (constant records.now)) }
{
    let r = marks::assign_lit(c, gu, ug, sg, gs, assignment, records, lit);
    changed_out(r, c)
}
