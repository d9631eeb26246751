// Marks and Assign in the two lists that they touch. The answer is the refusal, 0 for none; any words may be lent: it is the call's on every sound
// table that has these lists.
ghost use Rattle.std.specs.Prelude.{◌≡◌, true, [], ◌∷◌};
ghost use Rattle.base.specs.Answer.{number_of};
ghost use Rattle.scope.specs.declared.Counts.{Counts};
ghost use Rattle.scope.specs.Table.{Table};
ghost use Rattle.scope.specs.Sound.{soundb};
ghost use Rattle.scope.specs.Marks.{mark_of, assign_of};
ghost use Rattle.marks.specs.Answers.{changed, with_values, with_records};
ghost use Rattle.numbers.specs.Numbers.{for_known, mark_for};
ghost use Rattle.numbers.specs.Surface.{plain, Given};
ghost use Rattle.numbers.specs.Flat.{Numbered};

use numbers::mark_in;
use scope::{Refusal, Solver};

// The number of the refusal, 0 for none.
fn refusal_of(r: Result<(), Refusal>) -> u32
    ensures { (c : Counts) → Numbered (changed r c) (plain 0) (result ∷ []) c }
{
    match r {
        Ok(()) => 0,
        Err(e) => u32::from(e),
    }
}

// Marks (8): `mark_of`.
#[unsafe(no_mangle)]
pub extern "C" fn hz_mark_in(gs: &[u32], records: &mut [u32], mark: u32, solver: u32) -> u32
    ensures { (t : Table) → soundb t ≡ true → t.global_from_solver ≡ gs.now → t.records ≡ records.old
        → Given (for_known (mark_for mark) t (λ m. mark_of t m solver)) (plain 0) (result ∷ []) (with_records t records.new) [] [] }
{
    let Some(m) = mark_in(mark) else {
        return 0xffffffff;
    };
    let r = marks::mark_in(gs, records, m, Solver(solver));
    refusal_of(r)
}

// Assign (8, 9): `assign_of`.
#[unsafe(no_mangle)]
pub extern "C" fn hz_assign_in(gs: &[u32], assignment: &mut [u32], lit: u32) -> u32
    ensures { (t : Table) → soundb t ≡ true → t.global_from_solver ≡ gs.now → t.assignment ≡ assignment.old
        → Given (assign_of t lit) (plain 0) (result ∷ []) (with_values t assignment.new) [] [] }
{
    let r = marks::assign_in(gs, assignment, lit);
    refusal_of(r)
}
