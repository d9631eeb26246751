// Marks and Assign (document 01; `var_data_solver_mut`, `assign_lit`). How the contracts read: crates/scope/specs/Contract.antt.
// The lists are parameters of their own, as the C interface lends them: by `&mut` only those that the call may change.
#![tactic(auto)]

ghost use Rattle.std.specs.Prelude.{◌≡◌, true, [], ◌≤◌};
ghost use Rattle.base.specs.Lent.{change, constant};
ghost use Rattle.scope.specs.Table.{Table};
ghost use Rattle.scope.specs.Sound.{soundb};
ghost use Rattle.scope.specs.Contract.{quiet, Does, Meets};
ghost use Rattle.scope.specs.Marks.{marked, mark_of, assign_of};
ghost use Rattle.marks.specs.Answers.{changed, with_records, with_values};

use scope::{Counts, Mark, Refusal, Solver};
use table::{Lists, held_refusal, holder};

// The record with the mark: used clears isolated; assumed is set or cleared.
fn marked_record(mark: Mark, w: u32) -> u32
    requires { w ≤ 71 }
    ensures { result ≡ marked mark w }
{
    match mark {
        Mark::Used => w - w / 9 % 2 * 9,
        Mark::Assumed => w - w / 18 % 2 * 18 + 18,
        Mark::Released => w - w / 18 % 2 * 18,
    }
}

// Marks (01, "Marks"; refusals 1, 8).
// Definition: crates/scope/specs/Marks.antt, `mark_of`; its answer: specs/Answers.antt, `changed`.
pub fn mark(
    c: Counts,
    gu: &[u32],
    ug: &[u32],
    sg: &[u32],
    gs: &[u32],
    assignment: &[u32],
    records: &mut [u32],
    mark: Mark,
    solver: Solver,
) -> Result<(), Refusal>
    ensures { Meets (λ t room. mark_of t mark solver.0) (changed result c)
        (quiet c (constant gu.now) (constant ug.now) (constant sg.now) (constant gs.now)
        (constant assignment.now) (change records.old records.new)) }
{
    let t = Lists {
        counts: c,
        gu,
        ug,
        sg,
        gs,
        assignment,
        records,
    };
    t.check_sound()?;
    mark_in(gs, records, mark, solver)
}

// Marks in the two lists that they touch, of a table known to be sound, which is not tested: any words may be lent.
// The same definition and answer, of every sound table that has these lists.
pub fn mark_in(gs: &[u32], records: &mut [u32], mark: Mark, solver: Solver) -> Result<(), Refusal>
    ensures { (t : Table) → soundb t ≡ true → t.global_from_solver ≡ gs.now → t.records ≡ records.old
        → Does (mark_of t mark solver.0) (changed result t.counts) (with_records t records.new) [] [] }
{
    let Some(global) = holder(gs, solver) else {
        return Err(Refusal::NotHeld);
    };
    let g = global.0 as usize;
    if records.len() <= g {
        return Err(Refusal::Unsound);
    }
    let w = records[g];
    if 71 < w {
        return Err(Refusal::Unsound);
    }
    records[g] = marked_record(mark, w);
    Ok(())
}

// Assign (01, "Marks", `assign_lit`; refusals 1, 8, 9): the solver literal becomes true.
// Definition: crates/scope/specs/Marks.antt, `assign_of`; its answer: specs/Answers.antt, `changed`.
pub fn assign_lit(
    c: Counts,
    gu: &[u32],
    ug: &[u32],
    sg: &[u32],
    gs: &[u32],
    assignment: &mut [u32],
    records: &[u32],
    lit: u32,
) -> Result<(), Refusal>
    ensures { Meets (λ t room. assign_of t lit) (changed result c)
        (quiet c (constant gu.now) (constant ug.now) (constant sg.now) (constant gs.now)
        (change assignment.old assignment.new) (constant records.now)) }
{
    let t = Lists {
        counts: c,
        gu,
        ug,
        sg,
        gs,
        assignment,
        records,
    };
    t.check_sound()?;
    assign_in(gs, assignment, lit)
}

// Assign in the two lists that it touches, of a table known to be sound, which is not tested: any words may be lent.
// The same definition and answer, of every sound table that has these lists.
pub fn assign_in(gs: &[u32], assignment: &mut [u32], lit: u32) -> Result<(), Refusal>
    ensures { (t : Table) → soundb t ≡ true → t.global_from_solver ≡ gs.now → t.assignment ≡ assignment.old
        → Does (assign_of t lit) (changed result t.counts) (with_values t assignment.new) [] [] }
{
    held_refusal(gs, Solver(lit / 2))?;
    let s = (lit / 2) as usize;
    if assignment.len() <= s {
        return Err(Refusal::Unsound);
    }
    if assignment[s] != 0 {
        return Err(Refusal::HasValue);
    }
    assignment[s] = 2 - lit % 2;
    Ok(())
}
