// Open and Lookup (document 01; the crate's `VarMap::get`). How the contracts read: crates/scope/specs/Contract.antt.
// The lists of a table are parameters of their own, as the C interface lends them.
#![tactic(auto)]

ghost use Rattle.std.specs.Prelude.{◌≡◌, true, []};
ghost use Rattle.base.specs.Lent.{change};
ghost use Rattle.scope.specs.Contract.{quiet, given, Does, Meets, reads};
ghost use Rattle.scope.specs.Sound.{soundb};
ghost use Rattle.scope.specs.Table.{Table};
ghost use Rattle.scope.specs.Open.{open_counts, open_of};
ghost use Rattle.scope.specs.Lookup.{global_from_user_of, user_from_global_of, solver_from_global_of, global_from_solver_of, record_word_of, assignment_word_of};
ghost use Rattle.table.specs.Lists.{tested};
ghost use Rattle.var_map.specs.Answers.{opened, got_user, got_global, got_solver, got_word};

use scope::{Counts, Global, Refusal, Solver, User};
use table::{Lists, global_of, holder, solver_of, user_of, word_at};

// Open (01, "Lookup"; refusal 10).
// Definition: crates/scope/specs/Open.antt, `open_of`; its answer: specs/Answers.antt, `opened`.
pub fn open_table(
    capacity: u32,
    gu: &mut [u32],
    ug: &mut [u32],
    sg: &mut [u32],
    gs: &mut [u32],
    assignment: &mut [u32],
    records: &mut [u32],
) -> Result<Counts, Refusal>
    ensures { Meets (λ t room. open_of t) (opened result (open_counts capacity))
        (quiet (open_counts capacity) (change gu.old gu.new) (change ug.old ug.new) (change sg.old sg.new) (change gs.old gs.new)
        (change assignment.old assignment.new) (change records.old records.new)) }
{
    let c = Counts {
        capacity,
        user: 0,
        global: 0,
        solver: 0,
        used: 0,
        next: 0,
    };
    let t = Lists {
        counts: c,
        gu,
        ug,
        sg,
        gs,
        assignment,
        records,
    };
    if !t.sizes_ok() {
        return Err(Refusal::BadSize);
    }
    gu.fill(0);
    ug.fill(0);
    sg.fill(0);
    gs.fill(0);
    assignment.fill(0);
    records.fill(47);
    Ok(c)
}

// Refusal 1 of the lookups, unless the table is sound.
fn check_table(
    c: Counts,
    gu: &[u32],
    ug: &[u32],
    sg: &[u32],
    gs: &[u32],
    assignment: &[u32],
    records: &[u32],
) -> Result<(), Refusal>
    ensures { result ≡ tested (given c gu.now ug.now sg.now gs.now assignment.now records.now) }
{
    let t = Lists {
        counts: c,
        gu,
        ug,
        sg,
        gs,
        assignment,
        records,
    };
    t.check_sound()
}

// Lookup (01, "Lookup"; refusal 1), from a user to its global.
// Definition: crates/scope/specs/Lookup.antt, `global_from_user_of`; its answer: specs/Answers.antt, `got_global`. The others likewise.
pub fn get_global_from_user(
    c: Counts,
    gu: &[u32],
    ug: &[u32],
    sg: &[u32],
    gs: &[u32],
    assignment: &[u32],
    records: &[u32],
    user: User,
) -> Result<Option<Global>, Refusal>
    ensures { Meets (λ t room. global_from_user_of t user.0) (got_global result c)
        (reads c gu.now ug.now sg.now gs.now assignment.now records.now) }
{
    check_table(c, gu, ug, sg, gs, assignment, records)?;
    Ok(global_from_user_in(gu, user))
}

// Lookup in the one list that it reads, of a table known to be sound, which is not tested: any words may be lent.
// The same definition and answer, of every sound table that has the list. The others likewise.
pub fn global_from_user_in(gu: &[u32], user: User) -> Option<Global>
    ensures { (t : Table) → soundb t ≡ true → t.global_from_user ≡ gu.now
        → Does (global_from_user_of t user.0) (got_global (Ok result) t.counts) t [] [] }
{
    global_of(gu, user)
}

// Lookup from a global to its user.
pub fn get_user_from_global(
    c: Counts,
    gu: &[u32],
    ug: &[u32],
    sg: &[u32],
    gs: &[u32],
    assignment: &[u32],
    records: &[u32],
    global: Global,
) -> Result<Option<User>, Refusal>
    ensures { Meets (λ t room. user_from_global_of t global.0) (got_user result c)
        (reads c gu.now ug.now sg.now gs.now assignment.now records.now) }
{
    check_table(c, gu, ug, sg, gs, assignment, records)?;
    Ok(user_from_global_in(ug, global))
}

// The same from a global to its user.
pub fn user_from_global_in(ug: &[u32], global: Global) -> Option<User>
    ensures { (t : Table) → soundb t ≡ true → t.user_from_global ≡ ug.now
        → Does (user_from_global_of t global.0) (got_user (Ok result) t.counts) t [] [] }
{
    user_of(ug, global)
}

// Lookup from a global to its solver index.
pub fn get_solver_from_global(
    c: Counts,
    gu: &[u32],
    ug: &[u32],
    sg: &[u32],
    gs: &[u32],
    assignment: &[u32],
    records: &[u32],
    global: Global,
) -> Result<Option<Solver>, Refusal>
    ensures { Meets (λ t room. solver_from_global_of t global.0) (got_solver result c)
        (reads c gu.now ug.now sg.now gs.now assignment.now records.now) }
{
    check_table(c, gu, ug, sg, gs, assignment, records)?;
    Ok(solver_from_global_in(sg, global))
}

// The same from a global to its solver index.
pub fn solver_from_global_in(sg: &[u32], global: Global) -> Option<Solver>
    ensures { (t : Table) → soundb t ≡ true → t.solver_from_global ≡ sg.now
        → Does (solver_from_global_of t global.0) (got_solver (Ok result) t.counts) t [] [] }
{
    solver_of(sg, global)
}

// Lookup from a solver index to the global that holds it.
pub fn get_global_from_solver(
    c: Counts,
    gu: &[u32],
    ug: &[u32],
    sg: &[u32],
    gs: &[u32],
    assignment: &[u32],
    records: &[u32],
    solver: Solver,
) -> Result<Option<Global>, Refusal>
    ensures { Meets (λ t room. global_from_solver_of t solver.0) (got_global result c)
        (reads c gu.now ug.now sg.now gs.now assignment.now records.now) }
{
    check_table(c, gu, ug, sg, gs, assignment, records)?;
    Ok(global_from_solver_in(gs, solver))
}

// The same from a solver index to the global that holds it.
pub fn global_from_solver_in(gs: &[u32], solver: Solver) -> Option<Global>
    ensures { (t : Table) → soundb t ≡ true → t.global_from_solver ≡ gs.now
        → Does (global_from_solver_of t solver.0) (got_global (Ok result) t.counts) t [] [] }
{
    holder(gs, solver)
}

// The record of a global.
pub fn get_record(
    c: Counts,
    gu: &[u32],
    ug: &[u32],
    sg: &[u32],
    gs: &[u32],
    assignment: &[u32],
    records: &[u32],
    global: Global,
) -> Result<Option<u32>, Refusal>
    ensures { Meets (λ t room. record_word_of t global.0) (got_word result c)
        (reads c gu.now ug.now sg.now gs.now assignment.now records.now) }
{
    check_table(c, gu, ug, sg, gs, assignment, records)?;
    Ok(record_in(c.global, records, global))
}

// The same of the record of a global, below the watermark `mark` of globals.
pub fn record_in(mark: u32, records: &[u32], global: Global) -> Option<u32>
    ensures { (t : Table) → soundb t ≡ true → t.counts.global ≡ mark → t.records ≡ records.now
        → Does (record_word_of t global.0) (got_word (Ok result) t.counts) t [] [] }
{
    if mark <= global.0 {
        return None;
    }
    Some(word_at(records, global.0))
}

// The assignment word of a solver index.
pub fn get_assignment(
    c: Counts,
    gu: &[u32],
    ug: &[u32],
    sg: &[u32],
    gs: &[u32],
    assignment: &[u32],
    records: &[u32],
    solver: Solver,
) -> Result<Option<u32>, Refusal>
    ensures { Meets (λ t room. assignment_word_of t solver.0) (got_word result c)
        (reads c gu.now ug.now sg.now gs.now assignment.now records.now) }
{
    check_table(c, gu, ug, sg, gs, assignment, records)?;
    Ok(assignment_in(c.solver, assignment, solver))
}

// The same of the assignment word of a solver index, below the watermark `mark` of solver indices.
pub fn assignment_in(mark: u32, assignment: &[u32], solver: Solver) -> Option<u32>
    ensures { (t : Table) → soundb t ≡ true → t.counts.solver ≡ mark → t.assignment ≡ assignment.now
        → Does (assignment_word_of t solver.0) (got_word (Ok result) t.counts) t [] [] }
{
    if mark <= solver.0 {
        return None;
    }
    Some(word_at(assignment, solver.0))
}
