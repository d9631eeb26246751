// Open, and Lookup.
ghost use Rattle.std.specs.Prelude.{[], ◌∷◌};
ghost use Rattle.base.specs.Lent.{change};
ghost use Rattle.scope.specs.Contract.{quiet, reads};
ghost use Rattle.scope.specs.Open.{open_counts, open_of};
ghost use Rattle.scope.specs.Lookup.{global_from_user_of, user_from_global_of, solver_from_global_of, global_from_solver_of, record_word_of, assignment_word_of};
ghost use Rattle.scope.specs.Steps.{flag};
ghost use Rattle.numbers.specs.Surface.{plain, optional, Gives};

use answers::changed::HzChanged;
use answers::found::{HzFound, global_out, solver_out, user_out, word_out};
use answers::opened::opened_out;
use scope::{Counts, Global, Solver, User};

// Open (10): `open_of`.
pub fn hz_open(
    capacity: u32,
    gu: &mut [u32],
    ug: &mut [u32],
    sg: &mut [u32],
    gs: &mut [u32],
    assignment: &mut [u32],
    records: &mut [u32],
) -> HzChanged
    ensures { Gives (λ t room. open_of t) (plain 0) (result.refusal ∷ []) result.counts
        (quiet (open_counts capacity) (change gu.old gu.new) (change ug.old ug.new) (change sg.old sg.new) (change gs.old gs.new)
        (change assignment.old assignment.new) (change records.old records.new)) }
{
    let c = Counts {
        capacity: capacity,
        user: 0,
        global: 0,
        solver: 0,
        used: 0,
        next: 0,
    };
    let r = var_map::open_table(capacity, gu, ug, sg, gs, assignment, records);
    opened_out(r, c)
}

// Lookup (1) from a user to its global: `global_from_user_of`; the others likewise.
pub fn hz_global_from_user(
    c: Counts,
    gu: &[u32],
    ug: &[u32],
    sg: &[u32],
    gs: &[u32],
    assignment: &[u32],
    records: &[u32],
    user: u32,
) -> HzFound
    ensures { Gives (λ t room. global_from_user_of t user) (optional 0) (result.refusal ∷ flag result.found ∷ result.value ∷ []) c
        (reads c gu.now ug.now sg.now gs.now assignment.now records.now) }
{
    let r = var_map::get_global_from_user(c, gu, ug, sg, gs, assignment, records, User(user));
    global_out(r)
}

pub fn hz_user_from_global(
    c: Counts,
    gu: &[u32],
    ug: &[u32],
    sg: &[u32],
    gs: &[u32],
    assignment: &[u32],
    records: &[u32],
    global: u32,
) -> HzFound
    ensures { Gives (λ t room. user_from_global_of t global) (optional 0) (result.refusal ∷ flag result.found ∷ result.value ∷ []) c
        (reads c gu.now ug.now sg.now gs.now assignment.now records.now) }
{
    let r = var_map::get_user_from_global(c, gu, ug, sg, gs, assignment, records, Global(global));
    user_out(r)
}

pub fn hz_solver_from_global(
    c: Counts,
    gu: &[u32],
    ug: &[u32],
    sg: &[u32],
    gs: &[u32],
    assignment: &[u32],
    records: &[u32],
    global: u32,
) -> HzFound
    ensures { Gives (λ t room. solver_from_global_of t global) (optional 0) (result.refusal ∷ flag result.found ∷ result.value ∷ []) c
        (reads c gu.now ug.now sg.now gs.now assignment.now records.now) }
{
    let r = var_map::get_solver_from_global(c, gu, ug, sg, gs, assignment, records, Global(global));
    solver_out(r)
}

pub fn hz_global_from_solver(
    c: Counts,
    gu: &[u32],
    ug: &[u32],
    sg: &[u32],
    gs: &[u32],
    assignment: &[u32],
    records: &[u32],
    solver: u32,
) -> HzFound
    ensures { Gives (λ t room. global_from_solver_of t solver) (optional 0) (result.refusal ∷ flag result.found ∷ result.value ∷ []) c
        (reads c gu.now ug.now sg.now gs.now assignment.now records.now) }
{
    let r = var_map::get_global_from_solver(c, gu, ug, sg, gs, assignment, records, Solver(solver));
    global_out(r)
}

pub fn hz_record(
    c: Counts,
    gu: &[u32],
    ug: &[u32],
    sg: &[u32],
    gs: &[u32],
    assignment: &[u32],
    records: &[u32],
    global: u32,
) -> HzFound
    ensures { Gives (λ t room. record_word_of t global) (optional 0) (result.refusal ∷ flag result.found ∷ result.value ∷ []) c
        (reads c gu.now ug.now sg.now gs.now assignment.now records.now) }
{
    let r = var_map::get_record(c, gu, ug, sg, gs, assignment, records, Global(global));
    word_out(r)
}

pub fn hz_assignment(
    c: Counts,
    gu: &[u32],
    ug: &[u32],
    sg: &[u32],
    gs: &[u32],
    assignment: &[u32],
    records: &[u32],
    solver: u32,
) -> HzFound
    ensures { Gives (λ t room. assignment_word_of t solver) (optional 0) (result.refusal ∷ flag result.found ∷ result.value ∷ []) c
        (reads c gu.now ug.now sg.now gs.now assignment.now records.now) }
{
    let r = var_map::get_assignment(c, gu, ug, sg, gs, assignment, records, Solver(solver));
    word_out(r)
}
