// Open, and Lookup.
ghost use Rattle.std.specs.Prelude.{[], ◌∷◌};
ghost use Rattle.base.specs.Lent.{change};
ghost use Rattle.scope.specs.Contract.{quiet, reads};
ghost use Rattle.scope.specs.Open.{open_counts, open_of};
ghost use Rattle.scope.specs.Lookup.{global_from_user_of, user_from_global_of, solver_from_global_of, global_from_solver_of, record_word_of, assignment_word_of};
ghost use Rattle.scope.specs.Steps.{flag};
ghost use Rattle.numbers.specs.Surface.{plain, optional, Gives};

use answers::changed::HzChanged;
use answers::found::HzFound;
use scope::Counts;

// Open (10): `open_of`.
#[unsafe(no_mangle)]
pub extern "C" fn hz_open(
    capacity: u32,
    gu: &mut [u32],
    ug: &mut [u32],
    sg: &mut [u32],
    gs: &mut [u32],
    assignment: &mut [u32],
    records: &mut [u32],
) -> HzChanged
    ensures { Gives (λ t room. open_of t) (plain 0) (result.refusal ∷ []) result.counts
        (quiet (open_counts capacity) (change gu.old gu.new) (change ug.old ug.new) (change sg.old sg.new) (change gs.old gs.new)
        (change assignment.old assignment.new) (change records.old records.new)) }
{
    capi::opening::hz_open(capacity, gu, ug, sg, gs, assignment, records)
}

// Lookup (1) from a user to its global: `global_from_user_of`; the others likewise.
#[unsafe(no_mangle)]
pub extern "C" fn hz_global_from_user(
    c: Counts,
    gu: &[u32],
    ug: &[u32],
    sg: &[u32],
    gs: &[u32],
    assignment: &[u32],
    records: &[u32],
    user: u32,
) -> HzFound
    ensures { Gives (λ t room. global_from_user_of t user) (optional 0) (result.refusal ∷ flag result.found ∷ result.value ∷ []) c
        (reads c gu.now ug.now sg.now gs.now assignment.now records.now) }
{
    capi::opening::hz_global_from_user(c, gu, ug, sg, gs, assignment, records, user)
}

#[unsafe(no_mangle)]
pub extern "C" fn hz_user_from_global(
    c: Counts,
    gu: &[u32],
    ug: &[u32],
    sg: &[u32],
    gs: &[u32],
    assignment: &[u32],
    records: &[u32],
    global: u32,
) -> HzFound
    ensures { Gives (λ t room. user_from_global_of t global) (optional 0) (result.refusal ∷ flag result.found ∷ result.value ∷ []) c
        (reads c gu.now ug.now sg.now gs.now assignment.now records.now) }
{
    capi::opening::hz_user_from_global(c, gu, ug, sg, gs, assignment, records, global)
}

#[unsafe(no_mangle)]
pub extern "C" fn hz_solver_from_global(
    c: Counts,
    gu: &[u32],
    ug: &[u32],
    sg: &[u32],
    gs: &[u32],
    assignment: &[u32],
    records: &[u32],
    global: u32,
) -> HzFound
    ensures { Gives (λ t room. solver_from_global_of t global) (optional 0) (result.refusal ∷ flag result.found ∷ result.value ∷ []) c
        (reads c gu.now ug.now sg.now gs.now assignment.now records.now) }
{
    capi::opening::hz_solver_from_global(c, gu, ug, sg, gs, assignment, records, global)
}

#[unsafe(no_mangle)]
pub extern "C" fn hz_global_from_solver(
    c: Counts,
    gu: &[u32],
    ug: &[u32],
    sg: &[u32],
    gs: &[u32],
    assignment: &[u32],
    records: &[u32],
    solver: u32,
) -> HzFound
    ensures { Gives (λ t room. global_from_solver_of t solver) (optional 0) (result.refusal ∷ flag result.found ∷ result.value ∷ []) c
        (reads c gu.now ug.now sg.now gs.now assignment.now records.now) }
{
    capi::opening::hz_global_from_solver(c, gu, ug, sg, gs, assignment, records, solver)
}

#[unsafe(no_mangle)]
pub extern "C" fn hz_record(
    c: Counts,
    gu: &[u32],
    ug: &[u32],
    sg: &[u32],
    gs: &[u32],
    assignment: &[u32],
    records: &[u32],
    global: u32,
) -> HzFound
    ensures { Gives (λ t room. record_word_of t global) (optional 0) (result.refusal ∷ flag result.found ∷ result.value ∷ []) c
        (reads c gu.now ug.now sg.now gs.now assignment.now records.now) }
{
    capi::opening::hz_record(c, gu, ug, sg, gs, assignment, records, global)
}

#[unsafe(no_mangle)]
pub extern "C" fn hz_assignment(
    c: Counts,
    gu: &[u32],
    ug: &[u32],
    sg: &[u32],
    gs: &[u32],
    assignment: &[u32],
    records: &[u32],
    solver: u32,
) -> HzFound
    ensures { Gives (λ t room. assignment_word_of t solver) (optional 0) (result.refusal ∷ flag result.found ∷ result.value ∷ []) c
        (reads c gu.now ug.now sg.now gs.now assignment.now records.now) }
{
    capi::opening::hz_assignment(c, gu, ug, sg, gs, assignment, records, solver)
}
