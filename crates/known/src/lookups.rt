// Lookup in the one list that it reads. No table is lent, and any words may be: the answer is the call's on every sound table that has this list.
ghost use Rattle.std.specs.Prelude.{◌≡◌, true, [], ◌∷◌};
ghost use Rattle.scope.specs.Table.{Table};
ghost use Rattle.scope.specs.Sound.{soundb};
ghost use Rattle.scope.specs.Lookup.{global_from_user_of, user_from_global_of, solver_from_global_of, global_from_solver_of, record_word_of, assignment_word_of};
ghost use Rattle.scope.specs.Steps.{flag};
ghost use Rattle.numbers.specs.Surface.{optional, Given};

use answers::found::{HzFound, global_told, solver_told, user_told, word_told};
use scope::{Global, Solver, User};

// From a user to its global: `global_from_user_of`; the others likewise.
#[unsafe(no_mangle)]
pub extern "C" fn hz_global_from_user_in(gu: &[u32], user: u32) -> HzFound
    ensures { (t : Table) → soundb t ≡ true → t.global_from_user ≡ gu.now
        → Given (global_from_user_of t user) (optional 0) (result.refusal ∷ flag result.found ∷ result.value ∷ []) t [] [] }
{
    let r = var_map::global_from_user_in(gu, User(user));
    global_told(r)
}

#[unsafe(no_mangle)]
pub extern "C" fn hz_user_from_global_in(ug: &[u32], global: u32) -> HzFound
    ensures { (t : Table) → soundb t ≡ true → t.user_from_global ≡ ug.now
        → Given (user_from_global_of t global) (optional 0) (result.refusal ∷ flag result.found ∷ result.value ∷ []) t [] [] }
{
    let r = var_map::user_from_global_in(ug, Global(global));
    user_told(r)
}

#[unsafe(no_mangle)]
pub extern "C" fn hz_solver_from_global_in(sg: &[u32], global: u32) -> HzFound
    ensures { (t : Table) → soundb t ≡ true → t.solver_from_global ≡ sg.now
        → Given (solver_from_global_of t global) (optional 0) (result.refusal ∷ flag result.found ∷ result.value ∷ []) t [] [] }
{
    let r = var_map::solver_from_global_in(sg, Global(global));
    solver_told(r)
}

#[unsafe(no_mangle)]
pub extern "C" fn hz_global_from_solver_in(gs: &[u32], solver: u32) -> HzFound
    ensures { (t : Table) → soundb t ≡ true → t.global_from_solver ≡ gs.now
        → Given (global_from_solver_of t solver) (optional 0) (result.refusal ∷ flag result.found ∷ result.value ∷ []) t [] [] }
{
    let r = var_map::global_from_solver_in(gs, Solver(solver));
    global_told(r)
}

// The record of a global; `mark` is the global watermark.
#[unsafe(no_mangle)]
pub extern "C" fn hz_record_in(mark: u32, records: &[u32], global: u32) -> HzFound
    ensures { (t : Table) → soundb t ≡ true → t.counts.global ≡ mark → t.records ≡ records.now
        → Given (record_word_of t global) (optional 0) (result.refusal ∷ flag result.found ∷ result.value ∷ []) t [] [] }
{
    let r = var_map::record_in(mark, records, Global(global));
    word_told(r)
}

// The assignment word of a solver index; `mark` is the solver watermark.
#[unsafe(no_mangle)]
pub extern "C" fn hz_assignment_in(mark: u32, assignment: &[u32], solver: u32) -> HzFound
    ensures { (t : Table) → soundb t ≡ true → t.counts.solver ≡ mark → t.assignment ≡ assignment.now
        → Given (assignment_word_of t solver) (optional 0) (result.refusal ∷ flag result.found ∷ result.value ∷ []) t [] [] }
{
    let r = var_map::assignment_in(mark, assignment, Solver(solver));
    word_told(r)
}
