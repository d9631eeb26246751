// Grant. How the contracts read: crates/scope/specs/Contract.antt.
// Lists of which some are written stay parameters of their own: a `&mut` lends only what may change, and by type the rest stays.
#![tactic(auto)]

ghost use Rattle.std.specs.Prelude.{◌≡◌, true, List, ◌∷◌, [], ℕ, ◌+◌, ◌≤◌, ◌<◌, length, set};
ghost use Rattle.base.specs.Lent.{Fills, change, constant};
ghost use Rattle.scope.specs.Contract.{given, lent, Meets};
ghost use Rattle.scope.specs.Sound.{soundb};
ghost use Rattle.scope.specs.Table.{Table, table_of, least_free, grant_counts};
ghost use Rattle.scope.specs.Grant.{grant, grant_refusal, grant_of};
ghost use Rattle.scope.specs.Refusals.{refused_by};
ghost use Rattle.table.specs.Lists.{seen};
ghost use Rattle.changes.specs.AtOnce.{solver_found, AtOnce};
ghost use Rattle.changes.specs.Leaves.{Leaves};
ghost use Rattle.granting.specs.Answers.{granted};
ghost use Rattle.granting.specs.Asks.{IndexAsks};

use changes::Passed;
use scope::{Counts, Global, Note, Refusal, Solver};
use table::{Lists, put_note, solver_of};

// A global's solver index, with the counts and the place in the notes after it.
#[derive(Clone, Copy)]
pub struct Indexed {
    pub solver: Solver,
    pub after: Passed,
}

// The answer: the solver index, the counts and how many notes were written.
#[derive(Clone, Copy)]
pub struct Granted {
    pub solver: Solver,
    pub counts: Counts,
    pub notes: u32,
}

// The least free solver index goes to a global that has none; its assignment becomes the unit; note S.
fn grant_next(
    p: Passed,
    sg: &mut [u32],
    gs: &mut [u32],
    assignment: &mut [u32],
    global: Global,
    unit: u32,
    notes: &mut [u32],
) -> Indexed
    requires solver_in_bounds { p.counts.solver ≤ length gs.old }
    requires next_value { p.counts.next ≡ least_free gs.old p.counts.solver }
    requires next_in_bounds { p.counts.next < length gs.old }
    requires next_in_bounds_2 { p.counts.next < length assignment.old }
    requires next_lt_capacity { p.counts.next < p.counts.capacity }
    requires global_in_bounds { global.0 < length sg.old }
    requires global_lt_capacity { global.0 < p.counts.capacity }
    requires at_in_bounds { p.at + 3 ≤ length notes.old }
    ensures solver_value { result.solver.0 ≡ p.counts.next }
    ensures counts_value { result.after.counts ≡ grant_counts p.counts p.counts.next global.0 gs.new }
    ensures at_value { result.after.at ≡ p.at + 3 }
    ensures sg_value { sg.new ≡ set sg.old global.0 (p.counts.next + 1) }
    ensures gs_value { gs.new ≡ set gs.old p.counts.next (global.0 + 1) }
    ensures assignment_value { assignment.new ≡ set assignment.old p.counts.next unit }
    ensures fills { Fills (change notes.old notes.new) p.at (1 ∷ global.0 ∷ (p.counts.next + 1) ∷ []) }
{
    let s = p.counts.next;
    let solver = Solver(s);
    assignment[s as usize] = unit;
    put_note(notes, p.at, Note::SolverGranted(global, solver));
    let counts = p.counts.grant(sg, gs, global, solver);
    Indexed {
        solver,
        after: Passed {
            counts,
            at: p.at + 3,
        },
    }
}

// The solver index of an undeleted global of a sound table: the one held, else the least free one. The maps of users, gu and ug, are not lent and
// may be any.
pub fn grant_index(
    p: Passed,
    sg: &mut [u32],
    gs: &mut [u32],
    assignment: &mut [u32],
    records: &[u32],
    global: Global,
    notes: &mut [u32],
) -> Indexed
    requires { IndexAsks p.counts sg.old gs.old assignment.old records.now global.0 p.at (length notes.old) }
    ensures by_index { (gu ug : List ℕ) → result.solver.0 ≡ (grant global.0 (table_of p.counts gu ug sg.old gs.old assignment.old records.now)).value }
    ensures by_index_2 { (gu ug : List ℕ) → Leaves (grant global.0 (table_of p.counts gu ug sg.old gs.old assignment.old records.now)) p.at result.after.at
        (table_of result.after.counts gu ug sg.new gs.new assignment.new records.now) notes.old notes.new }
{
    let Some(solver) = solver_of(sg, global) else {
        let unit = records[global.0 as usize] / 3 % 3;
        return grant_next(p, sg, gs, assignment, global, unit, notes);
    };
    Indexed { solver, after: p }
}

// The first refusal of Grant that applies to a sound table.
fn grant_refusal(t: &Lists, global: Global, room: usize) -> Result<(), Refusal>
    requires { soundb (seen t.now) ≡ true }
    ensures { refused_by result ≡ grant_refusal (seen t.now) global.0 room }
{
    if t.counts.global <= global.0 {
        return Err(Refusal::OutOfRange);
    }
    let g = global.0 as usize;
    let w = t.records[g];
    if 36 <= w {
        return Err(Refusal::Deleted);
    }
    if (t.sg[g] == 0) & (room < 3) {
        return Err(Refusal::Short);
    }
    Ok(())
}

// Grant (01, `solver_from_global`; refusals 1, 3, 6, 2): the index held, else the least unmapped solver index.
// Definition: crates/scope/specs/Grant.antt, `grant_of`; its answer: specs/Answers.antt, `granted`.
pub fn solver_from_global(
    c: Counts,
    gu: &[u32],
    ug: &[u32],
    sg: &mut [u32],
    gs: &mut [u32],
    assignment: &mut [u32],
    records: &[u32],
    global: Global,
    notes: &mut [u32],
) -> Result<Granted, Refusal>
    ensures { Meets (λ t room. grant_of t global.0 room) (granted result c)
        (lent c (constant gu.now) (constant ug.now) (change sg.old sg.new) (change gs.old gs.new)
        (change assignment.old assignment.new) (constant records.now) (change notes.old notes.new)) }
{
    let t = Lists {
        counts: c,
        gu,
        ug,
        sg,
        gs,
        assignment,
        records,
    };
    t.check_sound()?;
    known_solver_from_global(c, gu, ug, sg, gs, assignment, records, global, notes)
}

// Grant on a table known to be sound, which is not tested.
// The same definition and answer.
pub fn known_solver_from_global(
    c: Counts,
    gu: &[u32],
    ug: &[u32],
    sg: &mut [u32],
    gs: &mut [u32],
    assignment: &mut [u32],
    records: &[u32],
    global: Global,
    notes: &mut [u32],
) -> Result<Granted, Refusal>
    requires { soundb (given c gu.now ug.now sg.old gs.old assignment.old records.now) ≡ true }
    ensures { Meets (λ t room. grant_of t global.0 room) (granted result c)
        (lent c (constant gu.now) (constant ug.now) (change sg.old sg.new) (change gs.old gs.new)
        (change assignment.old assignment.new) (constant records.now) (change notes.old notes.new)) }
{
    let t = Lists {
        counts: c,
        gu,
        ug,
        sg,
        gs,
        assignment,
        records,
    };
    grant_refusal(&t, global, notes.len())?;
    let start = Passed { counts: c, at: 0 };
    let h = grant_index(start, sg, gs, assignment, records, global, notes);
    Ok(Granted {
        solver: h.solver,
        counts: h.after.counts,
        notes: (h.after.at / 3) as u32,
    })
}

// Held already: the solver index that Grant answers with no note on every sound table that has the list, which is not tested; else `None`.
// Definition: crates/changes/specs/AtOnce.antt, `AtOnce`, of `grant_of`. Any words may be lent.
pub fn grant_in(sg: &[u32], global: Global) -> Option<Solver>
    ensures { (t : Table) → soundb t ≡ true → t.solver_from_global ≡ sg.now
        → AtOnce (λ room. grant_of t global.0 room) t (solver_found result) }
{
    solver_of(sg, global)
}
