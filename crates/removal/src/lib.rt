// Remove and Sweep. How the contracts read: crates/scope/specs/Contract.antt, and inside a call crates/changes/specs/Leaves.antt.
// Lists of which some are written stay parameters of their own: a `&mut` lends only what may change, and by type the rest stays.
#![tactic(auto)]

ghost use Rattle.std.specs.Prelude.{◌≡◌, true, List, ℕ, Some, Ok, ◌≤◌, ◌<◌, length, get_or};
ghost use Rattle.base.specs.Lent.{change, constant};
ghost use Rattle.scope.specs.Contract.{given, lent, Meets};
ghost use Rattle.scope.specs.Refusals.{refused_by};
ghost use Rattle.scope.specs.Table.{table_of};
ghost use Rattle.scope.specs.Sound.{soundb};
ghost use Rattle.scope.specs.Remove.{remove_held, remove_refusal, remove_of, sweep_one, sweep, sweep_refusal, sweep_of};
ghost use Rattle.changes.specs.Leaves.{Leaves};
ghost use Rattle.table.specs.Found.{found_global};
ghost use Rattle.table.specs.Lists.{seen};
ghost use Rattle.removal.specs.Counting.{removal_notes, learnt, is_loose, notes_at};
ghost use Rattle.removal.specs.Asks.{RemoveAsks, SweepAsks, SweepAllAsks};
ghost use Rattle.removal.specs.Answers.{removed};

use changes::{Passed, delete_global_if_unused};
use scope::{Counts, Global, Note, Refusal, Solver};
use table::{Lists, holder, put_note};

// The counts after, and how many notes were made.
#[derive(Clone, Copy)]
pub struct Removed {
    pub counts: Counts,
    pub notes: u32,
}

// S(g,-), then D if unused. The assignment word stays. The lists that are not lent, gu and a, may be any.
fn remove_held(
    p: Passed,
    ug: &[u32],
    sg: &mut [u32],
    gs: &mut [u32],
    records: &mut [u32],
    global: Global,
    solver: Solver,
    notes: &mut [u32],
) -> Passed
    requires { RemoveAsks p.counts ug.now sg.old gs.old records.old global.0 solver.0 p.at (length notes.old) }
    ensures { (gu a : List ℕ) → Leaves (remove_held global.0 solver.0 (table_of p.counts gu ug.now sg.old gs.old a records.old)) p.at result.at
        (table_of result.counts gu ug.now sg.new gs.new a records.new) notes.old notes.new }
{
    let counts = p.counts.remove(sg, gs, global, solver);
    put_note(notes, p.at, Note::SolverWithdrawn(global));
    delete_global_if_unused(counts, ug, sg, records, global, p.at + 3, notes)
}

// How many notes a removal makes, by the user word and the record of the global.
fn removal_notes(user: u32, w: u32) -> u32
    ensures { result ≡ removal_notes user w }
{
    if (user == 0) & (w / 9 % 2 == 1) { 2 } else { 1 }
}

// The first refusal of Remove that applies to a sound table, else the global that holds the index.
fn remove_refusal(t: &Lists, solver: Solver, room: usize) -> Result<Global, Refusal>
    requires { soundb (seen t.now) ≡ true }
    ensures value { refused_by result ≡ remove_refusal (seen t.now) solver.0 room }
    ensures held { (g : Global) → result ≡ Ok g → Some g ≡ found_global (get_or t.now.gs.now solver.0 0) }
{
    let Some(global) = holder(t.gs, solver) else {
        return Err(Refusal::NotHeld);
    };
    let user = t.ug[global.0 as usize];
    let w = t.records[global.0 as usize];
    let words = 3 * removal_notes(user, w) as usize;
    let assumed = w / 18 % 2 == 1;
    if assumed {
        return Err(Refusal::StillAssumed);
    }
    if room < words {
        return Err(Refusal::Short);
    }
    Ok(global)
}

// Remove (01, `remove_solver_var`; refusals 1, 8, 16, 2): the solver index is withdrawn, and its global deleted if unused.
// Definition: crates/scope/specs/Remove.antt, `remove_of`; its answer: `removed`.
pub fn remove_solver_var(
    c: Counts,
    gu: &[u32],
    ug: &[u32],
    sg: &mut [u32],
    gs: &mut [u32],
    assignment: &[u32],
    records: &mut [u32],
    solver: Solver,
    notes: &mut [u32],
) -> Result<Removed, Refusal>
    ensures { Meets (λ t room. remove_of t solver.0 room) (removed result c)
        (lent c (constant gu.now) (constant ug.now) (change sg.old sg.new) (change gs.old gs.new)
        (constant assignment.now) (change records.old records.new) (change notes.old notes.new)) }
{
    let t = Lists {
        counts: c,
        gu,
        ug,
        sg,
        gs,
        assignment,
        records,
    };
    t.check_sound()?;
    known_remove_solver_var(c, gu, ug, sg, gs, assignment, records, solver, notes)
}

// Remove on a table known to be sound, which is not tested.
// The same answer as `remove_solver_var`.
pub fn known_remove_solver_var(
    c: Counts,
    gu: &[u32],
    ug: &[u32],
    sg: &mut [u32],
    gs: &mut [u32],
    assignment: &[u32],
    records: &mut [u32],
    solver: Solver,
    notes: &mut [u32],
) -> Result<Removed, Refusal>
    requires { soundb (given c gu.now ug.now sg.old gs.old assignment.now records.old) ≡ true }
    ensures { Meets (λ t room. remove_of t solver.0 room) (removed result c)
        (lent c (constant gu.now) (constant ug.now) (change sg.old sg.new) (change gs.old gs.new)
        (constant assignment.now) (change records.old records.new) (change notes.old notes.new)) }
{
    let t = Lists {
        counts: c,
        gu,
        ug,
        sg,
        gs,
        assignment,
        records,
    };
    let global = remove_refusal(&t, solver, notes.len())?;
    let start = Passed { counts: c, at: 0 };
    let p = remove_held(start, ug, sg, gs, records, global, solver, notes);
    Ok(Removed {
        counts: p.counts,
        notes: (p.at / 3) as u32,
    })
}

// The record w after the value v was learnt: it becomes the unit and sets isolated.
fn learnt_record(w: u32, v: u32) -> u32
    requires w_bound { w < 36 }
    requires v_bound { v ≤ 2 }
    ensures value { result ≡ learnt w v }
    ensures upper_bound { result < 36 }
{
    if v == 0 {
        w
    } else {
        w / 18 * 18 + 9 + 3 * v + w % 3
    }
}

// Isolated and not assumed, of the record of an undeleted global.
fn is_loose(w: u32) -> bool
    requires { w < 36 }
    ensures { result ≡ is_loose w }
{
    (9..18).contains(&w)
}

// How many notes the sweep of a solver index makes.
fn notes_at(t: &Lists, solver: Solver) -> u32
    requires { soundb (seen t.now) ≡ true }
    ensures { result ≡ notes_at (seen t.now) solver.0 }
{
    let Some(global) = holder(t.gs, solver) else {
        return 0;
    };
    let g = global.0 as usize;
    let w = learnt_record(t.records[g], t.assignment[solver.0 as usize]);
    if is_loose(w) {
        removal_notes(t.ug[g], w)
    } else {
        0
    }
}

// How many notes a sweep makes. Nothing is written.
fn count_notes(t: &Lists) -> u32
    requires { soundb (seen t.now) ≡ true }
    ensures { result ≡ length (sweep (seen t.now)).notes }
{
    let mut n: u32 = 0;
    for s in 0..t.counts.solver {
        n += notes_at(t, Solver(s));
    }
    n
}

// The first refusal of Sweep that applies to a sound table.
fn sweep_refusal(t: &Lists, room: usize) -> Result<(), Refusal>
    requires { soundb (seen t.now) ≡ true }
    ensures { refused_by result ≡ sweep_refusal (seen t.now) room }
{
    if room < 3 * count_notes(t) as usize {
        return Err(Refusal::Short);
    }
    Ok(())
}

// A solver index that is held: a value becomes the unit; then isolated and not assumed is removed. The list gu is not lent and may be any.
fn sweep_one(
    p: Passed,
    ug: &[u32],
    sg: &mut [u32],
    gs: &mut [u32],
    assignment: &[u32],
    records: &mut [u32],
    solver: Solver,
    notes: &mut [u32],
) -> Passed
    requires { SweepAsks p.counts ug.now sg.old gs.old assignment.now records.old solver.0 p.at (length notes.old) }
    ensures { (gu : List ℕ) → Leaves (sweep_one solver.0 (table_of p.counts gu ug.now sg.old gs.old assignment.now records.old)) p.at result.at
        (table_of result.counts gu ug.now sg.new gs.new assignment.now records.new) notes.old notes.new }
{
    let Some(global) = holder(gs, solver) else {
        return p;
    };
    let g = global.0 as usize;
    let w = learnt_record(records[g], assignment[solver.0 as usize]);
    records[g] = w;
    if !is_loose(w) {
        return p;
    }
    remove_held(p, ug, sg, gs, records, global, solver, notes)
}

// Every solver index in ascending order, on a sound table with room for the notes. The list gu is not lent and may be any.
fn sweep_all(
    c: Counts,
    ug: &[u32],
    sg: &mut [u32],
    gs: &mut [u32],
    assignment: &[u32],
    records: &mut [u32],
    notes: &mut [u32],
) -> Passed
    requires { SweepAllAsks c ug.now sg.old gs.old assignment.now records.old (length notes.old) }
    ensures { (gu : List ℕ) → Leaves (sweep (table_of c gu ug.now sg.old gs.old assignment.now records.old)) 0 result.at
        (table_of result.counts gu ug.now sg.new gs.new assignment.now records.new) notes.old notes.new }
{
    let mut p = Passed { counts: c, at: 0 };
    for s in 0..c.solver {
        p = sweep_one(p, ug, sg, gs, assignment, records, Solver(s), notes);
    }
    p
}

// Sweep (01, last loop of `unit_simplify`; refusals 1, 2): each held solver index learns its value, and is removed if isolated and not assumed.
// Definition: crates/scope/specs/Remove.antt, `sweep_of`; its answer: `removed`.
pub fn sweep(
    c: Counts,
    gu: &[u32],
    ug: &[u32],
    sg: &mut [u32],
    gs: &mut [u32],
    assignment: &[u32],
    records: &mut [u32],
    notes: &mut [u32],
) -> Result<Removed, Refusal>
    ensures { Meets (λ t room. sweep_of t room) (removed result c)
        (lent c (constant gu.now) (constant ug.now) (change sg.old sg.new) (change gs.old gs.new)
        (constant assignment.now) (change records.old records.new) (change notes.old notes.new)) }
{
    let t = Lists {
        counts: c,
        gu,
        ug,
        sg,
        gs,
        assignment,
        records,
    };
    t.check_sound()?;
    known_sweep(c, gu, ug, sg, gs, assignment, records, notes)
}

// Sweep on a table known to be sound, which is not tested.
// The same answer as `sweep`.
pub fn known_sweep(
    c: Counts,
    gu: &[u32],
    ug: &[u32],
    sg: &mut [u32],
    gs: &mut [u32],
    assignment: &[u32],
    records: &mut [u32],
    notes: &mut [u32],
) -> Result<Removed, Refusal>
    requires { soundb (given c gu.now ug.now sg.old gs.old assignment.now records.old) ≡ true }
    ensures { Meets (λ t room. sweep_of t room) (removed result c)
        (lent c (constant gu.now) (constant ug.now) (change sg.old sg.new) (change gs.old gs.new)
        (constant assignment.now) (change records.old records.new) (change notes.old notes.new)) }
{
    let t = Lists {
        counts: c,
        gu,
        ug,
        sg,
        gs,
        assignment,
        records,
    };
    sweep_refusal(&t, notes.len())?;
    let p = sweep_all(c, ug, sg, gs, assignment, records, notes);
    Ok(Removed {
        counts: p.counts,
        notes: (p.at / 3) as u32,
    })
}
