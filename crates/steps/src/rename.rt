// Rename: the literals of a step under global names (`MapStep::map`, src/proof/map_step.rs).
// The calls take each list, the step and what stands beside it apart, as the C interface lends them.
ghost use Rattle.std.specs.Prelude.{◌≡◌, true, false, ◌≢◌, [], ℕ, ◌/◌, ◌≤◌, ◌<◌, eqb, length, get_or};
ghost use Rattle.std.specs.List.{list_any};
ghost use Rattle.base.specs.Lent.{Fills, change};
ghost use Rattle.scope.specs.Literals.{index_of};
ghost use Rattle.scope.specs.declared.ProofStep.{ProofStep};
ghost use Rattle.scope.specs.Table.{Table};
ghost use Rattle.scope.specs.Sound.{soundb};
ghost use Rattle.scope.specs.Contract.{given, Does, Meets, reads};
ghost use Rattle.scope.specs.Steps.{rule_of};
ghost use Rattle.scope.specs.Write.{rename_lit, unmatched, step_refusal, rename_refusal, rename_of};
ghost use Rattle.scope.specs.Refusals.{refused_by};
ghost use Rattle.table.specs.Lists.{seen};
ghost use Rattle.steps.specs.Names.{names_by, Named, lacks};
ghost use Rattle.steps.specs.Refusals.{literal_refusal};
ghost use Rattle.steps.specs.Answers.{renamed, in_full};

use crate::kinds::{differ, hashes_of, literals_of};
use scope::{Counts, ProofStep, Refusal, Solver};
use table::{Lists, any_outside, holder, word_at};

// Some literal's index has no holder.
fn any_unheld(gs: &[u32], lits: &[u32]) -> bool
    ensures { result ≡ list_any (λ c. eqb (get_or gs.now (index_of c) 0) 0) lits.now }
{
    for lit in lits {
        let Some(_) = holder(gs, Solver(*lit / 2)) else {
            return true;
        };
    }
    false
}

// The first refusal that literals have: 3, 8.
pub fn literal_refusal(c: Counts, gs: &[u32], solvervars: bool, lits: &[u32]) -> Result<(), Refusal>
    ensures { (t : Table) → t.counts ≡ c → t.global_from_solver ≡ gs.now → refused_by result ≡ literal_refusal t solvervars lits.now }
{
    if 8192 < lits.len() {
        return Err(Refusal::OutOfRange);
    }
    if !solvervars {
        if any_outside(c.capacity, lits) {
            return Err(Refusal::OutOfRange);
        }
        return Ok(());
    }
    if any_unheld(gs, lits) {
        return Err(Refusal::NotHeld);
    }
    Ok(())
}

// A literal under its global name, sign kept; a global literal as given.
pub fn rename_lit(gs: &[u32], solvervars: bool, code: u32) -> u32
    requires code_bound { get_or gs.now (code / 2) 0 ≤ 4096 }
    requires code_nonzero { solvervars ≡ true → get_or gs.now (code / 2) 0 ≢ 0 }
    ensures { result ≡ rename_lit (λ s. get_or gs.now s 0) solvervars code }
{
    if !solvervars {
        return code;
    }
    let w = gs[(code / 2) as usize];
    2 * (w - 1) + code % 2
}

// A unit, a part of the buffer of literals (document 01), under its global name.
fn rename_unit(gs: &[u32], solvervars: bool, unit: &[u32]) -> u32
    requires unit_len { length unit.now ≡ 1 }
    requires unit_bound { get_or gs.now (get_or unit.now 0 0 / 2) 0 ≤ 4096 }
    requires unit_nonzero { solvervars ≡ true → get_or gs.now (get_or unit.now 0 0 / 2) 0 ≢ 0 }
    ensures { result ≡ rename_lit (λ s. get_or gs.now s 0) solvervars (get_or unit.now 0 0) }
{
    rename_lit(gs, solvervars, unit[0])
}

// Literals under global names, from the start of `out`.
pub fn rename_lits(gs: &[u32], solvervars: bool, lits: &[u32], out: &mut [u32])
    requires named { Named gs.now solvervars lits.now }
    requires lits_in_bounds { length lits.now ≤ length out.old }
    ensures { Fills (change out.old out.new) 0 (names_by gs.now solvervars lits.now) }
{
    for i in 0..lits.len() {
        out[i] = rename_unit(gs, solvervars, &lits[i..i + 1]);
    }
}

// Hashes pass unchanged. In a loop, as `copy_lits` of crates/table.
fn copy_hashes(hashes: &[u64], out: &mut [u64])
    requires { length hashes.now ≤ length out.old }
    ensures { Fills (change out.old out.new) 0 hashes.now }
{
    for i in 0..hashes.len() {
        out[i] = hashes[i];
    }
}

// The first refusal that a step has on a sound table, rooms apart: 14, 3, 8.
#[inline(always)]
pub fn step_refusal(
    t: &Lists,
    step: ProofStep,
    solvervars: bool,
    lits: &[u32],
    hashes: &[u64],
) -> Result<(), Refusal>
    requires { soundb (seen t.now) ≡ true }
    ensures { refused_by result ≡ step_refusal (seen t.now) step solvervars lits.now hashes.now 0 }
{
    if differ(step, lits, hashes) {
        return Err(Refusal::Unmatched);
    }
    literal_refusal(t.counts, t.gs, solvervars, literals_of(step, lits))
}

// The same with 2, for the rooms for literals and for hashes.
fn rename_refusal(
    t: &Lists,
    step: ProofStep,
    solvervars: bool,
    lits: &[u32],
    hashes: &[u64],
    room: usize,
    hashroom: usize,
) -> Result<(), Refusal>
    requires { soundb (seen t.now) ≡ true }
    ensures { refused_by result ≡ rename_refusal (seen t.now) step solvervars lits.now hashes.now room hashroom }
{
    step_refusal(t, step, solvervars, lits, hashes)?;
    if (room < literals_of(step, lits).len()) | (hashroom < hashes_of(step, hashes).len()) {
        return Err(Refusal::Short);
    }
    Ok(())
}

// How many literals and how many hashes were filled, and the step, which is as given but for these.
#[derive(Clone, Copy)]
pub struct Renamed {
    pub lits: usize,
    pub hashes: usize,
    pub step: ProofStep,
}

// Rename (document 01, "Rename and write"; 1, 14, 3, 8, 2): `MapStep::map`.
// Definition: scope/specs/Write.antt, `rename_of`; its answer: specs/Answers.antt, `renamed`.
pub fn rename_step(
    c: Counts,
    gu: &[u32],
    ug: &[u32],
    sg: &[u32],
    gs: &[u32],
    assignment: &[u32],
    records: &[u32],
    step: ProofStep,
    solvervars: bool,
    lits: &[u32],
    hashes: &[u64],
    out: &mut [u32],
    hashout: &mut [u64],
) -> Result<Renamed, Refusal>
    ensures meets { Meets (λ t room. rename_of t step solvervars lits.now hashes.now (length out.old) (length hashout.old)) (renamed result c)
        (reads c gu.now ug.now sg.now gs.now assignment.now records.now) }
    ensures out { Fills (change out.old out.new) 0
        (rename_of (given c gu.now ug.now sg.now gs.now assignment.now records.now) step solvervars lits.now hashes.now (length out.old) (length hashout.old)).words }
    ensures hashout { Fills (change hashout.old hashout.new) 0
        (rename_of (given c gu.now ug.now sg.now gs.now assignment.now records.now) step solvervars lits.now hashes.now (length out.old) (length hashout.old)).more }
{
    let t = Lists {
        counts: c,
        gu,
        ug,
        sg,
        gs,
        assignment,
        records,
    };
    t.check_sound()?;
    known_rename_step(
        c, gu, ug, sg, gs, assignment, records, step, solvervars, lits, hashes, out, hashout,
    )
}

// Rename on a table known to be sound, which is not tested.
// The same definition and answer.
pub fn known_rename_step(
    c: Counts,
    gu: &[u32],
    ug: &[u32],
    sg: &[u32],
    gs: &[u32],
    assignment: &[u32],
    records: &[u32],
    step: ProofStep,
    solvervars: bool,
    lits: &[u32],
    hashes: &[u64],
    out: &mut [u32],
    hashout: &mut [u64],
) -> Result<Renamed, Refusal>
    requires { soundb (given c gu.now ug.now sg.now gs.now assignment.now records.now) ≡ true }
    ensures meets { Meets (λ t room. rename_of t step solvervars lits.now hashes.now (length out.old) (length hashout.old)) (renamed result c)
        (reads c gu.now ug.now sg.now gs.now assignment.now records.now) }
    ensures out { Fills (change out.old out.new) 0
        (rename_of (given c gu.now ug.now sg.now gs.now assignment.now records.now) step solvervars lits.now hashes.now (length out.old) (length hashout.old)).words }
    ensures hashout { Fills (change hashout.old hashout.new) 0
        (rename_of (given c gu.now ug.now sg.now gs.now assignment.now records.now) step solvervars lits.now hashes.now (length out.old) (length hashout.old)).more }
{
    let t = Lists {
        counts: c,
        gu,
        ug,
        sg,
        gs,
        assignment,
        records,
    };
    rename_refusal(&t, step, solvervars, lits, hashes, out.len(), hashout.len())?;
    let carried = literals_of(step, lits);
    let hashed = hashes_of(step, hashes);
    rename_lits(gs, solvervars, carried, out);
    copy_hashes(hashed, hashout);
    Ok(Renamed {
        lits: carried.len(),
        hashes: hashed.len(),
        step,
    })
}

// Some literal's index has no holder, or a word that no sound table has.
fn any_unnamed(gs: &[u32], lits: &[u32]) -> bool
    ensures { result ≡ list_any (lacks gs.now) lits.now }
{
    lits.iter().any(|lit| {
        let w = word_at(gs, *lit / 2);
        (w == 0) | (4096 < w)
    })
}

// Rename of the solver literals of a step without hashes (3, 8, 2), lent the map alone: what Rename does on every sound table that has it.
// The same definition; its answer: specs/Answers.antt, `in_full`.
pub fn rename_in(gs: &[u32], lits: &[u32], out: &mut [u32]) -> Result<usize, Refusal>
    ensures { (t : Table) (step : ProofStep) (k : ℕ) → soundb t ≡ true → t.global_from_solver ≡ gs.now
        → (rule_of step).renamed ≡ true → unmatched step lits.now [] ≡ false
        → let o = rename_of t step true lits.now [] (length out.old) k in
        Does o (renamed (in_full result step) t.counts) t [] [] × (Fills (change out.old out.new) 0 o.words × (o.more ≡ [])) }
{
    if 8192 < lits.len() {
        return Err(Refusal::OutOfRange);
    }
    if any_unnamed(gs, lits) {
        return Err(Refusal::NotHeld);
    }
    if out.len() < lits.len() {
        return Err(Refusal::Short);
    }
    rename_lits(gs, true, lits, out);
    Ok(lits.len())
}
