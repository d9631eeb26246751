// Rename and Write on a table known to be sound, and Rename in the list that it reads.
ghost use Rattle.std.specs.Prelude.{ℕ, ◌≡◌, true, false, [], ◌∷◌, length};
ghost use Rattle.base.specs.Lent.{Fills, change};
ghost use Rattle.scope.specs.declared.ProofStep.{ProofStep};
ghost use Rattle.scope.specs.Table.{Table};
ghost use Rattle.scope.specs.Contract.{given, reads};
ghost use Rattle.scope.specs.Sound.{soundb};
ghost use Rattle.scope.specs.Steps.{rule_of};
ghost use Rattle.scope.specs.Write.{unmatched, rename_of};
ghost use Rattle.steps.specs.Answers.{renamed, in_full, lits_only};
ghost use Rattle.numbers.specs.Surface.{plain, stepped, Given, Gives};
ghost use Rattle.numbers.specs.Flat.{Numbered};
ghost use Rattle.numbers.specs.Lines.{step_given, words_at, rename_at, write_at};

use line_answers::renamed::{HzRenamed, renamed_out};
use line_answers::written::{HzWritten, recorded_out};
use numbers::{HzStep, format_in, step_in};
use scope::{Counts, Refusal};

// Rename (14, 3, 8, 2): `rename_of`.
#[unsafe(no_mangle)]
pub extern "C" fn hz_known_rename(
    c: Counts,
    gu: &[u32],
    ug: &[u32],
    sg: &[u32],
    gs: &[u32],
    assignment: &[u32],
    records: &[u32],
    step: HzStep,
    solvervars: bool,
    lits: &[u32],
    hashes: &[u64],
    out: &mut [u32],
    hashout: &mut [u64],
) -> HzRenamed
    requires { soundb (given c gu.now ug.now sg.now gs.now assignment.now records.now) ≡ true }
    ensures gives_1 { Gives (λ t room. rename_at step t solvervars lits.now hashes.now (length out.old) (length hashout.old))
        (stepped (words_at (step_given step))) (result.refusal ∷ result.lits ∷ result.hashes ∷ words_at (step_given result.step)) c
        (reads c gu.now ug.now sg.now gs.now assignment.now records.now) }
    ensures gives_2 { result.step ≡ step }
    ensures out { Fills (change out.old out.new) 0
        (rename_at step (given c gu.now ug.now sg.now gs.now assignment.now records.now) solvervars lits.now hashes.now (length out.old) (length hashout.old)).words }
    ensures hashout { Fills (change hashout.old hashout.new) 0
        (rename_at step (given c gu.now ug.now sg.now gs.now assignment.now records.now) solvervars lits.now hashes.now (length out.old) (length hashout.old)).more }
{
    let Some(s) = step_in(step) else {
        return HzRenamed {
            refusal: 0xffffffff,
            step: step,
            lits: 0,
            hashes: 0,
        };
    };
    let r = steps::rename::known_rename_step(
        c, gu, ug, sg, gs, assignment, records, s, solvervars, lits, hashes, out, hashout,
    );
    renamed_out(r, step)
}

// Write (14, 3, 8, 11, 2): `write_of`.
#[unsafe(no_mangle)]
pub extern "C" fn hz_known_write(
    c: Counts,
    gu: &[u32],
    ug: &[u32],
    sg: &[u32],
    gs: &[u32],
    assignment: &[u32],
    records: &[u32],
    format: u32,
    step: HzStep,
    solvervars: bool,
    lits: &[u32],
    hashes: &[u64],
    out: &mut [u8],
) -> HzWritten
    requires { soundb (given c gu.now ug.now sg.now gs.now assignment.now records.now) ≡ true }
    ensures gives { Gives (λ t room. write_at format step t solvervars lits.now hashes.now (length out.old))
        (plain 1) (result.refusal ∷ result.bytes ∷ []) c (reads c gu.now ug.now sg.now gs.now assignment.now records.now) }
    ensures out { Fills (change out.old out.new) 0
        (write_at format step (given c gu.now ug.now sg.now gs.now assignment.now records.now) solvervars lits.now hashes.now (length out.old)).bytes }
{
    let Some(f) = format_in(format) else {
        return HzWritten {
            refusal: 0xffffffff,
            bytes: 0,
        };
    };
    let Some(s) = step_in(step) else {
        return HzWritten {
            refusal: 0xffffffff,
            bytes: 0,
        };
    };
    let r = steps::write::known_write_step(
        c, gu, ug, sg, gs, assignment, records, f, s, solvervars, lits, hashes, out,
    );
    recorded_out(r)
}

// How many literals were filled.
#[repr(C)]
#[derive(Clone, Copy)]
pub struct HzRenamedIn {
    pub refusal: u32,
    pub lits: usize,
}

fn lits_out(r: Result<usize, Refusal>) -> HzRenamedIn
    ensures { (step : ProofStep) (c : Counts) → Numbered (renamed (in_full r step) c) lits_only (result.refusal ∷ result.lits ∷ []) c }
{
    match r {
        Ok(k) => HzRenamedIn {
            refusal: 0,
            lits: k,
        },
        Err(e) => HzRenamedIn {
            refusal: u32::from(e),
            lits: 0,
        },
    }
}

// Rename of the solver literals of a step without hashes (3, 8, 2): `rename_of`. Any words may be lent: it is the call's on every sound table that
// has this list, for every step that carries literals and no hashes.
#[unsafe(no_mangle)]
pub extern "C" fn hz_rename_in(gs: &[u32], lits: &[u32], out: &mut [u32]) -> HzRenamedIn
    ensures { (t : Table) (step : ProofStep) (k : ℕ) → soundb t ≡ true → t.global_from_solver ≡ gs.now
        → (rule_of step).renamed ≡ true → unmatched step lits.now [] ≡ false
        → let o = rename_of t step true lits.now [] (length out.old) k in
        Given o lits_only (result.refusal ∷ result.lits ∷ []) t [] [] × (Fills (change out.old out.new) 0 o.words × (o.more ≡ [])) }
{
    let r = steps::rename::rename_in(gs, lits, out);
    lits_out(r)
}
