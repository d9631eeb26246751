// Rename and Write.
ghost use Rattle.std.specs.Prelude.{◌≡◌, [], ◌∷◌, length};
ghost use Rattle.base.specs.Lent.{Fills, change};
ghost use Rattle.scope.specs.Contract.{reads, given};
ghost use Rattle.numbers.specs.Surface.{plain, stepped, Gives};
ghost use Rattle.numbers.specs.Lines.{step_given, words_at, rename_at, write_at};

use line_answers::renamed::{HzRenamed, renamed_out};
use line_answers::written::{HzWritten, recorded_out};
use numbers::{HzStep, format_in, step_in};
use scope::Counts;

// Rename (1, 14, 3, 8, 2): `rename_of`.
pub fn hz_rename(
    c: Counts,
    gu: &[u32],
    ug: &[u32],
    sg: &[u32],
    gs: &[u32],
    assignment: &[u32],
    records: &[u32],
    step: HzStep,
    solvervars: bool,
    lits: &[u32],
    hashes: &[u64],
    out: &mut [u32],
    hashout: &mut [u64],
) -> HzRenamed
    ensures gives_1 { Gives (λ t room. rename_at step t solvervars lits.now hashes.now (length out.old) (length hashout.old))
        (stepped (words_at (step_given step))) (result.refusal ∷ result.lits ∷ result.hashes ∷ words_at (step_given result.step)) c
        (reads c gu.now ug.now sg.now gs.now assignment.now records.now) }
    ensures gives_2 { result.step ≡ step }
    ensures out { Fills (change out.old out.new) 0
        (rename_at step (given c gu.now ug.now sg.now gs.now assignment.now records.now) solvervars lits.now hashes.now (length out.old) (length hashout.old)).words }
    ensures hashout { Fills (change hashout.old hashout.new) 0
        (rename_at step (given c gu.now ug.now sg.now gs.now assignment.now records.now) solvervars lits.now hashes.now (length out.old) (length hashout.old)).more }
{
    let Some(s) = step_in(step) else {
        return HzRenamed {
            refusal: 0xffffffff,
            step: step,
            lits: 0,
            hashes: 0,
        };
    };
    let r = steps::rename::rename_step(
        c, gu, ug, sg, gs, assignment, records, s, solvervars, lits, hashes, out, hashout,
    );
    renamed_out(r, step)
}

// Write (1, 14, 3, 8, 11, 2): `write_of`.
pub fn hz_write(
    c: Counts,
    gu: &[u32],
    ug: &[u32],
    sg: &[u32],
    gs: &[u32],
    assignment: &[u32],
    records: &[u32],
    format: u32,
    step: HzStep,
    solvervars: bool,
    lits: &[u32],
    hashes: &[u64],
    out: &mut [u8],
) -> HzWritten
    ensures gives { Gives (λ t room. write_at format step t solvervars lits.now hashes.now (length out.old))
        (plain 1) (result.refusal ∷ result.bytes ∷ []) c (reads c gu.now ug.now sg.now gs.now assignment.now records.now) }
    ensures out { Fills (change out.old out.new) 0
        (write_at format step (given c gu.now ug.now sg.now gs.now assignment.now records.now) solvervars lits.now hashes.now (length out.old)).bytes }
{
    let Some(f) = format_in(format) else {
        return HzWritten {
            refusal: 0xffffffff,
            bytes: 0,
        };
    };
    let Some(s) = step_in(step) else {
        return HzWritten {
            refusal: 0xffffffff,
            bytes: 0,
        };
    };
    let r = steps::write::write_step(
        c, gu, ug, sg, gs, assignment, records, f, s, solvervars, lits, hashes, out,
    );
    recorded_out(r)
}
