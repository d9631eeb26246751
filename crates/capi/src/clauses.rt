// Simplify, and Simplify binary.
ghost use Rattle.std.specs.Prelude.{◌≡◌, [], ◌∷◌, length};
ghost use Rattle.base.specs.Lent.{Fills, change};
ghost use Rattle.scope.specs.Contract.{reads, given};
ghost use Rattle.scope.specs.Steps.{flag};
ghost use Rattle.numbers.specs.Surface.{plain, Gives};
ghost use Rattle.numbers.specs.Lines.{simplify_at, binary_at};

use line_answers::simplified::{HzSimplified, reduced_out};
use line_answers::thinned::{HzThinned, thinned_out};
use numbers::format_in;
use scope::Counts;

// Simplify (1, 3, 8, 12, 2): `simplify_of`.
pub fn hz_simplify(
    c: Counts,
    gu: &[u32],
    ug: &[u32],
    sg: &[u32],
    gs: &[u32],
    assignment: &[u32],
    records: &[u32],
    format: u32,
    lits: &[u32],
    redundant: bool,
    out: &mut [u32],
    bytes: &mut [u8],
) -> HzSimplified
    ensures gives { Gives (λ t room. simplify_at format t lits.now redundant (length out.old) (length bytes.old))
        (plain 4) (result.refusal ∷ result.made ∷ result.lits ∷ flag result.redundant ∷ result.bytes ∷ []) c
        (reads c gu.now ug.now sg.now gs.now assignment.now records.now) }
    ensures out { Fills (change out.old out.new) 0
        (simplify_at format (given c gu.now ug.now sg.now gs.now assignment.now records.now) lits.now redundant (length out.old) (length bytes.old)).words }
    ensures bytes { Fills (change bytes.old bytes.new) 0
        (simplify_at format (given c gu.now ug.now sg.now gs.now assignment.now records.now) lits.now redundant (length out.old) (length bytes.old)).bytes }
{
    let Some(f) = format_in(format) else {
        return HzSimplified {
            refusal: 0xffffffff,
            made: 0,
            lits: 0,
            redundant: false,
            bytes: 0,
        };
    };
    let r = simplify::simplify_clause(
        c, gu, ug, sg, gs, assignment, records, f, lits, redundant, out, bytes,
    );
    reduced_out(r)
}

// Simplify binary (1, 15, 8, 2): `binary_of`.
pub fn hz_simplify_binary(
    c: Counts,
    gu: &[u32],
    ug: &[u32],
    sg: &[u32],
    gs: &[u32],
    assignment: &[u32],
    records: &[u32],
    format: u32,
    lists: &[u32],
    out: &mut [u32],
    bytes: &mut [u8],
) -> HzThinned
    ensures gives { Gives (λ t room. binary_at format t lists.now (length out.old) (length bytes.old))
        (plain 3) (result.refusal ∷ result.words ∷ result.half ∷ result.bytes ∷ []) c (reads c gu.now ug.now sg.now gs.now assignment.now records.now) }
    ensures out { Fills (change out.old out.new) 0
        (binary_at format (given c gu.now ug.now sg.now gs.now assignment.now records.now) lists.now (length out.old) (length bytes.old)).words }
    ensures bytes { Fills (change bytes.old bytes.new) 0
        (binary_at format (given c gu.now ug.now sg.now gs.now assignment.now records.now) lists.now (length out.old) (length bytes.old)).bytes }
{
    let Some(f) = format_in(format) else {
        return HzThinned {
            refusal: 0xffffffff,
            words: 0,
            half: 0,
            bytes: 0,
        };
    };
    let r = binary::simplify_binary(c, gu, ug, sg, gs, assignment, records, f, lists, out, bytes);
    thinned_out(r)
}
