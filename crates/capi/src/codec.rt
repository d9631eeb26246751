// The writer of one clause, and the reader.
ghost use Rattle.std.specs.Prelude.{◌≡◌, [], ◌∷◌, ◌+◌, length};
ghost use Rattle.drat.specs.Writing.{part};
ghost use Rattle.base.specs.Lent.{Fills, change};
ghost use Rattle.numbers.specs.Surface.{plain, located, placed, part_of};
ghost use Rattle.capi.specs.Codec.{write_clause_at, write_proof_at, read_at, first_at, first_place_at};

use line_answers::first::{HzFirst, first_out};
use line_answers::reading::{HzReading, read_out};
use line_answers::written::HzWritten;
use line_answers::wrote::wrote_out;
use numbers::{format_in, kind_in};

// The clause buf[a..b] as one step from out[at] on (3, 2): `write_of` of the writer.
pub fn hz_write_clause(
    format: u32,
    kind: u32,
    buf: &[u32],
    a: usize,
    b: usize,
    out: &mut [u8],
    at: usize,
) -> HzWritten
    ensures value { let w = write_clause_at format kind buf.now a b (length out.old) at in
        result.refusal ∷ result.bytes ∷ [] ≡ plain 1 w.answer }
    ensures out { let w = write_clause_at format kind buf.now a b (length out.old) at in
        Fills (change out.old out.new) at w.bytes }
{
    let Some(f) = format_in(format) else {
        return HzWritten {
            refusal: 0xffffffff,
            bytes: 0,
        };
    };
    let Some(k) = kind_in(kind) else {
        return HzWritten {
            refusal: 0xffffffff,
            bytes: 0,
        };
    };
    let r = drat_write::write_clause(f, k, buf, a, b, out, at);
    wrote_out(r)
}

// A whole proof from the lists that `hz_read` fills (3, 2): `write_all_of` of the writer.
pub fn hz_write_proof(
    format: u32,
    codes: &[u32],
    ends: &[u64],
    kinds: &[u8],
    out: &mut [u8],
) -> HzWritten
    ensures value { let w = write_proof_at format codes.now ends.now kinds.now (length out.old) in
        result.refusal ∷ result.bytes ∷ [] ≡ plain 1 w.answer }
    ensures out { let w = write_proof_at format codes.now ends.now kinds.now (length out.old) in
        Fills (change out.old out.new) 0 w.bytes }
{
    let Some(f) = format_in(format) else {
        return HzWritten {
            refusal: 0xffffffff,
            bytes: 0,
        };
    };
    let r = drat_write::write_proof(f, codes, ends, kinds, out);
    wrote_out(r)
}

// Read (13, 2): `read_of`.
pub fn hz_read(
    format: u32,
    bytes: &[u8],
    codes: &mut [u32],
    ends: &mut [u64],
    kinds: &mut [u8],
) -> HzReading
    ensures step { let w = read_at format bytes.now (length codes.old) (length ends.old) (length kinds.old) in
        result.refusal ∷ result.place ∷ result.lits ∷ result.steps ∷ [] ≡ located 2 w.answer }
    ensures codes { let w = read_at format bytes.now (length codes.old) (length ends.old) (length kinds.old) in
        Fills (change codes.old codes.new) 0 w.codes }
    ensures ends { let w = read_at format bytes.now (length codes.old) (length ends.old) (length kinds.old) in
        Fills (change ends.old ends.new) 0 w.ends }
    ensures kinds { let w = read_at format bytes.now (length codes.old) (length ends.old) (length kinds.old) in
        Fills (change kinds.old kinds.new) 0 w.kinds }
{
    let Some(f) = format_in(format) else {
        return HzReading {
            refusal: 0xffffffff,
            place: 0,
            lits: 0,
            steps: 0,
        };
    };
    let r = drat_read::read_proof(f, bytes, codes, ends, kinds);
    read_out(r)
}

// The first step alone (13): `first_of`, and `first_token` for its place.
pub fn hz_first_step(format: u32, bytes: &[u8]) -> HzFirst
    ensures value { let w = first_at format bytes.now in
        result.refusal ∷ result.place ∷ result.length ∷ [] ≡ placed (first_place_at format bytes.now) w }
    ensures bytes { let w = first_at format bytes.now in
        part result.place (result.place + result.length) bytes.now ≡ part_of w }
{
    let Some(f) = format_in(format) else {
        return HzFirst {
            refusal: 0xffffffff,
            place: 0,
            length: 0,
        };
    };
    let place = drat_read::first_token(f, bytes);
    let part = drat_read::first_step(f, bytes);
    first_out(place, part)
}
