// Read (added): a proof's steps from its bytes, all or the first alone.
#![tactic(auto)]

ghost use Rattle.std.specs.Prelude.{◌≡◌, true, ◌≤◌, length};
ghost use Rattle.base.specs.Lent.{Fills, change};
ghost use Rattle.drat.specs.Filled.{read_of, read, first_token, first_of, first};
ghost use Rattle.drat_judge.specs.Local.{judged};
ghost use Rattle.drat_read.specs.Known.{Found, room_for};

use drat::{Format, ReadError, Size};
use drat_judge::{counts_of, is_judged};
use drat_scan::place::past;
use drat_scan::scan::{scan, step_end};
use fill::fill;

mod fill;
pub mod literal;

// Whether the bytes are judged whole. For fewer than 64 bytes judging costs more than it saves.
fn is_known(f: Format, bytes: &[u8]) -> bool
    ensures { result ≡ true → judged f bytes.now ≡ true }
{
    if bytes.len() < 64 {
        return false;
    }
    is_judged(f, bytes)
}

// Whether each slice has a word for each of n bytes.
fn is_ample(n: usize, a: usize, b: usize, c: usize) -> bool
    ensures { result ≡ true → (n ≤ a) × (n ≤ b) × (n ≤ c) }
{
    n <= a && n <= b && n <= c
}

// Whether slices of a, b and c words hold so many literals and steps.
fn room_for(size: Size, a: usize, b: usize, c: usize) -> Result<(), ReadError>
    ensures { result ≡ room_for size a b c }
{
    if a < size.lits || b < size.steps || c < size.steps {
        return Err(ReadError::Room);
    }
    Ok(())
}

// What is judged whole is counted only where it might not fit. All else is scanned step by step.
// A `match`, since no proof was found of `map_err(ReadError::NotWhole)?`.
fn find(f: Format, bytes: &[u8], a: usize, b: usize, c: usize) -> Result<(), ReadError>
    ensures { Found f bytes.now a b c result }
{
    if is_known(f, bytes) {
        if is_ample(bytes.len(), a, b, c) {
            return Ok(());
        }
        return room_for(counts_of(f, bytes), a, b, c);
    }
    match scan(f, bytes) {
        Ok(size) => room_for(size, a, b, c),
        Err(place) => Err(ReadError::NotWhole(place)),
    }
}

// Read: 13, with the place of the first token of the first broken step; then 2.
// drat/specs/Filled.antt: read_of, and read for the answer.
pub fn read_proof(
    f: Format,
    bytes: &[u8],
    codes: &mut [u32],
    ends: &mut [u64],
    kinds: &mut [u8],
) -> Result<Size, ReadError>
    ensures value { let w = read_of f bytes.now (length codes.old) (length ends.old) (length kinds.old) in
        read result ≡ w.answer }
    ensures codes { let w = read_of f bytes.now (length codes.old) (length ends.old) (length kinds.old) in
        Fills (change codes.old codes.new) 0 w.codes }
    ensures ends { let w = read_of f bytes.now (length codes.old) (length ends.old) (length kinds.old) in
        Fills (change ends.old ends.new) 0 w.ends }
    ensures kinds { let w = read_of f bytes.now (length codes.old) (length ends.old) (length kinds.old) in
        Fills (change kinds.old kinds.new) 0 w.kinds }
{
    find(f, bytes, codes.len(), ends.len(), kinds.len())?;
    Ok(fill(f, bytes, codes, ends, kinds))
}

// The place of the first token; 0 without any.
// drat/specs/Filled.antt: first_token.
pub fn first_token(f: Format, bytes: &[u8]) -> usize
    ensures { result ≡ first_token f bytes.now }
{
    let i = past(f, bytes, 0);
    if i < bytes.len() { i } else { 0 }
}

// The first step alone: its part of the bytes, from its first token to its 0; an empty part says 13 at the first token's place.
// drat/specs/Filled.antt: first_of, and first for the part.
pub fn first_step(f: Format, bytes: &[u8]) -> &[u8]
    ensures { first (first_token f bytes.now) result.now ≡ first_of f bytes.now }
{
    let i = first_token(f, bytes);
    let e = step_end(f, bytes, i);
    &bytes[i..e]
}
