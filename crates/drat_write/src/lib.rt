// The DRAT writer: the length of a step before it is written, and the step written at a place.
// Every byte is that of the plain definition, `encode_step` of drat's specs/Grammar.antt.
// `out` and `at` are parameters, not a struct: `Fills (change out.old out.new) at ..` would then name two fields on either side.
#![tactic(auto)]

ghost use Rattle.std.specs.Prelude.{◌≡◌, [], ◌∷◌, ◌++◌, ◌+◌, ◌/◌, ◌%◌, ◌≤◌, ◌<◌, leb, ltb, length, get_or};
ghost use Rattle.base.specs.Lent.{Fills, change};
ghost use Rattle.base.specs.Choice.{pick};
ghost use Rattle.base.specs.Bounded.{all_below};
ghost use Rattle.drat.specs.declared.Format.TheVariants.{Text, Binary};
ghost use Rattle.drat.specs.Numeral.{bytes_of, leb128};
ghost use Rattle.drat.specs.Grammar.{blanked, number, numbers, opens, ends, step_of, encode_step, Codes};
ghost use Rattle.drat.specs.Writing.{no_clause, write_clause_of, wrote};
ghost use Rattle.drat.specs.Listed.{write_all_of};
ghost use Rattle.drat.proofs.Shapes.{Short, last_digits};

use drat::{Format, Kind, WriteError};
use proof::{no_proof, proof_fits, put_proof};

pub mod proof;

fn one(b: bool) -> u32
    ensures value { result ≡ pick b 1 0 }
    ensures upper_bound { result ≤ 1 }
{
    if b { 1 } else { 0 }
}

// How many bytes a literal takes: in text 18, 198 and 1998 are the codes of 10, 100 and 1000.
fn number_len(f: Format, c: u32) -> u32
    requires { c < 8192 }
    ensures value { result ≡ length (number f c) }
    ensures upper_bound { result ≤ 6 }
{
    match f {
        Format::Text => 2 + c % 2 + one(18 <= c) + one(198 <= c) + one(1998 <= c),
        Format::Binary => 1 + one(126 <= c),
    }
}

fn open_len(f: Format, k: Kind) -> usize
    ensures { result ≡ length (opens f k) }
{
    match (f, k) {
        (Format::Text, Kind::Add) => 0,
        (Format::Text, Kind::Delete) => 2,
        (Format::Binary, _) => 1,
    }
}

fn end_len(f: Format) -> usize
    ensures { result ≡ length (ends f) }
{
    match f {
        Format::Text => 2,
        Format::Binary => 1,
    }
}

// How many bytes at most 8,192 literals take. Apart from `numbers_len`, whose sum may need more than 32 bits: one over usize takes twice as long.
fn lits_len(f: Format, lits: &[u32]) -> u32
    requires codes { Codes lits.now }
    requires lits_len_bound { length lits.now ≤ 8192 }
    ensures value { result ≡ length (numbers f lits.now) }
    ensures upper_bound { result ≤ 49152 }
{
    let mut k: u32 = 0;
    for lit in lits {
        k += number_len(f, *lit);
    }
    k
}

// How many bytes a step takes.
pub fn step_len(f: Format, k: Kind, lits: &[u32]) -> usize
    requires codes { Codes lits.now }
    requires lits_len_bound { length lits.now ≤ 8192 }
    ensures value { result ≡ length (encode_step f (step_of k lits.now)) }
    ensures upper_bound { result ≤ 49156 }
{
    open_len(f, k) + lits_len(f, lits) as usize + end_len(f)
}

// Whether a step fits in `room` bytes. A literal takes at most six: where there is as much room, none is counted.
pub fn step_fits(f: Format, k: Kind, lits: &[u32], room: usize) -> bool
    requires codes { Codes lits.now }
    requires lits_len_bound { length lits.now ≤ 8192 }
    ensures { result ≡ leb (length (encode_step f (step_of k lits.now))) room }
{
    6 * lits.len() + 4 <= room || step_len(f, k, lits) <= room
}

// Copies bytes to the place `at`, and gives the place after them.
pub fn put_bytes(bytes: &[u8], out: &mut [u8], at: usize) -> usize
    requires { at + length bytes.now ≤ length out.old }
    ensures value { result ≡ at + length bytes.now }
    ensures fills { Fills (change out.old out.new) at bytes.now }
{
    let end = at + bytes.len();
    out[at..end].copy_from_slice(bytes);
    end
}

// Writes the last N digits of a number and a blank, and gives the place after them.
fn put_digits<const N: usize>(n: u32, out: &mut [u8], at: usize) -> usize
    requires { at + (N + 1) ≤ length out.old }
    ensures value { result ≡ at + (N + 1) }
    ensures fills { Fills (change out.old out.new) at (last_digits N n ++ 32 ∷ []) }
{
    out[at + N] = b' ';
    let mut rest = n;
    for i in 0..N {
        out[at + (N - 1 - i)] = (48 + rest % 10) as u8;
        rest = rest / 10;
    }
    at + (N + 1)
}

// Writes a number and a blank, and gives the place after them.
fn put_decimal(n: u32, out: &mut [u8], at: usize) -> usize
    requires n_nonzero { (0 < n) × (n < 10000) }
    requires n_in_bounds { at + length (blanked n) ≤ length out.old }
    ensures value { result ≡ at + length (blanked n) }
    ensures fills { Fills (change out.old out.new) at (blanked n) }
{
    if n < 10 {
        return put_digits::<1>(n, out, at);
    }
    if n < 100 {
        return put_digits::<2>(n, out, at);
    }
    if n < 1000 {
        return put_digits::<3>(n, out, at);
    }
    put_digits::<4>(n, out, at)
}

// Writes a code + 2 in LEB128: one byte or two.
pub fn put_code(n: u32, out: &mut [u8], at: usize) -> usize
    requires n_nonzero { (0 < n) × (n < 16384) }
    requires n_in_bounds { at + length (bytes_of leb128 n) ≤ length out.old }
    ensures value { result ≡ at + length (bytes_of leb128 n) }
    ensures fills { Fills (change out.old out.new) at (bytes_of leb128 n) }
{
    if n < 128 {
        out[at] = n as u8;
        return at + 1;
    }
    out[at] = (128 + n % 128) as u8;
    out[at + 1] = (n / 128) as u8;
    at + 2
}

// Writes a literal in text: the first digit goes over the minus of a positive one, so that no branch hangs on the sign.
fn put_text(c: u32, out: &mut [u8], at: usize) -> usize
    requires c_bound { c < 8192 }
    requires c_in_bounds { at + length (number Text c) ≤ length out.old }
    ensures value { result ≡ at + length (number Text c) }
    ensures fills { Fills (change out.old out.new) at (number Text c) }
{
    out[at] = 45;
    put_decimal(c / 2 + 1, out, at + (c % 2) as usize)
}

// Writes a literal.
fn put_number(f: Format, c: u32, out: &mut [u8], at: usize) -> usize
    requires c_bound { c < 8192 }
    requires c_in_bounds { at + length (number f c) ≤ length out.old }
    ensures value { result ≡ at + length (number f c) }
    ensures fills { Fills (change out.old out.new) at (number f c) }
{
    match f {
        Format::Text => put_text(c, out, at),
        Format::Binary => put_code(c + 2, out, at),
    }
}

fn put_open(f: Format, k: Kind, out: &mut [u8], at: usize) -> usize
    requires { at + length (opens f k) ≤ length out.old }
    ensures value { result ≡ at + length (opens f k) }
    ensures fills { Fills (change out.old out.new) at (opens f k) }
{
    match (f, k) {
        (Format::Text, Kind::Add) => at,
        (Format::Text, Kind::Delete) => put_bytes(b"d ", out, at),
        (Format::Binary, Kind::Add) => put_bytes(b"a", out, at),
        (Format::Binary, Kind::Delete) => put_bytes(b"d", out, at),
    }
}

fn put_end(f: Format, out: &mut [u8], at: usize) -> usize
    requires { at + length (ends f) ≤ length out.old }
    ensures value { result ≡ at + length (ends f) }
    ensures fills { Fills (change out.old out.new) at (ends f) }
{
    match f {
        Format::Text => put_bytes(b"0\n", out, at),
        Format::Binary => put_bytes(b"\0", out, at),
    }
}

#[tactic(auto, using(drat::proofs::WritingLaws::test_more), unfolding(base::specs::Bounded::all_below))]
pub fn all_below(words: &[u32], bound: u32) -> bool
    ensures { result ≡ all_below (length words.now) (λ i. ltb (get_or words.now i 0) bound) }
{
    let mut ok = true;
    for word in words {
        ok = ok & (*word < bound);
    }
    ok
}

// Writes literals of one byte each.
fn put_short(lits: &[u32], out: &mut [u8], at: usize) -> usize
    requires short { Short lits.now }
    requires lits_in_bounds { at + length lits.now ≤ length out.old }
    ensures value { result ≡ at + length lits.now }
    ensures fills { Fills (change out.old out.new) at (numbers Binary lits.now) }
{
    for (i, lit) in lits.iter().enumerate() {
        out[at + i] = (*lit + 2) as u8;
    }
    at + lits.len()
}

// Writes literals one by one.
fn put_each(f: Format, lits: &[u32], out: &mut [u8], at: usize) -> usize
    requires codes { Codes lits.now }
    requires lits_in_bounds { at + length (numbers f lits.now) ≤ length out.old }
    ensures value { result ≡ at + length (numbers f lits.now) }
    ensures fills { Fills (change out.old out.new) at (numbers f lits.now) }
{
    let mut p = at;
    for lit in lits {
        p = put_number(f, *lit, out, p);
    }
    p
}

// Writes literals. In binary a code below 126 takes one byte: where all are, they are copied without a test of each.
fn put_lits(f: Format, lits: &[u32], out: &mut [u8], at: usize) -> usize
    requires codes { Codes lits.now }
    requires lits_in_bounds { at + length (numbers f lits.now) ≤ length out.old }
    ensures value { result ≡ at + length (numbers f lits.now) }
    ensures fills { Fills (change out.old out.new) at (numbers f lits.now) }
{
    match f {
        Format::Text => put_each(Format::Text, lits, out, at),
        Format::Binary => {
            if all_below(lits, 126) {
                return put_short(lits, out, at);
            }
            put_each(Format::Binary, lits, out, at)
        }
    }
}

fn put_any(f: Format, k: Kind, lits: &[u32], out: &mut [u8], at: usize) -> usize
    requires codes { Codes lits.now }
    requires lits_in_bounds { at + length (encode_step f (step_of k lits.now)) ≤ length out.old }
    ensures value { result ≡ at + length (encode_step f (step_of k lits.now)) }
    ensures fills { Fills (change out.old out.new) at (encode_step f (step_of k lits.now)) }
{
    let p = put_open(f, k, out, at);
    let q = put_lits(f, lits, out, p);
    put_end(f, out, q)
}

// With no pass over the literals before they are written. Apart from `put_any`, since one function for both takes 1.1 to 1.3 times as long in binary
// at 3 to 10 literals.
#[inline(always)]
fn put_few(f: Format, k: Kind, lits: &[u32], out: &mut [u8], at: usize) -> usize
    requires codes { Codes lits.now }
    requires lits_in_bounds { at + length (encode_step f (step_of k lits.now)) ≤ length out.old }
    ensures value { result ≡ at + length (encode_step f (step_of k lits.now)) }
    ensures fills { Fills (change out.old out.new) at (encode_step f (step_of k lits.now)) }
{
    let p = put_open(f, k, out, at);
    let q = put_each(f, lits, out, p);
    put_end(f, out, q)
}

// Writes a step from the place `at` on, and gives the place after it. Short binary ones and single literals in text are inlined in the loops
// that call this: one add per unit takes half the time so.
#[inline(always)]
pub fn put_step(f: Format, k: Kind, lits: &[u32], out: &mut [u8], at: usize) -> usize
    requires codes { Codes lits.now }
    requires lits_in_bounds { at + length (encode_step f (step_of k lits.now)) ≤ length out.old }
    ensures value { result ≡ at + length (encode_step f (step_of k lits.now)) }
    ensures fills { Fills (change out.old out.new) at (encode_step f (step_of k lits.now)) }
{
    match f {
        Format::Binary if lits.len() < 16 => put_few(Format::Binary, k, lits, out, at),
        Format::Text if lits.len() == 1 => put_few(Format::Text, k, lits, out, at),
        _ => put_any(f, k, lits, out, at),
    }
}

fn no_clause(buf: &[u32], a: usize, b: usize) -> bool
    ensures { result ≡ no_clause buf.now a b }
{
    b < a || buf.len() < b || 8192 < b - a || !all_below(&buf[a..b], 8192)
}

// Writes the clause that stands from a to b in a buffer of literal codes, as one step, from the place `at` of the output on: 3, 2.
// `write_clause_of` and `wrote` of drat's specs/Writing.antt.
pub fn write_clause(
    f: Format,
    k: Kind,
    buf: &[u32],
    a: usize,
    b: usize,
    out: &mut [u8],
    at: usize,
) -> Result<usize, WriteError>
    ensures result_value { wrote result ≡ (write_clause_of f k buf.now a b (length out.old) at).answer }
    ensures fills { Fills (change out.old out.new) at (write_clause_of f k buf.now a b (length out.old) at).bytes }
{
    if no_clause(buf, a, b) {
        return Err(WriteError::Outside);
    }
    let lits = &buf[a..b];
    if out.len() < at || !step_fits(f, k, lits, out.len() - at) {
        return Err(WriteError::Room);
    }
    Ok(put_step(f, k, lits, out, at))
}

// Writes a whole proof from the three lists that the reader fills, from the start of the output on: 3, 2.
// `write_all_of` of drat's specs/Listed.antt, and `wrote` for the answer.
pub fn write_proof(
    f: Format,
    codes: &[u32],
    ends: &[u64],
    kinds: &[u8],
    out: &mut [u8],
) -> Result<usize, WriteError>
    ensures result_value { wrote result ≡ (write_all_of f codes.now ends.now kinds.now (length out.old)).answer }
    ensures fills { Fills (change out.old out.new) 0 (write_all_of f codes.now ends.now kinds.now (length out.old)).bytes }
{
    if no_proof(codes, ends, kinds) {
        return Err(WriteError::Outside);
    }
    if !proof_fits(f, codes, ends, kinds, out.len()) {
        return Err(WriteError::Room);
    }
    Ok(put_proof(f, codes, ends, kinds, out))
}
