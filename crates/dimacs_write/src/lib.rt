// The DIMACS CNF writer: from two lists, all literal codes in a row and where each clause ends in that row.
// Every byte is that of the plain definition, `written` of dimacs's specs/Cnf.antt.
#![tactic(auto)]

ghost use Rattle.std.specs.Prelude.{◌≡◌, ℕ, ◌+◌, ◌≤◌, leb, length};
ghost use Rattle.base.specs.Lent.{Fills, change};
ghost use Rattle.drat.specs.Numeral.{decimal, bytes_of};
ghost use Rattle.drat.specs.Grammar.{Codes};
ghost use Rattle.drat.specs.Writing.{wrote};
ghost use Rattle.dimacs.specs.Cnf.{largest, header_start, header_line, clause_lines, written};
ghost use Rattle.dimacs.specs.Calls.{clauses_by, unwritable, write_cnf_of};
ghost use Rattle.dimacs.proofs.Written.{Writable};

use drat::{Format, Kind, WriteError};
use drat_write::proof::{ends_rise, numbers_len};
use drat_write::{all_below, put_bytes, put_step};

// Whether a code is too large or the ends do not lead through all codes.
fn no_cnf(codes: &[u32], ends: &[u64]) -> bool
    ensures { result ≡ unwritable codes.now ends.now }
{
    !all_below(codes, 8192) || !ends_rise(ends, codes.len())
}

// The largest magnitude: half of (the largest code + 2), 0 of no code.
fn largest_of(codes: &[u32]) -> u32
    requires { Codes codes.now }
    ensures { result ≡ largest codes.now }
{
    let mut m: u32 = 0;
    for code in codes {
        m = m.max(*code + 2);
    }
    m / 2
}

// How many digits a number has, 0 one. Each turn goes by what is left of it: no method of the library says it of its decimal bytes.
fn digits(n: u64) -> usize
    ensures value { result ≡ length (bytes_of decimal n) }
    ensures upper_bound { result ≤ 20 }
{
    let mut k: usize = 1;
    let mut m = n;
    while 10 <= m {
        m = m / 10;
        k += 1;
    }
    k
}

// Writes a number, its last digit first, and gives the place after it.
fn put_count(n: u64, out: &mut [u8], at: usize) -> usize
    requires { at + length (bytes_of decimal n) ≤ length out.old }
    ensures value { result ≡ at + length (bytes_of decimal n) }
    ensures fills { Fills (change out.old out.new) at (bytes_of decimal n) }
{
    let end = at + digits(n);
    let mut p = end;
    let mut m = n;
    while 10 <= m {
        p -= 1;
        out[p] = (48 + m % 10) as u8;
        m = m / 10;
    }
    out[at] = (48 + m) as u8;
    end
}

// Writes the header's line from the start on, and gives the place after it.
fn put_header(v: u32, k: usize, out: &mut [u8]) -> usize
    requires { length (header_line v k) ≤ length out.old }
    ensures value { result ≡ length (header_line v k) }
    ensures fills { Fills (change out.old out.new) 0 (header_line v k) }
{
    let start = put_bytes(b"p cnf ", out, 0);
    let p = put_count(v as u64, out, start);
    out[p] = b' ';
    let q = put_count(k as u64, out, p + 1);
    out[q] = b'\n';
    q + 1
}

// Writes the clauses' lines from the place `start` on, and gives the place after them.
fn put_lines(codes: &[u32], ends: &[u64], out: &mut [u8], start: usize) -> usize
    requires writable { Writable codes.now ends.now }
    requires ends_in_bounds { start + length (clause_lines (clauses_by codes.now 0 ends.now)) ≤ length out.old }
    ensures value { result ≡ start + length (clause_lines (clauses_by codes.now 0 ends.now)) }
    ensures fills { Fills (change out.old out.new) start (clause_lines (clauses_by codes.now 0 ends.now)) }
{
    let mut a: usize = 0;
    let mut at = start;
    for end in ends {
        let b = *end as usize;
        at = put_step(Format::Text, Kind::Add, &codes[a..b], out, at);
        a = b;
    }
    at
}

// Whether the file fits in `room` bytes. A literal takes at most six, a clause two more and the header
// less than 48: where there is as much room, none is counted.
fn cnf_fits(v: u32, codes: &[u32], ends: &[u64], room: usize) -> bool
    requires writable { Writable codes.now ends.now }
    requires v_bound { v ≤ 4096 }
    ensures { result ≡ leb (length (written v (clauses_by codes.now 0 ends.now))) room }
{
    6 * codes.len() + 2 * ends.len() + 48 <= room
        || numbers_len(Format::Text, codes)
            + 2 * ends.len()
            + digits(v as u64)
            + digits(ends.len() as u64)
            + 8
            <= room
}

// Writes the clauses from the start of the output on: 3, 2.
// `write_cnf_of` of dimacs's specs/Calls.antt, and `wrote` for the answer.
pub fn write_cnf(codes: &[u32], ends: &[u64], out: &mut [u8]) -> Result<usize, WriteError>
    ensures result_value { wrote result ≡ (write_cnf_of codes.now ends.now (length out.old)).answer }
    ensures fills { Fills (change out.old out.new) 0 (write_cnf_of codes.now ends.now (length out.old)).bytes }
{
    if no_cnf(codes, ends) {
        return Err(WriteError::Outside);
    }
    let v = largest_of(codes);
    if !cnf_fits(v, codes, ends, out.len()) {
        return Err(WriteError::Room);
    }
    let p = put_header(v, ends.len(), out);
    Ok(put_lines(codes, ends, out, p))
}
