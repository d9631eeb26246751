// The published vectors of LEB128 and of DRAT-trim's binary format, document 01's worked cases 6, 7 and 8, the refusals of a
// written clause, and every literal code in both formats. Each line says how many of its vectors agree, and of how many.
#![tactic(auto)]

ghost use Rattle.std.specs.Prelude.{◌≤◌, ◌<◌};

use drat::{Format, Kind, WriteError};
use score::Agreed;
use std::alloc::{AllocError, Global};
use std::io;

fn byte(s: &[u8], i: usize) -> u8 {
    s.get(i).copied().unwrap_or(0)
}

// A number in LEB128 into six bytes of 170, by the function with which the writer writes a code: whether they are then as in the image.
// A code takes at most 14 bits. The published numbers 624485 (E5 8E 26), 4294967295 (FF FF FF FF 0F) and 16387 (83 80 01, for DRAT-trim's
// -8193) take more: nothing here writes them, and they are not tried.
fn leb(n: u32, image: &[u8]) -> bool {
    if n == 0 || 16384 <= n {
        return false;
    }
    let mut out = [170u8; 6];
    drat_write::put_code(n, &mut out, 0);
    out.as_slice() == image
}

// The answer as a number: 2 and 3 for the refusals, 100 and the place if written.
fn number(w: Result<usize, WriteError>) -> usize {
    match w {
        Ok(e) => 100 + e % 100,
        Err(WriteError::Outside) => 3,
        Err(WriteError::Room) => 2,
    }
}

// The literals from a to b of a buffer as a step, from the place 2 on of twelve bytes of 170: whether the answer and the bytes are as given.
fn step(f: Format, k: Kind, buf: &[u32], a: usize, b: usize, answer: usize, image: &[u8]) -> bool {
    let mut out = [170u8; 12];
    let w = drat_write::write_clause(f, k, buf, a, b, &mut out, 2);
    out.as_slice() == image && number(w) == answer
}

// A clause of one literal in text, from a place on of five bytes.
fn fit(c: u32, at: usize, answer: usize) -> bool {
    let mut out = [170u8; 5];
    let buf = [c; 1];
    let w = drat_write::write_clause(Format::Text, Kind::Add, &buf, 0, 1, &mut out, at);
    number(w) == answer
}

fn leb128() -> [bool; 6] {
    [
        leb(2, b"\x02\xaa\xaa\xaa\xaa\xaa"),
        leb(127, b"\x7f\xaa\xaa\xaa\xaa\xaa"),
        leb(128, b"\x80\x01\xaa\xaa\xaa\xaa"),
        leb(129, b"\x81\x01\xaa\xaa\xaa\xaa"),
        leb(130, b"\x82\x01\xaa\xaa\xaa\xaa"),
        leb(12857, b"\xb9\x64\xaa\xaa\xaa\xaa"),
    ]
}

// DRAT-trim's example is `d -63 -8193 0` and `129 -8191 0`: 64 7F 83 80 01 00 and 61 82 02 FF 7F 00. Here -8193 and -8191 are
// out of range as literals: a step with the first is refused, and the number of the second is tried apart.
fn drat_trim() -> [bool; 4] {
    let buf = [125u32, 16385, 256, 16381];
    let none = b"\xaa\xaa\xaa\xaa\xaa\xaa\xaa\xaa\xaa\xaa\xaa\xaa";
    let d63 = b"\xaa\xaa\x64\x7f\x00\xaa\xaa\xaa\xaa\xaa\xaa\xaa";
    let a129 = b"\xaa\xaa\x61\x82\x02\x00\xaa\xaa\xaa\xaa\xaa\xaa";
    [
        step(Format::Binary, Kind::Delete, &buf, 0, 1, 105, d63),
        step(Format::Binary, Kind::Delete, &buf, 0, 2, 3, none),
        step(Format::Binary, Kind::Add, &buf, 2, 3, 106, a129),
        leb(16383, b"\xff\x7f\xaa\xaa\xaa\xaa"),
    ]
}

// Cases 6, 7 and 8, from the middle of a buffer.
fn case6() -> [bool; 2] {
    let buf = [9u32, 5, 9];
    let text = b"\xaa\xaa-3 0\n\xaa\xaa\xaa\xaa\xaa";
    let binary = b"\xaa\xaa\x61\x07\x00\xaa\xaa\xaa\xaa\xaa\xaa\xaa";
    [
        step(Format::Text, Kind::Add, &buf, 1, 2, 107, text),
        step(Format::Binary, Kind::Add, &buf, 1, 2, 105, binary),
    ]
}

fn case7() -> [bool; 2] {
    let buf = [9u32, 5, 9];
    let text = b"\xaa\xaad 0\n\xaa\xaa\xaa\xaa\xaa\xaa";
    let binary = b"\xaa\xaa\x64\x00\xaa\xaa\xaa\xaa\xaa\xaa\xaa\xaa";
    [
        step(Format::Text, Kind::Delete, &buf, 2, 2, 106, text),
        step(Format::Binary, Kind::Delete, &buf, 2, 2, 104, binary),
    ]
}

fn case8() -> [bool; 4] {
    let buf = [9u32, 124, 126, 8190, 8191, 9];
    let binary = b"\xaa\xaa\x61\x7e\x80\x01\x80\x40\x81\x40\x00\xaa";
    [
        step(Format::Binary, Kind::Add, &buf, 1, 5, 111, binary),
        step(
            Format::Text,
            Kind::Add,
            &buf,
            1,
            3,
            110,
            b"\xaa\xaa63 64 0\n\xaa\xaa",
        ),
        step(
            Format::Text,
            Kind::Add,
            &buf,
            3,
            4,
            109,
            b"\xaa\xaa4096 0\n\xaa\xaa\xaa",
        ),
        step(
            Format::Text,
            Kind::Delete,
            &buf,
            4,
            5,
            112,
            b"\xaa\xaad -4096 0\n",
        ),
    ]
}

// 3 for a code of 8192, for what is no part of the buffer and for one literal too many; nothing is written.
fn outside() -> [bool; 5] {
    let buf = [0u32, 8191, 8192];
    let long = [0u32; 8193];
    let none = b"\xaa\xaa\xaa\xaa\xaa\xaa\xaa\xaa\xaa\xaa\xaa\xaa";
    [
        step(Format::Text, Kind::Add, &buf, 0, 3, 3, none),
        step(Format::Text, Kind::Add, &buf, 2, 1, 3, none),
        step(Format::Text, Kind::Add, &buf, 1, 4, 3, none),
        step(Format::Text, Kind::Add, &long, 0, 8193, 3, none),
        step(Format::Text, Kind::Add, &long, 0, 8192, 2, none),
    ]
}

// 2 for a byte that is lacking, and for a place beyond the output; a step that fills the output to its end fits.
fn lacking() -> [bool; 5] {
    let buf = [0u32, 8191];
    let none = b"\xaa\xaa\xaa\xaa\xaa\xaa\xaa\xaa\xaa\xaa\xaa\xaa";
    [
        step(Format::Text, Kind::Delete, &buf, 0, 2, 2, none),
        fit(0, 1, 105),
        fit(1, 0, 105),
        fit(0, 2, 2),
        fit(0, 6, 2),
    ]
}

// The bytes of one literal as an add, by other means: text as std prints it, LEB128 by its value.
fn text_is(alloc: Global, c: u32, out: &[u8], e: usize) -> Result<bool, AllocError> {
    let sign = if c % 2 == 0 { "" } else { "-" };
    let want = format!(in alloc; "{sign}{} 0\n", c / 2 + 1)?;
    let n = want.len();
    Ok(e == n && out.starts_with(want.as_bytes()) && byte(out, n) == 170)
}

fn binary_is(n: u32, out: &[u8], e: usize) -> bool {
    let low = u32::from(byte(out, 1));
    let high = u32::from(byte(out, 2));
    if low < 128 {
        return (low == n) & (high == 0) & (byte(out, 3) == 170) & (e == 3);
    }
    let value = low - 128 + 128 * high;
    (value == n) & (0 < high) & (byte(out, 3) == 0) & (byte(out, 4) == 170) & (e == 4)
}

fn text_code(alloc: Global, c: u32) -> Result<bool, AllocError> {
    let mut out = [170u8; 16];
    let buf = [c; 1];
    let w = drat_write::write_clause(Format::Text, Kind::Add, &buf, 0, 1, &mut out, 0);
    let Ok(e) = w else {
        return Ok(false);
    };
    text_is(alloc, c, &out, e)
}

fn binary_code(c: u32) -> bool
    requires { c < 8192 }
{
    let n = c + 2;
    let mut out = [170u8; 16];
    let buf = [c; 1];
    let w = drat_write::write_clause(Format::Binary, Kind::Add, &buf, 0, 1, &mut out, 0);
    let Ok(e) = w else {
        return false;
    };
    (out[0] == 97) & binary_is(n, &out, e)
}

fn code(alloc: Global, f: Format, c: u32) -> Result<bool, AllocError>
    requires { c < 8192 }
{
    match f {
        Format::Text => text_code(alloc, c),
        Format::Binary => Ok(binary_code(c)),
    }
}

fn codes(alloc: Global, f: Format) -> Result<Agreed, AllocError> {
    let mut n = 0;
    for c in 0..8192 {
        if code(alloc, f, c)? {
            n += 1;
        }
    }
    Ok(Agreed { agree: n, of: 8192 })
}

// A write that fails ends the run, as does memory that is lacking.
fn main(rt: HostRuntime) -> io::Result<()> {
    println!(rt; "leb128: {}", Agreed::among(&leb128()))?;
    println!(rt; "drat-trim: {}", Agreed::among(&drat_trim()))?;
    println!(rt; "case 6: {}", Agreed::among(&case6()))?;
    println!(rt; "case 7: {}", Agreed::among(&case7()))?;
    println!(rt; "case 8: {}", Agreed::among(&case8()))?;
    println!(rt; "refusal 3: {}", Agreed::among(&outside()))?;
    println!(rt; "refusal 2: {}", Agreed::among(&lacking()))?;
    let text = codes(rt.alloc(), Format::Text)?;
    println!(rt; "codes in text: {text}")?;
    let binary = codes(rt.alloc(), Format::Binary)?;
    println!(rt; "codes in binary: {binary}")
}
