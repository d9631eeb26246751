// Every literal code is written as a clause of one literal, and read back, as an add and as a delete, in both formats, and in text with other
// separators too. Each line says for how many codes the reader gave back that literal, its end and its kind, and nothing more.
#![tactic(auto)]

use drat::{Format, Kind, Size};
use score::Agreed;
use std::io;

// No From: its impl would stand in drat, where Kind is, and no library turns a kind into its number.
fn kind_number(k: Kind) -> u8 {
    match k {
        Kind::Add => 0,
        Kind::Delete => 1,
    }
}

// The bytes read: whether they are one step of that kind with the one literal.
fn reads(f: Format, k: Kind, c: u32, bytes: &[u8]) -> bool {
    let mut codes = [7u32; 2];
    let mut ends = [7u64; 2];
    let mut kinds = [7u8; 2];
    let r = drat_read::read_proof(f, bytes, &mut codes, &mut ends, &mut kinds);
    let whole = r == Ok(Size { lits: 1, steps: 1 });
    whole && codes == [c, 7] && ends == [1, 7] && kinds == [kind_number(k), 7]
}

// The same of the first e bytes.
fn first_reads(f: Format, k: Kind, c: u32, out: &[u8], e: usize) -> bool {
    out.get(..e).is_some_and(|part| reads(f, k, c, part))
}

// A byte at a place of the copy, if there is room; the place after it.
fn put(to: &mut [u8], at: usize, b: u8) -> usize {
    let Some(byte) = to.get_mut(at) else {
        return at;
    };
    *byte = b;
    at + 1
}

fn separator(k: u32) -> u8 {
    if k % 2 == 0 { 32 } else { 10 }
}

// One, two or three separators by the digits of k.
fn put_gap(to: &mut [u8], at: usize, k: u32) -> usize {
    let one = put(to, at, separator(k));
    if k / 2 % 2 == 0 {
        return one;
    }
    let two = put(to, one, separator(k / 4));
    if k / 8 % 2 == 0 {
        return two;
    }
    put(to, two, separator(k / 16))
}

// A byte, or for a separator such ones.
fn put_next(to: &mut [u8], at: usize, b: u8, k: u32) -> usize {
    if (b == 32) | (b == 10) {
        return put_gap(to, at, k);
    }
    put(to, at, b)
}

// A copy with other separators, and with some in front; the place after it.
fn rebroken(from: &[u8], seed: u32, to: &mut [u8]) -> usize {
    let mut n = put_gap(to, 0, seed);
    let mut k = seed;
    for b in from {
        k = 40503 * (k % 65536) / 16;
        n = put_next(to, n, *b, k);
    }
    n
}

// The first e bytes, with other separators.
fn broken_reads(k: Kind, c: u32, out: &[u8], e: usize) -> bool {
    if out.len() < e {
        return false;
    }
    let mut copy = [170u8; 64];
    let n = rebroken(&out[..e], c, &mut copy);
    first_reads(Format::Text, k, c, &copy, n)
}

fn code(f: Format, k: Kind, c: u32, broken: bool) -> bool {
    let mut out = [170u8; 16];
    let buf = [c; 1];
    let w = drat_write::write_clause(f, k, &buf, 0, 1, &mut out, 0);
    let Ok(e) = w else {
        return false;
    };
    if broken {
        return broken_reads(k, c, &out, e);
    }
    first_reads(f, k, c, &out, e)
}

fn codes(f: Format, k: Kind, broken: bool) -> Agreed {
    Agreed {
        agree: (0..8192).filter(|c| code(f, k, *c, broken)).count(),
        of: 8192,
    }
}

fn both(rt: &impl Print, adds: &str, deletes: &str, f: Format, broken: bool) -> io::Result<()> {
    println!(rt; "{adds}: {}", codes(f, Kind::Add, broken))?;
    println!(rt; "{deletes}: {}", codes(f, Kind::Delete, broken))
}

// A write that fails ends the run.
fn main(rt: HostRuntime) -> io::Result<()> {
    both(&rt, "adds in text", "deletes in text", Format::Text, false)?;
    both(
        &rt,
        "adds in broken text",
        "deletes in broken text",
        Format::Text,
        true,
    )?;
    both(
        &rt,
        "adds in binary",
        "deletes in binary",
        Format::Binary,
        false,
    )
}
