// Reading vectors. Each fault must give 13 at the first token of its step and leave the lent words; each whole input must give its steps.
// A vector that comes out otherwise is written with its number; then there is a line for each group.
#![tactic(auto)]

ghost use Rattle.std.specs.Prelude.{◌≤◌};

use drat::Format::{Binary, Text};
use drat::{Format, ReadError, Size};
use drat_read::{first_step, first_token, read_proof};
use score::Score;
use std::io;

// What a call must answer, and the words that the three slices must then hold.
#[derive(Clone, Copy)]
struct Want {
    answer: Result<Size, ReadError>,
    codes: [u32; 4],
    ends: [u64; 4],
    kinds: [u8; 4],
}

fn filled(n: usize, m: usize, codes: [u32; 4], ends: [u64; 4], kinds: [u8; 4]) -> Want {
    Want {
        answer: Ok(Size { lits: n, steps: m }),
        codes,
        ends,
        kinds,
    }
}

// Each word is 7 before a call, and a refusal leaves it.
fn refused(error: ReadError) -> Want {
    Want {
        answer: Err(error),
        codes: [7; 4],
        ends: [7; 4],
        kinds: [7; 4],
    }
}

// Whether a call with a, b and c words lent gives what is wanted.
fn gives(f: Format, bytes: &[u8], a: usize, b: usize, c: usize, want: Want) -> bool
    requires a_bound { a ≤ 4 }
    requires b_bound { b ≤ 4 }
    requires c_bound { c ≤ 4 }
{
    let mut codes = [7u32; 4];
    let mut ends = [7u64; 4];
    let mut kinds = [7u8; 4];
    let r = read_proof(f, bytes, &mut codes[..a], &mut ends[..b], &mut kinds[..c]);
    r == want.answer && codes == want.codes && ends == want.ends && kinds == want.kinds
}

// A fault: 13 at the place, and no word changed.
fn fault(rt: &impl Print, t: &mut Score, f: Format, bytes: &[u8], place: usize) -> io::Result<()> {
    let w = refused(ReadError::NotWhole(place));
    t.told(rt, gives(f, bytes, 4, 4, 4, w))
}

// What is no number, no step or no whole step, in text.
fn text_words(rt: &impl Print, t: &mut Score) -> io::Result<()> {
    fault(rt, t, Text, b"01 0\n", 0)?;
    fault(rt, t, Text, b"-0 0\n", 0)?;
    fault(rt, t, Text, b"00\n", 0)?;
    fault(rt, t, Text, b"+1 0\n", 0)?;
    fault(rt, t, Text, b"1\t0\n", 0)?;
    fault(rt, t, Text, b"1 0\r\n", 0)?;
    fault(rt, t, Text, b"1 -0\n", 0)?;
    fault(rt, t, Text, b"1 - 0\n", 0)?;
    fault(rt, t, Text, b"--1 0\n", 0)?;
    fault(rt, t, Text, b"1 2-3 0\n", 0)?;
    fault(rt, t, Text, b"a 1 0\n", 0)
}

// Tokens that are joined, a `d` where none may be, bytes that are in no text.
fn text_tokens(rt: &impl Print, t: &mut Score) -> io::Result<()> {
    fault(rt, t, Text, b"10\n", 0)?;
    fault(rt, t, Text, b"1 02 0\n", 0)?;
    fault(rt, t, Text, b"1 0d 2 0\n", 0)?;
    fault(rt, t, Text, b"d1 0\n", 0)?;
    fault(rt, t, Text, b"dd 1 0\n", 0)?;
    fault(rt, t, Text, b"d d 1 0\n", 0)?;
    fault(rt, t, Text, b"1 d 2 0\n", 0)?;
    fault(rt, t, Text, b"\x00", 0)?;
    fault(rt, t, Text, b"1 0 \x00", 4)?;
    fault(rt, t, Text, b"\xff", 0)?;
    fault(rt, t, Text, b"1\xff0", 0)
}

fn text_sizes(rt: &impl Print, t: &mut Score) -> io::Result<()> {
    fault(rt, t, Text, b"4097 0\n", 0)?;
    fault(rt, t, Text, b"-4097 0\n", 0)?;
    fault(rt, t, Text, b"5000 0\n", 0)?;
    fault(rt, t, Text, b"10000 0\n", 0)?;
    fault(rt, t, Text, b"40960 0\n", 0)?;
    fault(
        rt,
        t,
        Text,
        b"1234567890123456789012345678901234567890 0\n",
        0,
    )?;
    fault(rt, t, Text, b"4294967297 0\n", 0)
}

// Inputs that are cut, the place being that of the last step's first token.
fn text_cuts(rt: &impl Print, t: &mut Score) -> io::Result<()> {
    fault(rt, t, Text, b"1 0\n2 ", 4)?;
    fault(rt, t, Text, b"1 0\n2", 4)?;
    fault(rt, t, Text, b"1 0 2", 4)?;
    fault(rt, t, Text, b"1 0\n-", 4)?;
    fault(rt, t, Text, b"1 0\nd", 4)?;
    fault(rt, t, Text, b"1 0\nd ", 4)?;
    fault(rt, t, Text, b"1 0 \n\n 2\n3", 7)?;
    fault(rt, t, Text, b"\n 1 23", 2)?;
    fault(rt, t, Text, b"1 2\n", 0)?;
    fault(rt, t, Text, b"d", 0)?;
    fault(rt, t, Text, b"1 0\nd 2 0\n-3 0\n4 0\r\n", 15)?;
    fault(rt, t, Text, b"1 0\n\n2 x\n", 5)
}

fn binary_codes(rt: &impl Print, t: &mut Score) -> io::Result<()> {
    fault(rt, t, Binary, b"a\x80\x00\x00", 0)?;
    fault(rt, t, Binary, b"a\x01\x00", 0)?;
    fault(rt, t, Binary, b"a\x81\x00\x00", 0)?;
    fault(rt, t, Binary, b"a\x82\x40\x00", 0)?;
    fault(rt, t, Binary, b"a\xff\x7f\x00", 0)?;
    fault(rt, t, Binary, b"a\x80\x41\x00", 0)?;
    fault(rt, t, Binary, b"a\x80\x80\x01\x00", 0)?;
    fault(rt, t, Binary, b"a\x82\x00\x00", 0)?;
    fault(rt, t, Binary, b"a\x82\x80\x00\x00", 0)?;
    fault(
        rt,
        t,
        Binary,
        b"a\x82\x80\x80\x80\x80\x80\x80\x80\x80\x80\x00\x00",
        0,
    )?;
    fault(
        rt,
        t,
        Binary,
        b"a\xff\xff\xff\xff\xff\xff\xff\xff\xff\x01\x00",
        0,
    )
}

fn binary_steps(rt: &impl Print, t: &mut Score) -> io::Result<()> {
    fault(rt, t, Binary, b"a\x02\x00d\x82", 3)?;
    fault(rt, t, Binary, b"a\x82", 0)?;
    fault(rt, t, Binary, b"a\x02", 0)?;
    fault(rt, t, Binary, b"a", 0)?;
    fault(rt, t, Binary, b"\x00", 0)?;
    fault(rt, t, Binary, b"b\x02\x00", 0)?;
    fault(rt, t, Binary, b"1 0\n", 0)?;
    fault(rt, t, Binary, b"A\x02\x00", 0)?;
    fault(rt, t, Binary, b"a\x02\x00\x00", 3)?;
    fault(rt, t, Binary, b"a\x02\x00c\x02\x00", 3)?;
    fault(rt, t, Binary, b"a\x02\x00d\x03", 3)
}

// A whole input: what is filled, and the words past it.
fn whole(rt: &impl Print, t: &mut Score, f: Format, bytes: &[u8], w: Want) -> io::Result<()> {
    t.told(rt, gives(f, bytes, 4, 4, 4, w))
}

fn text_whole(rt: &impl Print, t: &mut Score) -> io::Result<()> {
    let w = filled(0, 0, [7; 4], [7; 4], [7; 4]);
    whole(rt, t, Text, b"", w)?;
    let w = filled(0, 1, [7; 4], [0, 7, 7, 7], [0, 7, 7, 7]);
    whole(rt, t, Text, b"0\n", w)?;
    let w = filled(0, 1, [7; 4], [0, 7, 7, 7], [1, 7, 7, 7]);
    whole(rt, t, Text, b"d 0\n", w)?;
    let w = filled(4, 2, [0, 8191, 8190, 18], [2, 4, 7, 7], [0, 1, 7, 7]);
    whole(rt, t, Text, b"1 -4096 0\nd 4096 10 0\n", w)?;
    let w = filled(2, 2, [5, 1998, 7, 7], [1, 2, 7, 7], [0, 0, 7, 7]);
    whole(rt, t, Text, b"-3 0\n1000 0\n", w)
}

// Separators of either kind, one or more between tokens, any number before the first and after the last.
fn text_broken(rt: &impl Print, t: &mut Score) -> io::Result<()> {
    let w = filled(0, 0, [7; 4], [7; 4], [7; 4]);
    whole(rt, t, Text, b" \n\n ", w)?;
    let w = filled(0, 1, [7; 4], [0, 7, 7, 7], [0, 7, 7, 7]);
    whole(rt, t, Text, b"0", w)?;
    let w = filled(2, 2, [0, 2, 7, 7], [1, 2, 7, 7], [0, 0, 7, 7]);
    whole(rt, t, Text, b"1 0\n2 0", w)?;
    whole(rt, t, Text, b"\n 1\n0 2  0\n\n", w)?;
    let w = filled(3, 2, [0, 3, 4, 7], [2, 3, 7, 7], [0, 1, 7, 7]);
    whole(rt, t, Text, b"1 -2 0\nd 3 0\n", w)?;
    whole(rt, t, Text, b"1\n-2\n0\nd\n3\n0", w)?;
    whole(rt, t, Text, b"  1\n\n-2 0 \n \nd \n 3 0 ", w)
}

// A step after 10,000 separators, whole, then with its 0 cut off; and the first step of it alone.
fn far(rt: &impl Print, t: &mut Score) -> io::Result<()> {
    let mut s = [10u8; 10005];
    s[10000] = 100;
    s[10001] = 32;
    s[10002] = 49;
    s[10004] = 48;
    let w = filled(1, 1, [0, 7, 7, 7], [1, 7, 7, 7], [1, 7, 7, 7]);
    whole(rt, t, Text, &s, w)?;
    part(rt, t, Text, &s, 10000, b"d 1\n0")?;
    fault(rt, t, Text, &s[..10004], 10000)
}

// A clause that is broken by 10,000 separators, and the same with another last token.
fn wide(rt: &impl Print, t: &mut Score) -> io::Result<()> {
    let mut s = [32u8; 10005];
    s[0] = 49;
    s[10002] = 45;
    s[10003] = 50;
    let w = refused(ReadError::NotWhole(0));
    whole(rt, t, Text, &s, w)?;
    s[10001] = 48;
    whole(rt, t, Text, &s, w)?;
    s[10003] = 32;
    s[10002] = 32;
    let w = filled(1, 1, [0, 7, 7, 7], [1, 7, 7, 7], [0, 7, 7, 7]);
    whole(rt, t, Text, &s, w)
}

fn binary_whole(rt: &impl Print, t: &mut Score) -> io::Result<()> {
    let w = filled(0, 0, [7; 4], [7; 4], [7; 4]);
    whole(rt, t, Binary, b"", w)?;
    let w = filled(0, 1, [7; 4], [0, 7, 7, 7], [0, 7, 7, 7]);
    whole(rt, t, Binary, b"a\x00", w)?;
    let w = filled(0, 1, [7; 4], [0, 7, 7, 7], [1, 7, 7, 7]);
    whole(rt, t, Binary, b"d\x00", w)?;
    let w = filled(4, 2, [0, 8191, 125, 126], [2, 4, 7, 7], [0, 1, 7, 7]);
    whole(rt, t, Binary, b"a\x02\x81\x40\x00d\x7f\x80\x01\x00", w)?;
    let w = filled(3, 2, [95, 98, 5, 7], [2, 3, 7, 7], [0, 1, 7, 7]);
    whole(rt, t, Binary, b"aad\x00d\x07\x00", w)
}

// Two steps of two literals and one, with a, b and c words lent.
fn two(rt: &impl Print, t: &mut Score, a: usize, b: usize, c: usize, w: Want) -> io::Result<()>
    requires a_bound { a ≤ 4 }
    requires b_bound { b ≤ 4 }
    requires c_bound { c ≤ 4 }
{
    t.told(rt, gives(Text, b"1 2 0\nd 3 0\n", a, b, c, w))?;
    t.told(rt, gives(Binary, b"a\x02\x04\x00d\x06\x00", a, b, c, w))
}

// 2 where any of the slices is too short, never before 13; slices that just hold it are enough.
fn shorts(rt: &impl Print, t: &mut Score) -> io::Result<()> {
    two(rt, t, 2, 2, 2, refused(ReadError::Room))?;
    two(rt, t, 3, 1, 2, refused(ReadError::Room))?;
    two(rt, t, 3, 2, 1, refused(ReadError::Room))?;
    let w = filled(3, 2, [0, 2, 4, 7], [2, 3, 7, 7], [0, 1, 7, 7]);
    two(rt, t, 3, 2, 2, w)?;
    let w = refused(ReadError::NotWhole(6));
    t.told(rt, gives(Text, b"1 2 0\n01", 0, 0, 0, w))?;
    let w = filled(0, 0, [7; 4], [7; 4], [7; 4]);
    t.told(rt, gives(Binary, b"", 0, 0, 0, w))
}

// The first step alone: the place of its first token, and its part, which is empty where that step is not whole.
fn part(
    rt: &impl Print,
    t: &mut Score,
    f: Format,
    bytes: &[u8],
    place: usize,
    want: &[u8],
) -> io::Result<()> {
    let here = first_token(f, bytes) == place;
    t.told(rt, here & (first_step(f, bytes) == want))
}

fn text_parts(rt: &impl Print, t: &mut Score) -> io::Result<()> {
    part(rt, t, Text, b"", 0, b"")?;
    part(rt, t, Text, b" \n", 0, b"")?;
    part(rt, t, Text, b"1 0\n2 0", 0, b"1 0")?;
    part(rt, t, Text, b"\n d\n1 -2 0\n\n", 2, b"d\n1 -2 0")?;
    part(rt, t, Text, b"2 0", 0, b"2 0")?;
    part(rt, t, Text, b" 0 01", 1, b"0")?;
    part(rt, t, Text, b"01 0\n2 0\n", 0, b"")?;
    part(rt, t, Text, b"\n2 0x", 1, b"")?;
    part(rt, t, Text, b"\n\n2 ", 2, b"")
}

fn binary_parts(rt: &impl Print, t: &mut Score) -> io::Result<()> {
    part(rt, t, Binary, b"", 0, b"")?;
    part(rt, t, Binary, b"a\x02\x00\x01", 0, b"a\x02\x00")?;
    part(rt, t, Binary, b"d\x00a\x00", 0, b"d\x00")?;
    part(rt, t, Binary, b"\na\x00", 0, b"")?;
    part(rt, t, Binary, b"a\x02", 0, b"")
}

fn faults(rt: &impl Print) -> io::Result<()> {
    let mut t = Score::none();
    text_words(rt, &mut t)?;
    text_tokens(rt, &mut t)?;
    text_sizes(rt, &mut t)?;
    text_cuts(rt, &mut t)?;
    println!(rt; "text faults: {t}")?;
    let mut t = Score::none();
    binary_codes(rt, &mut t)?;
    binary_steps(rt, &mut t)?;
    println!(rt; "binary faults: {t}")
}

fn wholes(rt: &impl Print) -> io::Result<()> {
    let mut t = Score::none();
    text_whole(rt, &mut t)?;
    binary_whole(rt, &mut t)?;
    println!(rt; "whole: {t}")?;
    let mut t = Score::none();
    text_broken(rt, &mut t)?;
    far(rt, &mut t)?;
    wide(rt, &mut t)?;
    println!(rt; "broken lines: {t}")
}

// A write that fails ends the run.
fn main(rt: HostRuntime) -> io::Result<()> {
    faults(&rt)?;
    wholes(&rt)?;
    let mut t = Score::none();
    shorts(&rt, &mut t)?;
    println!(rt; "short: {t}")?;
    let mut t = Score::none();
    text_parts(&rt, &mut t)?;
    binary_parts(&rt, &mut t)?;
    println!(rt; "first step: {t}")
}
