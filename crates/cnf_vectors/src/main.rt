// DIMACS CNF files: those that are published, what order 4 says is right, and what it says is wrong. Each file must give its clauses, or 17 at
// the first wrong line and leave the lent words; each list of clauses must give its file. A vector that comes out otherwise is written
// with its number; then there is a line for each group.
#![tactic(auto)]

ghost use Rattle.std.specs.Prelude.{◌≤◌};

use dimacs::{CnfError, CnfSize};
use dimacs_read::read_cnf;
use dimacs_write::write_cnf;
use drat::WriteError;
use score::Score;
use std::io;

// Whether the words lent are those wanted, and past them each is what it was before the call.
fn holds<T: Copy + PartialEq>(lent: &[T], want: &[T], before: T) -> bool {
    lent.starts_with(want) && lent[want.len()..].iter().all(|word| *word == before)
}

// What Read CNF answers where it fills.
fn filled(variables: u32, lits: usize, clauses: usize) -> Result<CnfSize, CnfError> {
    Ok(CnfSize {
        variables,
        lits,
        clauses,
    })
}

// Whether Read CNF with a and b words lent gives the answer and these words.
fn gives(
    bytes: &[u8],
    a: usize,
    b: usize,
    answer: Result<CnfSize, CnfError>,
    codes: &[u32],
    ends: &[u64],
) -> bool
    requires a_bound { a ≤ 32 }
    requires b_bound { b ≤ 32 }
{
    let mut words = [7u32; 32];
    let mut places = [7u64; 32];
    let r = read_cnf(bytes, &mut words[..a], &mut places[..b]);
    r == answer && holds(&words, codes, 7) && holds(&places, ends, 7)
}

// A file of V variables and these clauses.
fn file(
    rt: &impl Print,
    t: &mut Score,
    bytes: &[u8],
    v: u32,
    codes: &[u32],
    ends: &[u64],
) -> io::Result<()> {
    let answer = filled(v, codes.len(), ends.len());
    t.told(rt, gives(bytes, 32, 32, answer, codes, ends))
}

// A file that is wrong at the place.
fn wrong(rt: &impl Print, t: &mut Score, bytes: &[u8], place: usize) -> io::Result<()> {
    let none = [0u32; 0];
    let nowhere = [0u64; 0];
    t.told(
        rt,
        gives(
            bytes,
            32,
            32,
            Err(CnfError::WrongLine(place)),
            &none,
            &nowhere,
        ),
    )
}

// The answer as a number: 2 and 3 for the refusals, 100 and the place if written.
fn number(w: Result<usize, WriteError>) -> usize {
    match w {
        Ok(e) => 100 + e % 1000,
        Err(WriteError::Outside) => 3,
        Err(WriteError::Room) => 2,
    }
}

// Whether Write CNF with so many bytes lent gives the answer and these bytes.
fn puts(codes: &[u32], ends: &[u64], room: usize, answer: usize, bytes: &[u8]) -> bool
    requires { room ≤ 128 }
{
    let mut out = [7u8; 128];
    let w = write_cnf(codes, ends, &mut out[..room]);
    number(w) == answer && holds(&out, bytes, 7)
}

fn written(
    rt: &impl Print,
    t: &mut Score,
    codes: &[u32],
    ends: &[u64],
    bytes: &[u8],
) -> io::Result<()> {
    let answer = 100 + bytes.len() % 1000;
    t.told(rt, puts(codes, ends, 128, answer, bytes))
}

// The lists give the file, and the file the lists, with V variables.
fn both(
    rt: &impl Print,
    t: &mut Score,
    bytes: &[u8],
    v: u32,
    codes: &[u32],
    ends: &[u64],
) -> io::Result<()> {
    file(rt, t, bytes, v, codes, ends)?;
    written(rt, t, codes, ends, bytes)
}

fn unwritten(
    rt: &impl Print,
    t: &mut Score,
    codes: &[u32],
    ends: &[u64],
    room: usize,
    answer: usize,
) -> io::Result<()>
    requires { room ≤ 128 }
{
    t.told(rt, puts(codes, ends, room, answer, b""))
}

// The example of the SAT competitions, with its comments, and what is written for its clauses.
fn competition(rt: &impl Print, t: &mut Score) -> io::Result<()> {
    let codes = [0u32, 9, 6, 1, 8, 4, 6, 5, 7];
    let ends = [3u64, 7, 9];
    file(
        rt,
        t,
        b"c\nc start with comments\nc\nc \np cnf 5 3\n1 -5 4 0\n-1 5 3 4 0\n-3 -4 0\n",
        5,
        &codes,
        &ends,
    )?;
    both(
        rt,
        t,
        b"p cnf 5 3\n1 -5 4 0\n-1 5 3 4 0\n-3 -4 0\n",
        5,
        &codes,
        &ends,
    )
}

// The example of the DIMACS challenge breaks its clauses otherwise: it is wrong where the second stands, and right a clause a line.
fn challenge(rt: &impl Print, t: &mut Score) -> io::Result<()> {
    wrong(
        rt,
        t,
        b"c Example CNF format file\nc\np cnf 4 3\n1 3 -4 0\n4 0 2\n-3\n",
        47,
    )?;
    let codes = [0u32, 4, 7, 6, 2, 5];
    let ends = [3u64, 4, 6];
    both(
        rt,
        t,
        b"p cnf 4 3\n1 3 -4 0\n4 0\n2 -3 0\n",
        4,
        &codes,
        &ends,
    )
}

// DRAT-trim's example of four variables: the blanks that align it are wrong.
fn aligned(rt: &impl Print, t: &mut Score) -> io::Result<()> {
    wrong(
        rt,
        t,
        b"p cnf 4 8\n 1  2 -3 0\n-1 -2  3 0\n 2  3 -4 0\n-2 -3  4 0\n-1 -3 -4 0\n 1  3  4 0\n-1  2  4 0\n 1 -2 -4 0\n",
        10,
    )
}

// Without them it is right.
fn four_variables(rt: &impl Print, t: &mut Score) -> io::Result<()> {
    let codes = [
        0u32, 2, 5, 1, 3, 4, 2, 4, 7, 3, 5, 6, 1, 5, 7, 0, 4, 6, 1, 2, 6, 0, 3, 7,
    ];
    let ends = [3u64, 6, 9, 12, 15, 18, 21, 24];
    both(
        rt,
        t,
        b"p cnf 4 8\n1 2 -3 0\n-1 -2 3 0\n2 3 -4 0\n-2 -3 4 0\n-1 -3 -4 0\n1 3 4 0\n-1 2 4 0\n1 -2 -4 0\n",
        4,
        &codes,
        &ends,
    )
}

// The files of SATLIB have blanks too many in the header, and an end of their own.
fn satlib(rt: &impl Print, t: &mut Score) -> io::Result<()> {
    wrong(
        rt,
        t,
        b"c This Formular is generated by mcnf\nc\np cnf 20  91 \n 4 -18 19 0\n",
        39,
    )?;
    wrong(rt, t, b"p cnf 1 1\n1 0\n%\n0\n\n", 14)
}

// Two pigeons and one hole; a full set of two variables.
fn small(rt: &impl Print, t: &mut Score) -> io::Result<()> {
    both(
        rt,
        t,
        b"p cnf 2 3\n1 0\n2 0\n-1 -2 0\n",
        2,
        &[0u32, 2, 1, 3],
        &[1u64, 2, 4],
    )?;
    both(
        rt,
        t,
        b"p cnf 2 4\n1 2 0\n-1 2 0\n1 -2 0\n-1 -2 0\n",
        2,
        &[0u32, 2, 1, 2, 0, 3, 1, 3],
        &[2u64, 4, 6, 8],
    )
}

// No clauses, empty ones, V of a negative literal and of a repeated one, ten and a hundred as V, the largest.
fn plain(rt: &impl Print, t: &mut Score) -> io::Result<()> {
    let none = [0u32; 0];
    let nowhere = [0u64; 0];
    both(rt, t, b"p cnf 0 0\n", 0, &none, &nowhere)?;
    both(rt, t, b"p cnf 0 1\n0\n", 0, &none, &[0u64])?;
    both(rt, t, b"p cnf 0 3\n0\n0\n0\n", 0, &none, &[0u64, 0, 0])?;
    both(
        rt,
        t,
        b"p cnf 2 3\n1 0\n0\n-2 0\n",
        2,
        &[0u32, 3],
        &[1u64, 1, 2],
    )?;
    both(rt, t, b"p cnf 3 1\n-3 0\n", 3, &[5u32], &[1u64])?;
    both(rt, t, b"p cnf 5 1\n5 5 -5 0\n", 5, &[8u32, 8, 9], &[3u64])?;
    both(rt, t, b"p cnf 10 1\n-10 9 0\n", 10, &[19u32, 16], &[2u64])?;
    both(
        rt,
        t,
        b"p cnf 100 1\n99 100 0\n",
        100,
        &[196u32, 198],
        &[2u64],
    )?;
    both(
        rt,
        t,
        b"p cnf 4096 2\n-4096 0\n1000 4096 0\n",
        4096,
        &[8191u32, 1998, 8190],
        &[1u64, 3],
    )
}

// Read, though not written here: a larger V, lines that start with `c` before the header.
fn comments(rt: &impl Print, t: &mut Score) -> io::Result<()> {
    let none = [0u32; 0];
    let nowhere = [0u64; 0];
    file(rt, t, b"p cnf 4096 0\n", 4096, &none, &nowhere)?;
    file(rt, t, b"p cnf 9 1\n-2 0\n", 9, &[3u32], &[1u64])?;
    file(rt, t, b"c\np cnf 0 0\n", 0, &none, &nowhere)?;
    file(
        rt,
        t,
        b"cnf 1\ncp cnf 9 9\np cnf 1 1\n1 0\n",
        1,
        &[0u32],
        &[1u64],
    )?;
    file(
        rt,
        t,
        b"c \xff\x00\r\nc\tx\np cnf 0 1\n0\n",
        0,
        &none,
        &[0u64],
    )?;
    wrong(rt, t, b"p cnf 1 1\nc\n1 0\n", 10)?;
    wrong(rt, t, b"p cnf 1 1\n1 0\nc\n", 14)?;
    wrong(rt, t, b"c\n\np cnf 0 0\n", 2)?;
    wrong(rt, t, b"c\n c\np cnf 0 0\n", 2)?;
    wrong(rt, t, b"C\np cnf 0 0\n", 0)
}

// A header of another form, or with a number that is none or too large.
fn headers(rt: &impl Print, t: &mut Score) -> io::Result<()> {
    wrong(rt, t, b"p cnf 4097 0\n", 0)?;
    wrong(rt, t, b"c\np cnf 5000 0\n", 2)?;
    wrong(rt, t, b"p cnf 12345678901234567890123 0\n", 0)?;
    wrong(rt, t, b"p cnf 01 0\n", 0)?;
    wrong(rt, t, b"p cnf 00 0\n", 0)?;
    wrong(rt, t, b"p cnf 0 00\n", 0)?;
    wrong(rt, t, b"p cnf 1 01\n1 0\n", 0)?;
    wrong(rt, t, b"p cnf -1 0\n", 0)?;
    wrong(rt, t, b"p cnf 1 -0\n", 0)?;
    wrong(rt, t, b"p cnf +1 0\n", 0)?;
    wrong(rt, t, b"p cnf 1\n", 0)?;
    wrong(rt, t, b"p cnf 1 \n", 0)?;
    wrong(rt, t, b"p cnf  0\n", 0)?;
    wrong(rt, t, b"p cnf\n", 0)
}

fn openings(rt: &impl Print, t: &mut Score) -> io::Result<()> {
    wrong(rt, t, b"p cnf 1  0\n", 0)?;
    wrong(rt, t, b"p cnf 1 0 \n", 0)?;
    wrong(rt, t, b"p cnf 1 0\r\n", 0)?;
    wrong(rt, t, b"p cnf 1 0", 0)?;
    wrong(rt, t, b"p cnf 1 0 0\n", 0)?;
    wrong(rt, t, b"p  cnf 1 0\n", 0)?;
    wrong(rt, t, b"p\tcnf 1 0\n", 0)?;
    wrong(rt, t, b" p cnf 1 0\n", 0)?;
    wrong(rt, t, b"P CNF 1 0\n", 0)?;
    wrong(rt, t, b"p dnf 1 0\n", 0)?;
    wrong(rt, t, b"p cnf1 0\n", 0)?;
    wrong(rt, t, b"p", 0)?;
    wrong(rt, t, b"1 0\n", 0)
}

// A line of another form, after one that is right.
fn numbers(rt: &impl Print, t: &mut Score) -> io::Result<()> {
    wrong(rt, t, b"p cnf 2 2\n1 0\n3 0\n", 14)?;
    wrong(rt, t, b"p cnf 2 2\n1 0\n-3 0\n", 14)?;
    wrong(rt, t, b"p cnf 0 1\n1 0\n", 10)?;
    wrong(rt, t, b"p cnf 4096 2\n1 0\n4097 0\n", 17)?;
    wrong(rt, t, b"p cnf 4096 1\n4294967297 0\n", 13)?;
    wrong(rt, t, b"p cnf 2 2\n1 0\n01 0\n", 14)?;
    wrong(rt, t, b"p cnf 2 2\n1 0\n-0 0\n", 14)?;
    wrong(rt, t, b"p cnf 2 2\n1 0\n+1 0\n", 14)?;
    wrong(rt, t, b"p cnf 2 2\n1 0\n--1 0\n", 14)?;
    wrong(rt, t, b"p cnf 2 2\n1 0\n1 - 0\n", 14)?;
    wrong(rt, t, b"p cnf 2 2\n1 0\n1 -0\n", 14)?;
    wrong(rt, t, b"p cnf 2 2\n1 0\n1 00\n", 14)
}

fn lines(rt: &impl Print, t: &mut Score) -> io::Result<()> {
    wrong(rt, t, b"p cnf 2 2\n1 0\n1  0\n", 14)?;
    wrong(rt, t, b"p cnf 2 2\n1 0\n 1 0\n", 14)?;
    wrong(rt, t, b"p cnf 2 2\n1 0\n1 0 \n", 14)?;
    wrong(rt, t, b"p cnf 2 2\n1 0\n1\t0\n", 14)?;
    wrong(rt, t, b"p cnf 2 2\n1 0\n1 0\r\n", 14)?;
    wrong(rt, t, b"p cnf 2 2\n1 0\n1 0", 14)?;
    wrong(rt, t, b"p cnf 2 2\n1 0\n1", 14)?;
    wrong(rt, t, b"p cnf 2 2\n1 0\n-", 14)?;
    wrong(rt, t, b"p cnf 2 2\n1 0\n1\n", 14)?;
    wrong(rt, t, b"p cnf 2 2\n1 0\n\n2 0\n", 14)?;
    wrong(rt, t, b"p cnf 2 2\n1 0\n2 0\n\n", 18)?;
    wrong(rt, t, b"p cnf 2 2\n1 0 2 0\n", 10)?;
    wrong(rt, t, b"p cnf 2 1\n1\n2 0\n", 10)?;
    wrong(rt, t, b"p cnf 2 2\n1 0\nd 1 0\n", 14)?;
    wrong(rt, t, b"p cnf 0 0\np cnf 0 0\n", 10)
}

// A wrong count is at the header, and only where every line is right; a file without a header is wrong at its end.
fn counts(rt: &impl Print, t: &mut Score) -> io::Result<()> {
    wrong(rt, t, b"c\np cnf 2 1\n1 0\n2 0\n", 2)?;
    wrong(rt, t, b"c\np cnf 2 3\n1 0\n2 0\n", 2)?;
    wrong(rt, t, b"c\np cnf 2 0\n1 0\n", 2)?;
    wrong(rt, t, b"p cnf 2 1\n", 0)?;
    wrong(
        rt,
        t,
        b"p cnf 2 1000000000000000000000000000000000000001\n1 0\n",
        0,
    )?;
    wrong(rt, t, b"p cnf 2 18446744073709551617\n1 0\n", 0)?;
    wrong(rt, t, b"p cnf 2 4294967297\n1 0\n", 0)?;
    wrong(
        rt,
        t,
        b"p cnf 2 1000000000000000000000000000000000000001\n1 0\n3 0\n",
        53,
    )?;
    wrong(rt, t, b"p cnf 2 1\n1 0\n2 0\n3 0\n", 18)?;
    wrong(rt, t, b"", 0)?;
    wrong(rt, t, b"c", 1)?;
    wrong(rt, t, b"c\n", 2)?;
    wrong(rt, t, b"c\nc x", 5)?;
    wrong(rt, t, b"c\nc x\n", 6)
}

// 2 where a slice is too short, never before 17; slices that just hold the file are enough.
fn shorts(rt: &impl Print, t: &mut Score) -> io::Result<()> {
    let none = [0u32; 0];
    let nowhere = [0u64; 0];
    let two = b"p cnf 3 2\n1 -2 0\n3 0\n";
    let codes = [0u32, 3, 4];
    let ends = [2u64, 3];
    let answer = filled(3, 3, 2);
    t.told(rt, gives(two, 3, 2, answer, &codes, &ends))?;
    t.told(rt, gives(two, 2, 2, Err(CnfError::Room), &none, &nowhere))?;
    t.told(rt, gives(two, 3, 1, Err(CnfError::Room), &none, &nowhere))?;
    t.told(rt, gives(two, 0, 0, Err(CnfError::Room), &none, &nowhere))?;
    let bad = b"p cnf 3 2\n1 -2 0\n4 0\n";
    t.told(
        rt,
        gives(bad, 0, 0, Err(CnfError::WrongLine(17)), &none, &nowhere),
    )?;
    let empty = filled(9, 0, 0);
    t.told(rt, gives(b"p cnf 9 0\n", 0, 0, empty, &none, &nowhere))
}

// 3 for an index of 4,096 or more and for ends that fall, pass the last literal or leave it out; then 2. Nothing is written.
fn refused(rt: &impl Print, t: &mut Score) -> io::Result<()> {
    let none = [0u32; 0];
    let nowhere = [0u64; 0];
    let three = [0u32, 3, 4];
    unwritten(rt, t, &[8192u32], &[1u64], 128, 3)?;
    unwritten(rt, t, &[0u32, 4294967295], &[2u64], 128, 3)?;
    unwritten(rt, t, &three, &[2u64, 1, 3], 128, 3)?;
    unwritten(rt, t, &three, &[2u64, 4], 128, 3)?;
    unwritten(rt, t, &three, &[4u64, 3], 128, 3)?;
    unwritten(rt, t, &three, &[1u64, 2], 128, 3)?;
    unwritten(rt, t, &three, &[18446744073709551615u64], 128, 3)?;
    unwritten(rt, t, &three, &nowhere, 128, 3)?;
    unwritten(rt, t, &none, &[1u64], 128, 3)?;
    unwritten(rt, t, &three, &[2u64, 3], 20, 2)?;
    unwritten(rt, t, &none, &nowhere, 9, 2)?;
    unwritten(rt, t, &none, &nowhere, 0, 2)?;
    unwritten(rt, t, &[8192u32], &[1u64], 0, 3)
}

// The first e bytes read.
fn first(
    out: &[u8],
    e: usize,
    answer: Result<CnfSize, CnfError>,
    codes: &[u32],
    ends: &[u64],
) -> bool {
    out.get(..e)
        .is_some_and(|part| gives(part, 32, 32, answer, codes, ends))
}

// A clause of one literal, written and read back.
fn code(c: u32) -> bool {
    let mut out = [7u8; 32];
    let lit = [c; 1];
    let end = [1u64; 1];
    let w = write_cnf(&lit, &end, &mut out);
    let Ok(e) = w else {
        return false;
    };
    let v = c / 2 + 1;
    first(&out, e, filled(v, 1, 1), &lit, &end)
}

// Every literal code.
fn codes(rt: &impl Print, t: &mut Score) -> io::Result<()> {
    for c in 0..8192 {
        t.told(rt, code(c))?;
    }
    Ok(())
}

// The first e bytes: whether they are a file of n empty clauses.
fn empties_in(out: &[u8], e: usize, n: usize) -> bool {
    if out.len() < e {
        return false;
    }
    let mut words = [7u32; 1];
    let mut places = [7u64; 1000];
    let r = read_cnf(&out[..e], &mut words, &mut places);
    r == filled(0, 0, n) && words[0] == 7
}

// So many empty clauses, written and read back.
fn empty(zeros: &[u64]) -> bool {
    let mut out = [7u8; 2100];
    let nothing = [0u32; 0];
    let w = write_cnf(&nothing, zeros, &mut out);
    let Ok(e) = w else {
        return false;
    };
    empties_in(&out, e, zeros.len())
}

// A count of each number of digits up to four.
fn empties(rt: &impl Print, t: &mut Score) -> io::Result<()> {
    let zeros = [0u64; 1000];
    t.told(rt, empty(&zeros[..0]))?;
    t.told(rt, empty(&zeros[..9]))?;
    t.told(rt, empty(&zeros[..10]))?;
    t.told(rt, empty(&zeros[..99]))?;
    t.told(rt, empty(&zeros[..100]))?;
    t.told(rt, empty(&zeros[..101]))?;
    t.told(rt, empty(&zeros[..999]))?;
    t.told(rt, empty(&zeros))
}

fn published(rt: &impl Print) -> io::Result<()> {
    let mut t = Score::none();
    competition(rt, &mut t)?;
    challenge(rt, &mut t)?;
    aligned(rt, &mut t)?;
    four_variables(rt, &mut t)?;
    satlib(rt, &mut t)?;
    println!(rt; "published: {t}")
}

fn forms(rt: &impl Print) -> io::Result<()> {
    let mut t = Score::none();
    small(rt, &mut t)?;
    plain(rt, &mut t)?;
    println!(rt; "both ways: {t}")?;
    let mut t = Score::none();
    comments(rt, &mut t)?;
    println!(rt; "comments: {t}")?;
    let mut t = Score::none();
    headers(rt, &mut t)?;
    openings(rt, &mut t)?;
    println!(rt; "headers: {t}")?;
    let mut t = Score::none();
    numbers(rt, &mut t)?;
    lines(rt, &mut t)?;
    println!(rt; "lines: {t}")?;
    let mut t = Score::none();
    counts(rt, &mut t)?;
    println!(rt; "counts: {t}")
}

// A write that fails ends the run.
fn main(rt: HostRuntime) -> io::Result<()> {
    published(&rt)?;
    forms(&rt)?;
    let mut t = Score::none();
    shorts(&rt, &mut t)?;
    println!(rt; "short: {t}")?;
    let mut t = Score::none();
    refused(&rt, &mut t)?;
    println!(rt; "unwritten: {t}")?;
    let mut t = Score::none();
    codes(&rt, &mut t)?;
    println!(rt; "every code: {t}")?;
    let mut t = Score::none();
    empties(&rt, &mut t)?;
    println!(rt; "empty clauses: {t}")
}
