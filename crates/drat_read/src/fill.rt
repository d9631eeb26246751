// The fill: the words of steps that were judged whole. It asks nothing of a byte that the judging has asked.
ghost use Rattle.std.specs.Prelude.{◌≡◌, ◌+◌, length, get_or, drop};
ghost use Rattle.drat.specs.Reading.{seps, token, opening, one_step};
ghost use Rattle.drat.specs.Filled.{Scan};
ghost use Rattle.drat.specs.declared.Format.TheVariants.{Text, Binary};
ghost use Rattle.drat.specs.declared.Token.TheVariants.{Lit};
ghost use Rattle.drat_read.specs.Known.{StepsFit, BodyFits, BodyFilled, IsGap, IsLit, IsStep, OpenedAs};

use crate::literal::{Literal, literal_at};
use drat::{Format, Size};
use drat_scan::place::past;

// The place after a step and the number of literals filled.
#[derive(Clone, Copy)]
struct Place {
    at: usize,
    n: usize,
}

// A step's kind, 1 for a deletion, and the place of its first literal.
#[derive(Clone, Copy)]
struct Start {
    kind: u8,
    first: usize,
}

// The place after separators that a token follows. No `for`: it would test for an end that is not met.
fn past_gap(s: &[u8], at: usize) -> usize
    requires { IsGap s.now at }
    ensures { result ≡ at + seps (drop at s.now) }
{
    let mut i = at;
    while s[i] < 45 {
        i += 1;
    }
    i
}

fn code_at(s: &[u8], at: usize) -> Literal
    requires fact { get_or s.now at 0 ≡ 0 → ⊥ }
    requires lit { IsLit (token Binary at (drop at s.now)) }
    ensures { token Binary at (drop at s.now) ≡ Some (Lit result.code result.next) }
{
    let b = s[at] as u32;
    if b < 128 {
        return Literal {
            code: b - 2,
            next: at + 1,
        };
    }
    Literal {
        code: 128 * (s[at + 1] as u32) + b - 130,
        next: at + 2,
    }
}

// Literals of text up to the 0, and the separators after each. Apart from binary's: one loop for both asks at each literal which format it is, and
// binary is then filled in 1.07 to 1.18 times the time (measured).
fn numbers_from(s: &[u8], codes: &mut [u32], from: usize, first: usize) -> Place
    requires { BodyFits Text s.now from first (length codes.old) }
    ensures { BodyFilled Text s.now from first codes.old codes.new result.at result.n }
{
    let mut at = from;
    let mut n = first;
    while s[at] != 48 {
        let w = literal_at(s, at);
        codes[n] = w.code;
        n += 1;
        at = past_gap(s, w.next + 1);
    }
    Place { at: at + 1, n }
}

// Literals of binary up to the byte 0.
fn codes_from(s: &[u8], codes: &mut [u32], from: usize, first: usize) -> Place
    requires { BodyFits Binary s.now from first (length codes.old) }
    ensures { BodyFilled Binary s.now from first codes.old codes.new result.at result.n }
{
    let mut at = from;
    let mut n = first;
    while s[at] != 0 {
        let w = code_at(s, at);
        codes[n] = w.code;
        n += 1;
        at = w.next;
    }
    Place { at: at + 1, n }
}

fn body_from(f: Format, s: &[u8], codes: &mut [u32], from: usize, first: usize) -> Place
    requires { BodyFits f s.now from first (length codes.old) }
    ensures { BodyFilled f s.now from first codes.old codes.new result.at result.n }
{
    match f {
        Format::Text => numbers_from(s, codes, from, first),
        Format::Binary => codes_from(s, codes, from, first),
    }
}

// How a step opens that is known to be whole. Without a branch on the kind: where additions and deletions mix it would be mispredicted.
fn start_at(f: Format, s: &[u8], at: usize) -> Start
    requires { IsStep (one_step f at (drop at s.now)) }
    ensures { OpenedAs (opening f at (drop at s.now)) result.kind result.first }
{
    let kind = (s[at] == 100) as u8;
    match f {
        Format::Text => Start {
            kind,
            first: past_gap(s, at + 2 * (kind as usize)),
        },
        Format::Binary => Start {
            kind,
            first: at + 1,
        },
    }
}

// Fills all steps, and says how many. Between steps `at` is the place of a first token.
pub(crate) fn fill(
    f: Format,
    s: &[u8],
    codes: &mut [u32],
    ends: &mut [u64],
    kinds: &mut [u8],
) -> Size
    requires { StepsFit f s.now (length codes.old) (length ends.old) (length kinds.old) }
    ensures { Scan f s.now codes.old ends.old kinds.old codes.new ends.new kinds.new (Ok result) }
{
    let mut at = past(f, s, 0);
    let mut n: usize = 0;
    let mut m: usize = 0;
    while at < s.len() {
        let b = start_at(f, s, at);
        let p = body_from(f, s, codes, b.first, n);
        n = p.n;
        at = past(f, s, p.at);
        ends[m] = n as u64;
        kinds[m] = b.kind;
        m += 1;
    }
    Size { lits: n, steps: m }
}
