// Judging by neighbours: whether bytes are whole steps, and how many literals and steps they then are.
// No state goes from byte to byte, so that the loops take many bytes at once.
#![tactic(auto)]

ghost use Rattle.std.specs.Prelude.{◌≡◌, true, ◌&&◌, ◌≤◌, ◌<◌, length};
ghost use Rattle.base.specs.Choice.{pick};
ghost use Rattle.drat.specs.Numeral.{in_range};
ghost use Rattle.drat_judge.specs.Local.{near, low, closing, closed, small, text_next, binary_next, may_follow, ended, before, judged};
ghost use Rattle.drat_judge.specs.Local.{byte_back, runs_at, tally, starts, steps_by, lits_by};

use drat::{Format, Size};

pub fn in_range(x: u8, lo: u8, hi: u8) -> bool
    ensures { result ≡ in_range lo hi x }
{
    (lo <= x) & (x <= hi)
}

// A function of its own, for the bodies of the dense loops: no branch stands there.
pub fn choose(t: bool, u: bool, v: bool) -> bool
    ensures { result ≡ pick t u v }
{
    if t { u } else { v }
}

// A digit, in text that was judged up to there. The bound is 127 since that makes one comparison of signed bytes.
pub fn is_near(x: u8) -> bool
    ensures { result ≡ near x }
{
    in_range(x, 48, 127)
}

// Whether p is a closing 0.
pub fn is_closing(c: u8, p: u8) -> bool
    ensures { result ≡ closing c p }
{
    (p == 48) & !is_near(c)
}

// Whether p is a separator, in text that was judged up to there.
fn is_low(p: u8) -> bool
    ensures { result ≡ low p }
{
    !in_range(p, 45, 127)
}

// Whether a b c, and a separator after them, end with a closing 0 and one or two separators.
fn is_closed(a: u8, b: u8, c: u8) -> bool
    ensures { result ≡ closed a b c }
{
    is_closing(b, c) | (!is_near(c) & is_closing(a, b))
}

// Whether the digit x, after a b c p, makes no number above 4096.
fn is_small(a: u8, b: u8, c: u8, p: u8, x: u8) -> bool
    ensures { result ≡ small a b c p x }
{
    let above = in_range(c, 49, 127) | ((p == 57) & in_range(x, 55, 127));
    let few = !is_near(b) | (!is_near(c) | !is_near(p));
    few | (!is_near(a) & (b <= 52 - above as u8))
}

// Whether x may stand after a b c p.
fn text_next(a: u8, b: u8, c: u8, p: u8, x: u8) -> bool
    ensures { result ≡ text_next a b c p x }
{
    let digit = in_range(x, 48, 57) & (is_small(a, b, c, p, x) & !((p == 100) | is_closing(c, p)));
    let mark = is_low(p) & ((x == 45) | ((x == 100) & is_closed(a, b, c)));
    (digit | (((x == 32) | (x == 10)) | mark)) & (!(p == 45) | in_range(x, 49, 127))
}

// Whether x may stand after p.
fn binary_next(p: u8, x: u8) -> bool
    ensures { result ≡ binary_next p x }
{
    let first = choose(p == 0, (x == 97) | (x == 100), !(x == 1));
    choose(p < 128, first, in_range(x, 1, 64) & ((x < 64) | (p <= 129)))
}

fn next(f: Format, a: u8, b: u8, c: u8, p: u8, x: u8) -> bool
    ensures { result ≡ may_follow f a b c p x }
{
    match f {
        Format::Text => text_next(a, b, c, p, x),
        Format::Binary => binary_next(p, x),
    }
}

// What counts as the byte d places before the first.
fn before_first(f: Format, d: usize) -> u8
    ensures { result ≡ before f d }
{
    match f {
        Format::Text => if d == 2 { 48 } else { 10 },
        Format::Binary => 0,
    }
}

// Whether a b c p end a step.
fn is_end(f: Format, a: u8, b: u8, c: u8, p: u8) -> bool
    ensures { result ≡ ended f a b c p }
{
    match f {
        Format::Text => is_closing(c, p) | (is_low(p) & is_closed(a, b, c)),
        Format::Binary => p == 0,
    }
}

// The byte k places before place i.
fn byte_back(f: Format, s: &[u8], i: usize, k: usize) -> u8
    requires i_in_bounds { i ≤ length s.now }
    requires k_nonzero { 0 < k }
    ensures { result ≡ byte_back f s.now i k }
{
    if i < k {
        before_first(f, k - i)
    } else {
        s[i - k]
    }
}

// The first n bytes.
fn head_runs(f: Format, s: &[u8], n: usize) -> bool
    requires { n ≤ length s.now }
    ensures { result && runs_at f s.now n ≡ judged f s.now }
{
    let mut ok = true;
    for i in 0..n {
        let a = byte_back(f, s, i, 4);
        let b = byte_back(f, s, i, 3);
        let c = byte_back(f, s, i, 2);
        let p = byte_back(f, s, i, 1);
        ok &= next(f, a, b, c, p, s[i]);
    }
    ok
}

// The bytes from one place to another.
#[inline(always)]
fn bytes_run(f: Format, s: &[u8], from: usize, to: usize) -> bool
    requires le_from { 4 ≤ from }
    requires from_le_to { from ≤ to }
    requires to_in_bounds { to ≤ length s.now }
    ensures { result && runs_at f s.now to ≡ runs_at f s.now from }
{
    let mut ok = true;
    for i in from..to {
        ok &= next(f, s[i - 4], s[i - 3], s[i - 2], s[i - 1], s[i]);
    }
    ok
}

// The same. The format is given as a constant, so that each gets a loop of its own.
fn part_runs(f: Format, s: &[u8], from: usize, to: usize) -> bool
    requires le_from { 4 ≤ from }
    requires from_le_to { from ≤ to }
    requires to_in_bounds { to ≤ length s.now }
    ensures { result && runs_at f s.now to ≡ runs_at f s.now from }
{
    match f {
        Format::Text => bytes_run(Format::Text, s, from, to),
        Format::Binary => bytes_run(Format::Binary, s, from, to),
    }
}

// The bytes from the fifth on, and the end. In parts: a fault ends the judging with its part.
fn tail_runs(f: Format, s: &[u8]) -> bool
    requires { 4 ≤ length s.now }
    ensures { result ≡ runs_at f s.now 4 }
{
    let n = s.len();
    for i in (4..n).step_by(4096) {
        if !part_runs(f, s, i, n.min(i + 4096)) {
            return false;
        }
    }
    is_end(f, s[n - 4], s[n - 3], s[n - 2], s[n - 1])
}

// specs/Local.antt: judged. What is judged is a proof's bytes, by proofs/JudgedLaws.antt.
pub fn is_judged(f: Format, s: &[u8]) -> bool
    ensures { result ≡ judged f s.now }
{
    let n = s.len();
    if n < 4 {
        let a = byte_back(f, s, n, 4);
        let b = byte_back(f, s, n, 3);
        let c = byte_back(f, s, n, 2);
        return head_runs(f, s, n) & is_end(f, a, b, c, byte_back(f, s, n, 1));
    }
    if !head_runs(f, s, 4) {
        return false;
    }
    tail_runs(f, s)
}

// How many of at most 192 bytes are from lo to hi.
fn block(s: &[u8], lo: u8, hi: u8) -> u8
    requires { length s.now ≤ 192 }
    ensures { (result ≡ tally lo hi s.now) × (result ≤ length s.now) }
{
    let mut k = 0;
    for x in s {
        k += in_range(*x, lo, hi) as u8;
    }
    k
}

// How many bytes are from lo to hi.
pub fn tally_of(s: &[u8], lo: u8, hi: u8) -> usize
    ensures { result ≡ tally lo hi s.now }
{
    let mut k = 0;
    for part in s.chunks(192) {
        k += block(part, lo, hi) as usize;
    }
    k
}

// How many of at most 192 bytes of text are from lo to hi and stand after a separator; p is the byte before the first. Apart from `block`, which does
// not look at the byte before: a test given as a closure would carry its contract through both.
fn starts_block(p: u8, s: &[u8], lo: u8, hi: u8) -> u8
    requires { length s.now ≤ 192 }
    ensures { (result ≡ starts lo hi p s.now) × (result ≤ length s.now) }
{
    let mut k = 0;
    let mut last = p;
    for x in s {
        k += ((last < 45) & in_range(*x, lo, hi)) as u8;
        last = *x;
    }
    k
}

// How many bytes of text are from lo to hi and stand after a separator or first.
fn starts_of(s: &[u8], lo: u8, hi: u8) -> usize
    ensures { result ≡ starts lo hi 10 s.now }
{
    let mut k = 0;
    let mut p = 10;
    for part in s.chunks(192) {
        k += starts_block(p, part, lo, hi) as usize;
        p = part[part.len() - 1];
    }
    k
}

fn steps_of(f: Format, s: &[u8]) -> usize
    ensures { result ≡ steps_by f s.now }
{
    match f {
        Format::Text => starts_of(s, 48, 48),
        Format::Binary => tally_of(s, 0, 0),
    }
}

fn lits_of(f: Format, s: &[u8], steps: usize) -> usize
    requires s_value { judged f s.now ≡ true }
    requires steps_value { steps ≡ steps_by f s.now }
    ensures { result ≡ lits_by f s.now }
{
    match f {
        Format::Text => starts_of(s, 45, 99) - steps,
        Format::Binary => tally_of(s, 0, 127) - 2 * steps,
    }
}

// How many literals and steps bytes have that are judged whole.
pub fn counts_of(f: Format, s: &[u8]) -> Size
    requires { judged f s.now ≡ true }
    ensures { (result.lits ≡ lits_by f s.now) × (result.steps ≡ steps_by f s.now) }
{
    let steps = steps_of(f, s);
    Size {
        lits: lits_of(f, s, steps),
        steps,
    }
}
