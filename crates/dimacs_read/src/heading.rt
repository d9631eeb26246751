// The header: where it stands, and its two numbers.
ghost use Rattle.std.specs.Prelude.{◌≡◌, false, ◌||◌, ℕ, ◌+◌, ◌*◌, ◌≤◌, ◌<◌, eqb, length, get_or, drop};
ghost use Rattle.dimacs.specs.Cnf.{header_start};
ghost use Rattle.dimacs.specs.Reading.{header_place, value_from, proper, starts_with, head_from};
ghost use Rattle.dimacs_read.specs.Heading.{Capped, Headed, digits_at};

// A header's V, its C capped, and the place after its line.
#[derive(Clone, Copy, Debug, PartialEq, Eq)]
pub(crate) struct Heading {
    pub variables: u32,
    pub clauses: u64,
    pub next: usize,
}

// The number of a run of digits, capped, and the place after them.
#[derive(Clone, Copy)]
struct Run {
    value: u64,
    next: usize,
}

// Whether a byte belongs to a `c` line: it stands inside one, or starts one.
fn passes(inside: bool, b: u8) -> bool
    ensures { result ≡ inside || eqb b 99 }
{
    inside || b == 99
}

// The place of the first line that does not start with `c`, or the file's end. No slice has 2^63 bytes or more.
pub(crate) fn header_place(s: &[u8]) -> usize
    ensures value { result ≡ header_place false 0 s.now }
    ensures upper_bound { result ≤ length s.now }
    ensures s_len_bound { length s.now < 9223372036854775808 }
{
    let mut inside = false;
    for i in 0..s.len() {
        if !passes(inside, s[i]) {
            return i;
        }
        inside = s[i] != 10;
    }
    s.len()
}

// A digit more after those of v, capped.
fn capped_digit(v: u64, d: u64) -> u64
    requires { d ≤ 9 }
    ensures { (n : ℕ) → Capped v n → Capped result (10 * n + d) }
{
    if v < 922337203685477580 {
        10 * v + d
    } else {
        9223372036854775800
    }
}

// The digits from a place on.
fn run_at(s: &[u8], from: usize) -> Run
    requires { from ≤ length s.now }
    ensures next_value { result.next ≡ from + length (digits_at s.now from) }
    ensures next_in_bounds { result.next ≤ length s.now }
    ensures capped { Capped result.value (value_from 0 (digits_at s.now from)) }
{
    let mut value: u64 = 0;
    for i in from..s.len() {
        let b = s[i] as u64;
        if b < 48 {
            return Run { value, next: i };
        }
        if 57 < b {
            return Run { value, next: i };
        }
        value = capped_digit(value, b - 48);
    }
    Run {
        value,
        next: s.len(),
    }
}

// Whether the digits between two places are a number: there are some, and a 0 in front only alone. One test after the other, as the wrong
// program zero_in_front names them.
fn is_proper(s: &[u8], from: usize, next: usize) -> bool
    requires next_value { next ≡ from + length (digits_at s.now from) }
    requires next_in_bounds { next ≤ length s.now }
    ensures { result ≡ proper (digits_at s.now from) }
{
    if next == from {
        return false;
    }
    if next == from + 1 {
        return true;
    }
    if s[from] == 48 {
        return false;
    }
    true
}

// Whether a byte stands at a place.
fn stands(s: &[u8], at: usize, b: u8) -> bool
    requires { 0 < b }
    ensures { result ≡ eqb (get_or s.now at 0) b }
{
    at < s.len() && s[at] == b
}

// Whether `p cnf ` stands at a place.
fn header_starts(s: &[u8], at: usize) -> bool
    requires { at ≤ length s.now }
    ensures { result ≡ starts_with header_start (drop at s.now) }
{
    s[at..].starts_with(b"p cnf ")
}

// The header at a place.
pub(crate) fn head_at(s: &[u8], at: usize) -> Option<Heading>
    requires { at ≤ length s.now }
    ensures { Headed (head_from at (drop at s.now)) result }
{
    if !header_starts(s, at) {
        return None;
    }
    let v = run_at(s, at + 6);
    if !is_proper(s, at + 6, v.next) {
        return None;
    }
    if 4096 < v.value {
        return None;
    }
    if !stands(s, v.next, 32) {
        return None;
    }
    let c = run_at(s, v.next + 1);
    if !is_proper(s, v.next + 1, c.next) {
        return None;
    }
    if !stands(s, c.next, 10) {
        return None;
    }
    let next = c.next + 1;
    Some(Heading {
        variables: v.value as u32,
        clauses: c.value,
        next,
    })
}
