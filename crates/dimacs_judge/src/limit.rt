// A limit for numbers, and whether the number that ends with a digit is above it.
ghost use Rattle.std.specs.Prelude.{◌≡◌, ◌≤◌};
ghost use Rattle.base.specs.Choice.{pick};
ghost use Rattle.dimacs_judge.specs.Limits.{LimitOf, fits, above};

use drat_judge::{in_range, is_near};

// The largest number allowed: its last digit as a byte, and of the three digits before it the byte below.
#[derive(Clone, Copy)]
pub(crate) struct Limit {
    pub ones: u8,
    pub tens: u8,
    pub hundreds: u8,
    pub thousands: u8,
}

pub(crate) fn limit_of(v: u32) -> Limit
    requires { v ≤ 4096 }
    ensures { LimitOf v result }
{
    Limit {
        ones: (48 + v % 10) as u8,
        tens: (47 + v / 10 % 10) as u8,
        hundreds: (47 + v / 100 % 10) as u8,
        thousands: (47 + v / 1000) as u8,
    }
}

// A function of its own, for the body of the dense loop: no branch stands there.
fn byte_if(t: bool, b: u8) -> u8
    ensures { result ≡ pick t b 0 }
{
    if t { b } else { 0 }
}

// Whether the number that the digits among b c p x end with is within the limit.
fn number_fits(t: Limit, b: u8, c: u8, p: u8, x: u8) -> bool
    requires { (t.tens ≤ 56) × (t.hundreds ≤ 56) × (t.thousands ≤ 56) }
    ensures { result ≡ fits t b c p x }
{
    let two = is_near(p);
    let three = two & is_near(c);
    let k = x <= t.ones;
    let l = p.max(48) <= t.tens + k as u8;
    let m = byte_if(two, c).max(48) <= t.hundreds + l as u8;
    byte_if(three, b).max(48) <= t.thousands + m as u8
}

// Whether the digit x makes a number above the limit, or is a fifth digit.
pub(crate) fn is_above(t: Limit, a: u8, b: u8, c: u8, p: u8, x: u8) -> bool
    requires { (t.tens ≤ 56) × (t.hundreds ≤ 56) × (t.thousands ≤ 56) }
    ensures { result ≡ above t a b c p x }
{
    let fifth = is_near(a) & (is_near(b) & (is_near(c) & is_near(p)));
    in_range(x, 48, 57) & (fifth | !number_fits(t, b, c, p, x))
}
