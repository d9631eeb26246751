// A literal's number that is known to stand at a place, read by its length.
ghost use Rattle.std.specs.Prelude.{◌≡◌, ◌+◌, ◌-◌, ◌*◌, ◌≤◌, drop};
ghost use Rattle.drat.specs.Reading.{signed_from};
ghost use Rattle.drat.specs.declared.Token.TheVariants.{Lit};
ghost use Rattle.drat_read.specs.Known.{IsNumber, lead_of, MinusOrDigit};

// A literal's code and the place of the byte after its number.
#[derive(Clone, Copy)]
pub struct Literal {
    pub code: u32,
    pub next: usize,
}

fn digit(b: u8) -> u32
    requires { 48 ≤ b }
    ensures { (result ≡ b - 48) × (result ≤ 255) }
{
    b as u32 - 48
}

// What the first of several bytes adds to a code: 1 for a minus, or the digit with its weight. Without a branch: where signs mix it would be
// mispredicted.
fn lead(b: u8, weight: u32) -> u32
    requires minus_or_digit { MinusOrDigit b }
    requires weight_bound { weight ≤ 2000 }
    ensures { (result ≡ lead_of b weight) × (result ≤ 510000) }
{
    if b == 45 { 1 } else { weight * digit(b) }
}

// The code of a number: what its first byte adds (of five the first two, of one none), and the digits after it, filled up to three by 0 (48).
fn code_of(front: u32, b: u8, c: u8, d: u8) -> u32
    requires { (front ≤ 510001) × (48 ≤ b) × (48 ≤ c) × (48 ≤ d) × (2 ≤ front + 200 * (b - 48) + 20 * (c - 48) + 2 * (d - 48)) }
    ensures { result + 2 ≡ front + 200 * (b - 48) + 20 * (c - 48) + 2 * (d - 48) }
{
    front + 200 * digit(b) + 20 * digit(c) + 2 * digit(d) - 2
}

// The number at a place, by how many bytes it has. The byte after it is below 45: no digit and no minus.
pub fn literal_at(s: &[u8], at: usize) -> Literal
    requires { IsNumber s.now (signed_from at (drop at s.now)) }
    ensures { signed_from at (drop at s.now) ≡ Some (Lit result.code result.next) }
{
    let a = s[at];
    let b = s[at + 1];
    if b < 45 {
        return Literal {
            code: code_of(0, 48, 48, a),
            next: at + 1,
        };
    }
    let c = s[at + 2];
    if c < 45 {
        return Literal {
            code: code_of(lead(a, 20), 48, 48, b),
            next: at + 2,
        };
    }
    let d = s[at + 3];
    if d < 45 {
        return Literal {
            code: code_of(lead(a, 200), 48, b, c),
            next: at + 3,
        };
    }
    let e = s[at + 4];
    if e < 45 {
        return Literal {
            code: code_of(lead(a, 2000), b, c, d),
            next: at + 4,
        };
    }
    Literal {
        code: code_of(1 + 2000 * digit(b), c, d, e),
        next: at + 5,
    }
}
