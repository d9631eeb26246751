// What stands at a place of the input: separators, a literal, a step's end, how a step opens.
ghost use Rattle.std.specs.Prelude.{◌≡◌, ◌+◌, ◌≤◌, eqb, length, get_or, drop};
ghost use Rattle.base.specs.Choice.{pick};
ghost use Rattle.drat.specs.Reading.{numbered, digits_from, signed_from, sep, seps, lead, leb_from, close_from, token, gap_from, opening};
ghost use Rattle.drat.specs.declared.Format.TheVariants.{Text, Binary};
ghost use Rattle.drat.specs.declared.Token.TheVariants.{Lit};

use drat::{Format, Kind, Token};

// Whether a byte separates tokens of text.
fn is_sep(b: u8) -> bool
    ensures { result ≡ sep b }
{
    (b == 32) | (b == 10)
}

// The place after the separators from a place on.
pub fn past_seps(s: &[u8], at: usize) -> usize
    ensures { (result ≡ at + seps (drop at s.now)) × (at ≤ length s.now → result ≤ length s.now) }
{
    for i in at..s.len() {
        if !is_sep(s[i]) {
            return i;
        }
    }
    at.max(s.len())
}

// The place after the bytes that may be passed before a step.
pub fn past(f: Format, s: &[u8], at: usize) -> usize
    ensures { result ≡ at + lead f (drop at s.now) }
{
    match f {
        Format::Text => past_seps(s, at),
        Format::Binary => at,
    }
}

// 1 for a minus, without a branch: where signs mix it would be mispredicted.
fn minus(b: u8) -> u32
    ensures { (result ≡ pick (eqb b 45) 1 0) × (result ≤ 1) }
{
    if b == 45 { 1 } else { 0 }
}

// The literal whose number is v.
fn literal(sign: u32, v: u32, at: usize) -> Option<Token>
    requires sign_bound { sign ≤ 1 }
    requires v_bound { v ≤ 4096 }
    ensures { result ≡ numbered sign v at }
{
    if v == 0 {
        return None;
    }
    Some(Token::Lit(2 * (v - 1) + sign, at))
}

// The longest run of decimal digits from a place on, and the place of the byte after it.
fn decimal_at(s: &[u8], at: usize, sign: u32) -> Option<Token>
    requires sign_bound { sign ≤ 1 }
    requires at_in_bounds { at ≤ length s.now }
    ensures { result ≡ digits_from sign 0 at (drop at s.now) }
{
    let mut v: u32 = 0;
    for i in at..s.len() {
        let b = s[i] as u32;
        if b < 48 {
            return literal(sign, v, i);
        }
        if 57 < b {
            return literal(sign, v, i);
        }
        let w = 10 * v + (b - 48);
        if w == 0 {
            return None;
        }
        if 4096 < w {
            return None;
        }
        v = w;
    }
    literal(sign, v, s.len())
}

// A literal's number from a place on, and the place of the byte after it.
pub fn signed_at(s: &[u8], at: usize) -> Option<Token>
    ensures { result ≡ signed_from at (drop at s.now) }
{
    let sign = minus(*s.get(at)?);
    decimal_at(s, at + sign as usize, sign)
}

// The separators after a number, at least one.
fn gap_after(s: &[u8], code: u32, end: usize) -> Option<Token>
    ensures { result ≡ pick (sep (get_or s.now end 0)) (Some (Lit code (end + seps (drop end s.now)))) None }
{
    if is_sep(*s.get(end)?) {
        return Some(Token::Lit(code, past_seps(s, end + 1)));
    }
    None
}

// The end of a text step, from the place after its 0: a separator or the end of the input.
fn close_at(s: &[u8], at: usize) -> Option<Token>
    ensures { result ≡ close_from at (drop at s.now) }
{
    if s.len() <= at {
        return Some(Token::Stop(at));
    }
    if is_sep(s[at]) {
        return Some(Token::Stop(at));
    }
    None
}

// What stands at a place inside a text step. The arms stand one by one: of a `_` it would have to be shown what it is not.
pub(crate) fn text_token(s: &[u8], at: usize) -> Option<Token>
    ensures { result ≡ token Text at (drop at s.now) }
{
    if *s.get(at)? == 48 {
        return close_at(s, at + 1);
    }
    match signed_at(s, at) {
        Some(Token::Lit(code, end)) => gap_after(s, code, end),
        Some(Token::Stop(_)) => None,
        None => None,
    }
}

// LEB128 bytes from a place on.
fn leb_at(s: &[u8], at: usize) -> Option<Token>
    ensures { result ≡ leb_from 0 1 at (drop at s.now) }
{
    let mut v: u32 = 0;
    let mut w: u32 = 1;
    for i in at..s.len() {
        let b = s[i] as u32;
        if b < 128 {
            if b == 0 {
                return None;
            }
            let n = v + w * b;
            if n < 2 {
                return None;
            }
            if 8193 < n {
                return None;
            }
            return Some(Token::Lit(n - 2, i + 1));
        }
        if 64 < w {
            return None;
        }
        v = v + w * (b - 128);
        w = w * 128;
    }
    None
}

// What stands at a place inside a binary step.
pub(crate) fn binary_token(s: &[u8], at: usize) -> Option<Token>
    ensures { result ≡ token Binary at (drop at s.now) }
{
    if *s.get(at)? == 0 {
        return Some(Token::Stop(at + 1));
    }
    leb_at(s, at)
}

// The separators after a text step's `d`, at least one.
fn gap_at(s: &[u8], at: usize) -> Option<(Kind, usize)>
    ensures { result ≡ gap_from at (drop at s.now) }
{
    if is_sep(*s.get(at)?) {
        return Some((Kind::Delete, past_seps(s, at + 1)));
    }
    None
}

// How the step at a place opens.
pub(crate) fn opening_at(f: Format, s: &[u8], at: usize) -> Option<(Kind, usize)>
    ensures { result ≡ opening f at (drop at s.now) }
{
    let b = *s.get(at)?;
    match f {
        Format::Text => {
            if b == 100 {
                return gap_at(s, at + 1);
            }
            Some((Kind::Add, at))
        }
        Format::Binary => {
            if b == 97 {
                return Some((Kind::Add, at + 1));
            }
            if b == 100 {
                return Some((Kind::Delete, at + 1));
            }
            None
        }
    }
}
