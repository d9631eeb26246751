// What stands at a place of a line.
ghost use Rattle.std.specs.Prelude.{◌≡◌, ◌+◌, eqb, get_or, drop};
ghost use Rattle.base.specs.Choice.{pick};
ghost use Rattle.drat.specs.declared.Token.TheVariants.{Lit};
ghost use Rattle.dimacs.specs.Reading.{line_from};

use drat::Token;
use drat_scan::place::signed_at;

// The blank after a number.
fn spaced(s: &[u8], code: u32, end: usize) -> Option<Token>
    ensures { result ≡ pick (eqb (get_or s.now end 0) 32) (Some (Lit code (end + 1))) None }
{
    if s.len() <= end {
        return None;
    }
    if s[end] == 32 {
        return Some(Token::Lit(code, end + 1));
    }
    None
}

// A number and the blank after it, or `0` and the line feed. The arms stand one by one: of a `_` it would have to be shown what it is not.
pub(crate) fn line_at(s: &[u8], at: usize) -> Option<Token>
    ensures { result ≡ line_from at (drop at s.now) }
{
    if s.len() <= at {
        return None;
    }
    let b = s[at];
    if b == 48 {
        let j = at + 1;
        if s.len() <= j {
            return None;
        }
        if s[j] == 10 {
            return Some(Token::Stop(j + 1));
        }
        return None;
    }
    match signed_at(s, at) {
        Some(Token::Lit(code, end)) => spaced(s, code, end),
        Some(Token::Stop(_)) => None,
        None => None,
    }
}
