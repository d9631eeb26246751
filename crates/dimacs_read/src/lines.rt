// The lines of the clauses: how many literals and clauses they are, or where the first wrong one starts.
ghost use Rattle.std.specs.Prelude.{◌≡◌, ◌≤◌, length, drop};
ghost use Rattle.dimacs.specs.Reading.{line_from, within, clauses_at};
ghost use Rattle.dimacs.specs.Calls.{tallied};

use crate::place::line_at;
use dimacs_judge::judge;
use drat::{Size, Token};

// What stands at a place of a line, where no magnitude is above v. The arms stand one by one: of a `_` it would have to be shown what it is not.
fn token_at(s: &[u8], at: usize, v: u32) -> Option<Token>
    ensures { result ≡ within v (line_from at (drop at s.now)) }
{
    match line_at(s, at) {
        Some(Token::Lit(code, next)) => {
            if code / 2 + 1 <= v {
                return Some(Token::Lit(code, next));
            }
            None
        }
        Some(Token::Stop(next)) => Some(Token::Stop(next)),
        None => None,
    }
}

// The lines from a place on, token after token. Answers the number of literals and of clauses, or the start of the first wrong line.
fn scan(s: &[u8], from: usize, v: u32) -> Result<Size, usize>
    requires { from ≤ length s.now }
    ensures { result ≡ tallied (clauses_at s.now v from) }
{
    let mut at = from;
    let mut start = from;
    let mut n: usize = 0;
    let mut m: usize = 0;
    while at < s.len() {
        match token_at(s, at, v) {
            Some(Token::Lit(_, next)) => {
                n += 1;
                at = next;
            }
            Some(Token::Stop(next)) => {
                m += 1;
                at = next;
                start = next;
            }
            None => return Err(start),
        }
    }
    if start == at {
        return Ok(Size { lits: n, steps: m });
    }
    Err(start)
}

// The same: only a fault is looked for token by token.
pub(crate) fn count(s: &[u8], from: usize, v: u32) -> Result<Size, usize>
    requires { from ≤ length s.now }
    ensures { result ≡ tallied (clauses_at s.now v from) }
{
    match judge(s, from, v) {
        Some(size) => Ok(size),
        None => scan(s, from, v),
    }
}
