// The scan: all steps in turn, up to the first fault.
ghost use Rattle.std.specs.Prelude.{◌≡◌, ◌≤◌, length, drop};
ghost use Rattle.drat.specs.Filled.{counted, end_of};
ghost use Rattle.drat.specs.Reading.{token, one_step, read_proof};

use crate::place::{binary_token, opening_at, past, text_token};
use drat::{Format, Size, Token};

// What stands at a place inside a step.
#[inline(always)]
fn token_at(f: Format, s: &[u8], at: usize) -> Option<Token>
    ensures { result ≡ token f at (drop at s.now) }
{
    match f {
        Format::Text => text_token(s, at),
        Format::Binary => binary_token(s, at),
    }
}

// The number of literals and of steps, or the start of the first step that is not whole. Between steps `at` is the place of a first token.
// The loops and the labelled exit are as document 01 names them; each turn goes on by a token.
pub fn scan(f: Format, s: &[u8]) -> Result<Size, usize>
    ensures { result ≡ counted (read_proof f s.now) }
{
    let mut at = past(f, s, 0);
    let mut n: usize = 0;
    let mut m: usize = 0;
    let place = 'steps: loop {
        if s.len() <= at {
            break at;
        }
        let start = at;
        let Some((_, first)) = opening_at(f, s, at) else {
            break 'steps start;
        };
        at = first;
        loop {
            match token_at(f, s, at) {
                Some(Token::Lit(_, next)) => {
                    n += 1;
                    at = next;
                }
                Some(Token::Stop(next)) => {
                    at = past(f, s, next);
                    break;
                }
                None => break 'steps start,
            }
        }
        m += 1;
    };
    if place < s.len() {
        Err(place)
    } else {
        Ok(Size { lits: n, steps: m })
    }
}

// The place after the step that starts at a place, or that place itself where no whole step stands there. Each turn goes on by a token.
pub fn step_end(f: Format, s: &[u8], start: usize) -> usize
    requires { start ≤ length s.now }
    ensures { (result ≡ end_of start (one_step f start (drop start s.now))) × (result ≤ length s.now) }
{
    let Some((_, first)) = opening_at(f, s, start) else {
        return start;
    };
    let mut at = first;
    loop {
        match token_at(f, s, at) {
            Some(Token::Lit(_, next)) => {
                at = next;
            }
            Some(Token::Stop(next)) => return next,
            None => return start,
        }
    }
}
