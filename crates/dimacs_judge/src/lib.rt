// Judging by neighbours: whether the bytes from a place on are clause lines, and how many literals and clauses they then are.
// No state goes from byte to byte, so that the loops take many bytes at once.
#![tactic(auto)]

ghost use Rattle.std.specs.Prelude.{◌≡◌, ◌&&◌, ◌≤◌, length, IfSome};
ghost use Rattle.dimacs.specs.Reading.{clauses_at};
ghost use Rattle.dimacs.specs.Calls.{tallied};
ghost use Rattle.dimacs_judge.specs.Local.{line_next, may_follow, runs_at};

use drat::Size;
use drat_judge::{choose, in_range, is_closing, is_near, tally_of};
use limit::{Limit, is_above, limit_of};

mod limit;

// Whether x may stand after c p, whatever the numbers are.
fn line_next(c: u8, p: u8, x: u8) -> bool
    ensures { result ≡ line_next c p x }
{
    let feed = x == 10;
    let closing = is_closing(c, p);
    let known = in_range(x, 48, 57) | (feed | choose(is_near(p), x == 32, x == 45));
    let unsigned = !((p == 45) & !in_range(x, 49, 127));
    known & (unsigned & choose(feed, closing, !closing))
}

// Whether x may stand after a b c p.
fn next(t: Limit, a: u8, b: u8, c: u8, p: u8, x: u8) -> bool
    requires { (t.tens ≤ 56) × (t.hundreds ≤ 56) × (t.thousands ≤ 56) }
    ensures { result ≡ may_follow t a b c p x }
{
    line_next(c, p, x) & !is_above(t, a, b, c, p, x)
}

// The bytes from one place to another.
fn part_runs(t: Limit, s: &[u8], from: usize, to: usize) -> bool
    requires tens_bound { (t.tens ≤ 56) × (t.hundreds ≤ 56) × (t.thousands ≤ 56) }
    requires le_from { 4 ≤ from }
    requires from_le_to { from ≤ to }
    requires to_in_bounds { to ≤ length s.now }
    ensures { result && runs_at t s.now to ≡ runs_at t s.now from }
{
    let mut ok = true;
    for i in from..to {
        ok &= next(t, s[i - 4], s[i - 3], s[i - 2], s[i - 1], s[i]);
    }
    ok
}

// All bytes from a place on, and the end. In parts: a fault ends the judging with its part.
fn lines_run(t: Limit, s: &[u8], from: usize) -> bool
    requires tens_bound { (t.tens ≤ 56) × (t.hundreds ≤ 56) × (t.thousands ≤ 56) }
    requires le_from { 4 ≤ from }
    requires from_in_bounds { from ≤ length s.now }
    ensures { result ≡ runs_at t s.now from }
{
    let n = s.len();
    for i in (from..n).step_by(4096) {
        if !part_runs(t, s, i, n.min(i + 4096)) {
            return false;
        }
    }
    s[n - 1] == 10
}

// The numbers of literals and of clauses, where all lines are judged right; what is judged so is read so. Of other lines nothing is said.
pub fn judge(s: &[u8], from: usize, v: u32) -> Option<Size>
    requires { from ≤ length s.now }
    ensures { IfSome result (λ w. tallied (clauses_at s.now v from) ≡ Ok w) }
{
    if from < 4 || 4096 < v || s[from - 1] != 10 {
        return None;
    }
    if !lines_run(limit_of(v), s, from) {
        return None;
    }
    let lines = &s[from..];
    Some(Size {
        lits: tally_of(lines, 32, 32),
        steps: tally_of(lines, 10, 10),
    })
}
