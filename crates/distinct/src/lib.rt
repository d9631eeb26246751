// The distinct users of a clause that Pose will map, and grant a solver index: counted in one pass, and plainly.
// The two ways differ in how a user is known to be new, by its mark or by the literals before; what they share is in `Needs`.
// The watermark and the two maps are parameters of their own, as the C interface lends them.
#![tactic(auto)]

ghost use Rattle.std.specs.Prelude.{◌≡◌, ◌&&◌, ◌||◌, ◌+◌, ◌-◌, ◌^◌, ◌≤◌, ◌<◌, max, ltb, leb, length, get_or, take};
ghost use Rattle.base.specs.Bounded.{any_of};
ghost use Rattle.base.specs.Choice.{pick};
ghost use Rattle.scope.specs.Literals.{index_of};
ghost use Rattle.scope.specs.Distinct.{named, count_named, plain_count, is_low, needs_grant, users_by, Within};
ghost use Rattle.distinct.specs.Users.{needs_by, users_counted};

use scope::{Refusal, User};
use table::{any_outside, global_of, solver_of, word_at};

// What the literals need: unmapped users below the watermark, the watermark after, and solver indices.
#[derive(Clone, Copy)]
pub struct Needs {
    pub low: u32,
    pub top: u32,
    pub grants: u32,
}

// The answer: how many users are to be mapped, and how many to be granted a solver index.
#[derive(Clone, Copy, Debug, PartialEq, Eq)]
pub struct UsersCounted {
    pub users: u32,
    pub grants: u32,
}

// A user that is unmapped, or whose global has no solver index.
fn needs_grant(gu: &[u32], sg: &[u32], user: User) -> bool
    ensures { result ≡ needs_grant gu.now sg.now user.0 }
{
    let Some(g) = global_of(gu, user) else {
        return true;
    };
    solver_of(sg, g).is_none()
}

// An unmapped user below the watermark.
fn is_low(mark: u32, gu: &[u32], user: User) -> bool
    ensures { result ≡ is_low gu.now mark user.0 }
{
    let word = word_at(gu, user.0);
    (user.0 < mark) & (word == 0)
}

impl Needs {
    // No literal yet.
    fn none(mark: u32) -> Needs
        ensures { result ≡ record { low = 0; top = mark; grants = 0 } }
    {
        Needs {
            low: 0,
            top: mark,
            grants: 0,
        }
    }

    // A literal more: the watermark after is above its user.
    fn raised(self, user: User) -> Needs
        requires { user.0 < 4096 }
        ensures { result ≡ record self { top = max self.top (user.0 + 1) } }
    {
        Needs {
            top: self.top.max(user.0 + 1),
            ..self
        }
    }

    // One user more that needs a grant; it counts if it was not seen before.
    fn counted(self, mark: u32, gu: &[u32], user: User, fresh: bool) -> Needs
        requires low_bound { self.low ≤ 8192 }
        requires grants_bound { self.grants ≤ 8192 }
        ensures { result ≡ record self {
          low = self.low + pick (fresh && is_low gu.now mark user.0) 1 0;
          grants = self.grants + pick fresh 1 0;
        } }
    {
        Needs {
            low: self.low + u32::from(fresh & is_low(mark, gu, user)),
            grants: self.grants + u32::from(fresh),
            ..self
        }
    }

    // What it comes to: the users from the watermark up are to be mapped too.
    fn told(self, mark: u32) -> UsersCounted
        requires mark_le_top { mark ≤ self.top }
        requires users_bound { self.low + (self.top - mark) < 2 ^ 32 }
        ensures { result ≡ record { users = self.low + (self.top - mark); grants = self.grants } }
    {
        UsersCounted {
            users: self.low + (self.top - mark),
            grants: self.grants,
        }
    }
}

// What the literals need, in one pass with a mark for each user seen. A user that has a solver index needs nothing and is not marked.
pub fn count_needs(mark: u32, gu: &[u32], sg: &[u32], lits: &[u32]) -> Needs
    requires lits_len_bound { length lits.now ≤ 8192 }
    requires within { Within lits.now 4096 }
    ensures { result ≡ needs_by (count_named 4096) mark gu.now sg.now lits.now }
{
    let mut seen = [0u8; 4096];
    let mut n = Needs::none(mark);
    for code in lits {
        let user = User(*code / 2);
        n = n.raised(user);
        if needs_grant(gu, sg, user) {
            let place = (*code / 2) as usize;
            let fresh = seen[place] == 0;
            n = n.counted(mark, gu, user, fresh);
            seen[place] = 1;
        }
    }
    n
}

// An earlier literal has the user of literal i.
fn named_before(lits: &[u32], i: usize) -> bool
    requires { i < length lits.now }
    ensures { result ≡ named (take i lits.now) (index_of (get_or lits.now i 0)) }
{
    let u = lits[i] / 2;
    lits[..i].iter().any(|code| *code / 2 == u)
}

// The same with no marks: for each literal those before it are gone through.
fn count_needs_plain(mark: u32, gu: &[u32], sg: &[u32], lits: &[u32]) -> Needs
    requires lits_len_bound { length lits.now ≤ 8192 }
    requires within { Within lits.now 4096 }
    ensures { result ≡ needs_by plain_count mark gu.now sg.now lits.now }
{
    let mut n = Needs::none(mark);
    for (i, code) in lits.iter().enumerate() {
        let user = User(*code / 2);
        let fresh = !named_before(lits, i);
        n = n.raised(user);
        if needs_grant(gu, sg, user) {
            n = n.counted(mark, gu, user, fresh);
        }
    }
    n
}

// What the literals need: those of a short clause are counted plainly, since then no list is cleared.
pub fn needs_of(mark: u32, gu: &[u32], sg: &[u32], lits: &[u32]) -> Needs
    requires lits_len_bound { length lits.now ≤ 8192 }
    requires within { Within lits.now 4096 }
    ensures { result ≡ needs_by (count_named 4096) mark gu.now sg.now lits.now }
{
    if lits.len() <= 12 {
        return count_needs_plain(mark, gu, sg, lits);
    }
    count_needs(mark, gu, sg, lits)
}

// More than 8,192 literals, or an index of 4,096 or more.
fn out_of_range(lits: &[u32]) -> bool
    ensures { result ≡ ltb 8192 (length lits.now) || any_of (λ c. leb 4096 (index_of c)) lits.now }
{
    (8192 < lits.len()) | any_outside(4096, lits)
}

// How many users Pose would map, and grant a solver index, by the user watermark and the two maps: `users_by (count_named 4096)`; 3.
pub fn users_to_map(
    mark: u32,
    gu: &[u32],
    sg: &[u32],
    lits: &[u32],
) -> Result<UsersCounted, Refusal>
    ensures { users_counted result ≡ users_by (count_named 4096) mark gu.now sg.now lits.now }
{
    if out_of_range(lits) {
        return Err(Refusal::OutOfRange);
    }
    let n = count_needs(mark, gu, sg, lits);
    Ok(n.told(mark))
}

// The same, counted plainly: `users_by plain_count`; 3.
pub fn users_to_map_plain(
    mark: u32,
    gu: &[u32],
    sg: &[u32],
    lits: &[u32],
) -> Result<UsersCounted, Refusal>
    ensures { users_counted result ≡ users_by plain_count mark gu.now sg.now lits.now }
{
    if out_of_range(lits) {
        return Err(Refusal::OutOfRange);
    }
    let n = count_needs_plain(mark, gu, sg, lits);
    Ok(n.told(mark))
}
