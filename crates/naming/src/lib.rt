// Map and New user. How the contracts read: crates/scope/specs/Contract.antt.
// The lists of a table are parameters of their own: each call lends by `&mut` only what it may change.
#![tactic(auto)]

ghost use Rattle.std.specs.Prelude.{◌≡◌, true, ◌+◌, ◌-◌, ◌<◌, length, get_or};
ghost use Rattle.base.specs.Bounded.{least};
ghost use Rattle.base.specs.Lent.{change, constant};
ghost use Rattle.scope.specs.Contract.{given, lent, Meets};
ghost use Rattle.scope.specs.Table.{Table, word};
ghost use Rattle.scope.specs.Map.{map_refusal, map_of, new_user_refusal, new_user_of};
ghost use Rattle.scope.specs.Refusals.{refused_by};
ghost use Rattle.scope.specs.Sound.{soundb};
ghost use Rattle.scope.specs.Cursor.{NoneFree, AllMapped};
ghost use Rattle.table.specs.Lists.{seen};
ghost use Rattle.changes.specs.AtOnce.{AtOnce, global_found};
ghost use Rattle.naming.specs.Answers.{user_mapped, new_user_mapped};
ghost use Rattle.mapping.specs.Parts.{free};
ghost use Rattle.naming.specs.Parts.{is_unsampled, MapBelow};

use mapping::{counts_after, map_last, map_user};
use scope::{Counts, Global, Refusal, User, least_free};
use table::{Lists, global_of};

// The answer of Map: the global, the counts and how many notes were written.
#[derive(Clone, Copy)]
pub struct UserMapped {
    pub global: Global,
    pub counts: Counts,
    pub notes: u32,
}

// The answer of New user: the user, its global, the counts and how many notes were written.
#[derive(Clone, Copy)]
pub struct NewUser {
    pub user: User,
    pub global: Global,
    pub counts: Counts,
    pub notes: u32,
}

// The user has a global, and that is not Sample.
pub fn is_unsampled(gu: &[u32], records: &[u32], user: User) -> bool
    requires { MapBelow gu.now (length records.now) }
    ensures { result ≡ is_unsampled gu.now records.now user.0 }
{
    let Some(g) = global_of(gu, user) else {
        return false;
    };
    records[g.0 as usize] % 3 != 0
}

// How many users are to be mapped for a user, the gap included.
fn to_map(gu: &[u32], mark: u32, user: User) -> u32
    requires { user.0 < 4096 }
    ensures { result ≡ word (user.0 - mark + 1) (λ g. 0) (get_or gu.now user.0 0) }
{
    match global_of(gu, user) {
        Some(_) => 0,
        None => user.0.saturating_sub(mark) + 1,
    }
}

// The first refusal of Map that applies to a sound table.
fn map_refusal(t: &Lists, user: User, sampling: bool, room: usize) -> Result<(), Refusal>
    requires { soundb (seen t.now) ≡ true }
    ensures { refused_by result ≡ map_refusal (seen t.now) user.0 sampling room }
{
    let c = t.counts;
    if c.capacity <= user.0 {
        return Err(Refusal::OutOfRange);
    }
    if sampling & is_unsampled(t.gu, t.records, user) {
        return Err(Refusal::NotSampled);
    }
    let n = to_map(t.gu, c.user, user);
    if c.capacity < c.used + n {
        return Err(Refusal::NoRoom);
    }
    if room < 3 * (n as usize) {
        return Err(Refusal::Short);
    }
    Ok(())
}

// Map (01, `global_from_user`; refusals 1, 3, 4, 5, 2): the user's global, or a mapping, the gap below the user first.
// Definition: crates/scope/specs/Map.antt, `map_of`; its answer: specs/Answers.antt, `user_mapped`.
pub fn global_from_user(
    c: Counts,
    gu: &mut [u32],
    ug: &mut [u32],
    sg: &[u32],
    gs: &[u32],
    assignment: &[u32],
    records: &mut [u32],
    user: User,
    sampling: bool,
    notes: &mut [u32],
) -> Result<UserMapped, Refusal>
    ensures { Meets (λ t room. map_of t user.0 sampling room) (user_mapped result c)
        (lent c (change gu.old gu.new) (change ug.old ug.new) (constant sg.now) (constant gs.now)
        (constant assignment.now) (change records.old records.new) (change notes.old notes.new)) }
{
    let t = Lists {
        counts: c,
        gu,
        ug,
        sg,
        gs,
        assignment,
        records,
    };
    t.check_sound()?;
    known_global_from_user(
        c, gu, ug, sg, gs, assignment, records, user, sampling, 0, notes,
    )
}

// Map on a table known to be sound, which is not tested. A free global is searched from `gfrom` on: no global below is deleted.
// The same definition and answer.
pub fn known_global_from_user(
    c: Counts,
    gu: &mut [u32],
    ug: &mut [u32],
    sg: &[u32],
    gs: &[u32],
    assignment: &[u32],
    records: &mut [u32],
    user: User,
    sampling: bool,
    gfrom: u32,
    notes: &mut [u32],
) -> Result<UserMapped, Refusal>
    requires records_value { soundb (given c gu.old ug.old sg.now gs.now assignment.now records.old) ≡ true }
    requires none_free { NoneFree (free records.old) c.global gfrom }
    ensures { Meets (λ t room. map_of t user.0 sampling room) (user_mapped result c)
        (lent c (change gu.old gu.new) (change ug.old ug.new) (constant sg.now) (constant gs.now)
        (constant assignment.now) (change records.old records.new) (change notes.old notes.new)) }
{
    let room = notes.len();
    let t = Lists {
        counts: c,
        gu,
        ug,
        sg,
        gs,
        assignment,
        records,
    };
    map_refusal(&t, user, sampling, room)?;
    let m = map_user(
        c.capacity, c.user, c.global, c.used, gu, ug, records, user, gfrom, 0, notes,
    );
    let counts = counts_after(c, m);
    let made = (m.at / 3) as u32;
    Ok(UserMapped {
        global: m.global,
        counts,
        notes: made,
    })
}

// Map of a user that is mapped already, in the two lists that it reads, of a table known to be sound: the global, where the call is accepted and
// makes no note; nothing, where it is refused or makes one. Any words may be lent. Definition: crates/changes/specs/AtOnce.antt, `AtOnce`.
pub fn map_in(gu: &[u32], records: &[u32], user: User, sampling: bool) -> Option<Global>
    ensures { (t : Table) → soundb t ≡ true → t.global_from_user ≡ gu.now → t.records ≡ records.now
        → AtOnce (λ room. map_of t user.0 sampling room) t (global_found result) }
{
    let g = global_of(gu, user)?;
    if !sampling {
        return Some(g);
    }
    let w = records.get(g.0 as usize)?;
    if *w % 3 != 0 {
        return None;
    }
    Some(g)
}

// The first refusal of New user that applies to a sound table.
fn new_user_refusal(t: &Lists, room: usize) -> Result<(), Refusal>
    requires { soundb (seen t.now) ≡ true }
    ensures { refused_by result ≡ new_user_refusal (seen t.now) room }
{
    let c = t.counts;
    if c.capacity < c.used + 1 {
        return Err(Refusal::NoRoom);
    }
    if room < 3 {
        return Err(Refusal::Short);
    }
    Ok(())
}

// New user (01, `new_user_var`; refusals 1, 5, 2): the least unmapped user is mapped.
// Definition: crates/scope/specs/Map.antt, `new_user_of`; its answer: specs/Answers.antt, `new_user_mapped`.
pub fn new_user_var(
    c: Counts,
    gu: &mut [u32],
    ug: &mut [u32],
    sg: &[u32],
    gs: &[u32],
    assignment: &[u32],
    records: &mut [u32],
    notes: &mut [u32],
) -> Result<NewUser, Refusal>
    ensures { Meets (λ t room. new_user_of t room) (new_user_mapped result c)
        (lent c (change gu.old gu.new) (change ug.old ug.new) (constant sg.now) (constant gs.now)
        (constant assignment.now) (change records.old records.new) (change notes.old notes.new)) }
{
    let t = Lists {
        counts: c,
        gu,
        ug,
        sg,
        gs,
        assignment,
        records,
    };
    t.check_sound()?;
    known_new_user_var(c, gu, ug, sg, gs, assignment, records, 0, 0, notes)
}

// New user on a table known to be sound, which is not tested. The least unmapped user is searched from `ufrom` on, since every user below is
// mapped, and a free global from `gfrom` on: no global below is deleted. The same definition and answer.
pub fn known_new_user_var(
    c: Counts,
    gu: &mut [u32],
    ug: &mut [u32],
    sg: &[u32],
    gs: &[u32],
    assignment: &[u32],
    records: &mut [u32],
    ufrom: u32,
    gfrom: u32,
    notes: &mut [u32],
) -> Result<NewUser, Refusal>
    requires records_value { soundb (given c gu.old ug.old sg.now gs.now assignment.now records.old) ≡ true }
    requires all_mapped { AllMapped gu.old c.user ufrom }
    requires none_free { NoneFree (free records.old) c.global gfrom }
    ensures { Meets (λ t room. new_user_of t room) (new_user_mapped result c)
        (lent c (change gu.old gu.new) (change ug.old ug.new) (constant sg.now) (constant gs.now)
        (constant assignment.now) (change records.old records.new) (change notes.old notes.new)) }
{
    let room = notes.len();
    let t = Lists {
        counts: c,
        gu,
        ug,
        sg,
        gs,
        assignment,
        records,
    };
    new_user_refusal(&t, room)?;
    let user = User(least_free(gu, c.user, ufrom));
    let m = map_last(
        c.capacity, c.user, c.global, c.used, gu, ug, records, user, gfrom, 0, notes,
    );
    let counts = counts_after(c, m);
    let made = (m.at / 3) as u32;
    Ok(NewUser {
        user,
        global: m.global,
        counts,
        notes: made,
    })
}
