// The mapping of users inside a call: which global a user gets, and the gap below it.
// The four counts go through as numbers: as a struct they go through memory, and the gap fill took 1.24 to 1.98 of varisat's time.
// Lists, notes and the place in them are parameters of their own: each function lends by `&mut` only what it may change.
#![tactic(auto)]

ghost use Rattle.std.specs.Prelude.{◌≡◌, ◌∷◌, [], ◌+◌, ◌^◌, ◌≤◌, ◌<◌, length, get_or, set};
ghost use Rattle.base.specs.Bounded.{least};
ghost use Rattle.base.specs.Lent.{Fills, change};
ghost use Rattle.scope.specs.Table.{map_counts};
ghost use Rattle.scope.specs.Cursor.{NoneFree};
ghost use Rattle.mapping.specs.Parts.{free, free_for};
ghost use Rattle.mapping.specs.Asks.{Rest, counts_with, counts_after, UpAsks, UpLeaves};

use scope::{Counts, Global, Note, User};
use table::{global_of, put_note};

// A global and the cursor of free globals after its search.
#[derive(Clone, Copy)]
pub struct Taken {
    pub global: Global,
    pub from: u32,
}

// A user's global, with what a mapping changes besides: the watermarks of users and of globals, how many globals are undeleted, the cursor
// of free globals and the place in the notes.
#[derive(Clone, Copy)]
pub struct Mapped {
    pub users: u32,
    pub globals: u32,
    pub used: u32,
    pub global: Global,
    pub from: u32,
    pub at: usize,
}

// The least deleted global below the mark, else the mark; below `from` there is none. Beside `least_free`, which tests for 0: one over a closure
// would say of it in each contract what `NoneFree` and `least` say of a test here.
fn least_deleted(records: &[u32], mark: u32, from: u32) -> u32
    requires mark_in_bounds { mark ≤ length records.now }
    requires none_free { NoneFree (free records.now) mark from }
    ensures { result ≡ least mark (free records.now) }
{
    for i in from..mark {
        if 36 <= records[i as usize] {
            return i;
        }
    }
    mark
}

// The global taken for a user.
fn global_for(records: &[u32], mark: u32, user: User, from: u32) -> Taken
    requires mark_in_bounds { mark ≤ length records.now }
    requires user_in_bounds { user.0 < length records.now }
    requires none_free { NoneFree (free records.now) mark from }
    ensures global_value { result.global.0 ≡ free_for records.now mark user.0 }
    ensures none_free_2 { NoneFree (free records.now) mark result.from }
{
    let u = user.0;
    if (u == mark) | (36 <= records[u as usize]) {
        return Taken {
            global: Global(u),
            from,
        };
    }
    let g = least_deleted(records, mark, from);
    Taken {
        global: Global(g),
        from: g,
    }
}

// One unmapped user, whose gap below is closed, gets the global taken for it. Its record becomes 9; note U.
fn map_one(
    capacity: u32,
    users: u32,
    globals: u32,
    used: u32,
    gu: &mut [u32],
    ug: &mut [u32],
    records: &mut [u32],
    user: User,
    taken: Taken,
    at: usize,
    notes: &mut [u32],
) -> Mapped
    requires user_in_bounds { user.0 < length gu.old }
    requires user_lt_capacity { user.0 < capacity }
    requires used_bound { used + 1 < 2 ^ 32 }
    requires global_in_bounds { taken.global.0 < length ug.old }
    requires global_in_bounds_2 { taken.global.0 < length records.old }
    requires global_lt_capacity { taken.global.0 < capacity }
    requires at_in_bounds { at + 3 ≤ length notes.old }
    ensures global_value { result.global ≡ taken.global }
    ensures from_value { result.from ≡ taken.from }
    ensures counts_value { (x : Rest) → counts_with capacity result.users result.globals result.used x
        ≡ map_counts (counts_with capacity users globals used x) user.0 taken.global.0 (get_or records.old taken.global.0 47) }
    ensures at_value { result.at ≡ at + 3 }
    ensures gu_value { gu.new ≡ set gu.old user.0 (taken.global.0 + 1) }
    ensures ug_value { ug.new ≡ set ug.old taken.global.0 (user.0 + 1) }
    ensures records_value { records.new ≡ set records.old taken.global.0 9 }
    ensures noted { Fills (change notes.old notes.new) at (0 ∷ taken.global.0 ∷ (user.0 + 1) ∷ []) }
{
    let global = taken.global;
    let past = at + 3;
    put_note(notes, at, Note::UserGranted(global, user));
    let c = Counts {
        capacity,
        user: users,
        global: globals,
        solver: 0,
        used,
        next: 0,
    };
    let counts = c.map(gu, ug, records, user, global, 9);
    Mapped {
        users: counts.user,
        globals: counts.global,
        used: counts.used,
        global,
        from: taken.from,
        at: past,
    }
}

// The global of a user of a sound table with no gap below it: the one it has, else a free one, searched from the cursor on. What it changes of the
// counts goes in by value and comes back new, as plain numbers, which fit in registers. The solver maps, their two counts and the assignment are
// not lent and may be any.
pub fn map_last(
    capacity: u32,
    users: u32,
    globals: u32,
    used: u32,
    gu: &mut [u32],
    ug: &mut [u32],
    records: &mut [u32],
    user: User,
    from: u32,
    at: usize,
    notes: &mut [u32],
) -> Mapped
    requires up_asks { UpAsks capacity users globals used gu.old ug.old records.old user.0 at (length notes.old) }
    requires user_le_users { user.0 ≤ users }
    requires none_free { NoneFree (free records.old) globals from }
    ensures up_leaves { UpLeaves capacity users globals used gu.old ug.old records.old user.0 at
        result gu.new ug.new records.new notes.old notes.new }
    ensures none_free_2 { NoneFree (free records.new) result.globals result.from }
{
    let Some(global) = global_of(gu, user) else {
        let taken = global_for(records, globals, user, from);
        return map_one(
            capacity, users, globals, used, gu, ug, records, user, taken, at, notes,
        );
    };
    Mapped {
        users,
        globals,
        used,
        global,
        from,
        at,
    }
}

// The same after the gap below the user, which is filled by the function itself; in each turn the counts go in and come back so too.
pub fn map_up(
    capacity: u32,
    users: u32,
    globals: u32,
    used: u32,
    gu: &mut [u32],
    ug: &mut [u32],
    records: &mut [u32],
    user: User,
    from: u32,
    at: usize,
    notes: &mut [u32],
) -> Mapped
    requires up_asks { UpAsks capacity users globals used gu.old ug.old records.old user.0 at (length notes.old) }
    requires none_free { NoneFree (free records.old) globals from }
    ensures up_leaves { UpLeaves capacity users globals used gu.old ug.old records.old user.0 at
        result gu.new ug.new records.new notes.old notes.new }
    ensures none_free_2 { NoneFree (free records.new) result.globals result.from }
{
    let mut a = users;
    let mut b = globals;
    let mut n = used;
    let mut k = from;
    let mut past = at;
    for i in users..user.0 {
        let v = User(i);
        let m = map_up(capacity, a, b, n, gu, ug, records, v, k, past, notes);
        a = m.users;
        b = m.globals;
        n = m.used;
        k = m.from;
        past = m.at;
    }
    map_last(capacity, a, b, n, gu, ug, records, user, k, past, notes)
}

// The same. Where there is no gap it does not go through the recursion, which is not compiled into what calls it.
pub fn map_user(
    capacity: u32,
    users: u32,
    globals: u32,
    used: u32,
    gu: &mut [u32],
    ug: &mut [u32],
    records: &mut [u32],
    user: User,
    from: u32,
    at: usize,
    notes: &mut [u32],
) -> Mapped
    requires up_asks { UpAsks capacity users globals used gu.old ug.old records.old user.0 at (length notes.old) }
    requires none_free { NoneFree (free records.old) globals from }
    ensures up_leaves { UpLeaves capacity users globals used gu.old ug.old records.old user.0 at
        result gu.new ug.new records.new notes.old notes.new }
    ensures none_free_2 { NoneFree (free records.new) result.globals result.from }
{
    if users < user.0 {
        return map_up(
            capacity, users, globals, used, gu, ug, records, user, from, at, notes,
        );
    }
    map_last(
        capacity, users, globals, used, gu, ug, records, user, from, at, notes,
    )
}

// The counts after a mapping.
pub fn counts_after(c: Counts, m: Mapped) -> Counts
    ensures { result ≡ counts_after c m }
{
    Counts {
        user: m.users,
        global: m.globals,
        used: m.used,
        ..c
    }
}
