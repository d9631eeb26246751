// Set mode and Observe. How the contracts read: crates/scope/specs/Contract.antt, and inside a call crates/changes/specs/Leaves.antt.
// Lists of which some are written stay parameters of their own: a `&mut` lends only what may change, and by type the rest stays.
#![tactic(auto)]

ghost use Rattle.std.specs.Prelude.{◌≡◌, true, ◌&&◌, not, List, ◌∷◌, [], ℕ, Ok, ◌≤◌, ◌<◌, eqb, length, get_or, set};
ghost use Rattle.base.specs.Choice.{pick};
ghost use Rattle.base.specs.Bounded.{all_below, count};
ghost use Rattle.base.specs.Lent.{Fills, change, constant};
ghost use Rattle.scope.specs.Contract.{given, lent, Does, Meets};
ghost use Rattle.scope.specs.Sound.{soundb};
ghost use Rattle.scope.specs.Refusals.{refused_by};
ghost use Rattle.scope.specs.Table.{table_of, assumed_of, with_mode, least_free};
ghost use Rattle.scope.specs.Outcome.{noting};
ghost use Rattle.scope.specs.Modes.{mode_number, show, hide, set_mode, set_mode_refusal, set_mode_of, is_hidden, observe_one, observe, observe_refusal, observe_of};
ghost use Rattle.scope.specs.Cursor.{AllMapped};
ghost use Rattle.changes.specs.Leaves.{Leaves};
ghost use Rattle.changes.specs.Solvers.{Solvers, table_with};
ghost use Rattle.table.specs.Lists.{seen};
ghost use Rattle.modes.specs.Asks.{ShowAsks, HideAsks, SetAsks, UsersFilled, ObserveAsks, ObserveAllAsks};
ghost use Rattle.modes.specs.Counting.{mode_notes};
ghost use Rattle.modes.specs.Answers.{mode_set, observed};

use changes::{Passed, delete_global_if_unused};
use scope::{Counts, Global, Note, Refusal, SamplingMode, User, least_free};
use table::{Lists, count_words, put_note};

// The user granted, if one was, the counts after, and how many notes were made.
#[derive(Clone, Copy)]
pub struct ModeSet {
    pub user: Option<User>,
    pub counts: Counts,
    pub notes: u32,
}

// How many users were filled, the counts after, and how many notes were made.
#[derive(Clone, Copy)]
pub struct Observed {
    pub users: u32,
    pub counts: Counts,
    pub notes: u32,
}

// The user of a global that was shown, the counts after, and the place after the notes.
#[derive(Clone, Copy)]
pub struct Revealed {
    pub user: User,
    pub after: Passed,
}

fn is_sample(mode: SamplingMode) -> bool
    ensures { result ≡ eqb (mode_number mode) 0 }
{
    matches!(mode, SamplingMode::Sample)
}

fn is_hide(mode: SamplingMode) -> bool
    ensures { result ≡ eqb (mode_number mode) 2 }
{
    matches!(mode, SamplingMode::Hide)
}

// From Hide to another mode: C, then U with the least unmapped user index. The lists of solver indices are not lent and may be any.
fn show(
    p: Passed,
    gu: &mut [u32],
    ug: &mut [u32],
    records: &mut [u32],
    global: Global,
    mode: SamplingMode,
    from: u32,
    notes: &mut [u32],
) -> Revealed
    requires { ShowAsks p.counts gu.old ug.old records.old global.0 (mode_number mode) from p.at (length notes.old) }
    ensures leaves { (x : Solvers) → Leaves (show global.0 (mode_number mode) (table_with p.counts gu.old ug.old records.old x)) p.at result.after.at
        (table_with result.after.counts gu.new ug.new records.new x) notes.old notes.new }
    ensures user_value { result.user.0 ≡ least_free gu.old p.counts.user }
{
    let w = records[global.0 as usize] / 3 * 3 + u32::from(mode);
    let user = User(least_free(gu, p.counts.user, from));
    let counts = p.counts.map(gu, ug, records, user, global, w);
    put_note(notes, p.at, Note::ModeChanged(global, is_sample(mode)));
    put_note(notes, p.at + 3, Note::UserGranted(global, user));
    Revealed {
        user,
        after: Passed {
            counts,
            at: p.at + 6,
        },
    }
}

// To Hide: U(g,-), then D if unused. The lists that are not lent, gs and a, may be any.
fn hide(
    p: Passed,
    gu: &mut [u32],
    ug: &mut [u32],
    sg: &[u32],
    records: &mut [u32],
    global: Global,
    notes: &mut [u32],
) -> Passed
    requires { HideAsks p.counts gu.old ug.old sg.now records.old global.0 p.at (length notes.old) }
    ensures { (gs a : List ℕ) → Leaves (hide global.0 (table_of p.counts gu.old ug.old sg.now gs a records.old)) p.at result.at
        (table_of result.counts gu.new ug.new sg.now gs a records.new) notes.old notes.new }
{
    let g = global.0 as usize;
    let user = User(ug[g] - 1);
    let w = records[g];
    records[g] = w / 3 * 3 + 2;
    let counts = p.counts.unmap(gu, ug, user, global);
    put_note(notes, p.at, Note::UserWithdrawn(global));
    delete_global_if_unused(counts, ug, sg, records, global, p.at + 3, notes)
}

// Between Sample and Witness: C.
fn change(records: &mut [u32], global: Global, mode: SamplingMode, notes: &mut [u32])
    requires global_in_bounds { global.0 < length records.old }
    requires global_bound { get_or records.old global.0 0 < 36 }
    requires in_bounds { 3 ≤ length notes.old }
    ensures records_value { records.new ≡ set records.old global.0 (with_mode (get_or records.old global.0 0) (mode_number mode)) }
    ensures fills { Fills (change notes.old notes.new) 0 (3 ∷ global.0 ∷ pick (eqb (mode_number mode) 0) 1 0 ∷ []) }
{
    let g = global.0 as usize;
    let w = records[g];
    records[g] = w / 3 * 3 + u32::from(mode);
    put_note(notes, 0, Note::ModeChanged(global, is_sample(mode)));
}

// How many notes a change of mode makes, by the solver word and the record of the global.
fn mode_notes(solver: u32, w: u32, mode: SamplingMode) -> u32
    ensures { result ≡ mode_notes solver w (mode_number mode) }
{
    if w % 3 == u32::from(mode) {
        0
    } else if is_hide(mode) {
        if (solver == 0) & (w / 9 % 2 == 1) {
            2
        } else {
            1
        }
    } else if w % 3 == 2 {
        2
    } else {
        1
    }
}

// The first refusal of Set mode that applies to a sound table.
fn set_mode_refusal(
    t: &Lists,
    global: Global,
    mode: SamplingMode,
    room: usize,
) -> Result<(), Refusal>
    requires { soundb (seen t.now) ≡ true }
    ensures { refused_by result ≡ set_mode_refusal (seen t.now) global.0 mode room }
{
    if t.counts.global <= global.0 {
        return Err(Refusal::OutOfRange);
    }
    let g = global.0 as usize;
    let w = t.records[g];
    if 36 <= w {
        return Err(Refusal::Deleted);
    }
    if w / 18 % 2 == 1 {
        return Err(Refusal::Assumed);
    }
    let n = mode_notes(t.sg[g], w, mode) as usize;
    if room < 3 * n {
        return Err(Refusal::Short);
    }
    Ok(())
}

// Same mode: nothing. Otherwise by the old mode and the new one; users below the cursor are mapped. The lists that are not lent, gs and a, may be any.
fn set_mode(
    c: Counts,
    gu: &mut [u32],
    ug: &mut [u32],
    sg: &[u32],
    records: &mut [u32],
    global: Global,
    mode: SamplingMode,
    from: u32,
    notes: &mut [u32],
) -> ModeSet
    requires { SetAsks c gu.old ug.old sg.now records.old global.0 (mode_number mode) from (length notes.old) }
    ensures { (gs a : List ℕ) → Does (noting (λ us. us) (set_mode global.0 (mode_number mode) (table_of c gu.old ug.old sg.now gs a records.old))) (mode_set (Ok result) c)
        (table_of result.counts gu.new ug.new sg.now gs a records.new) notes.old notes.new }
{
    let start = Passed { counts: c, at: 0 };
    let was = records[global.0 as usize] % 3;
    if was == u32::from(mode) {
        return ModeSet {
            user: None,
            counts: c,
            notes: 0,
        };
    }
    if is_hide(mode) {
        let p = hide(start, gu, ug, sg, records, global, notes);
        return ModeSet {
            user: None,
            counts: p.counts,
            notes: (p.at / 3) as u32,
        };
    }
    if was == 2 {
        let p = show(start, gu, ug, records, global, mode, from, notes);
        return ModeSet {
            user: Some(p.user),
            counts: p.after.counts,
            notes: (p.after.at / 3) as u32,
        };
    }
    change(records, global, mode, notes);
    ModeSet {
        user: None,
        counts: c,
        notes: 1,
    }
}

// Set mode (01, `set_sampling_mode`; refusals 1, 3, 6, 7, 2): the global is sampled, a witness or hidden from now on.
// Definition: crates/scope/specs/Modes.antt, `set_mode_of`; its answer: `mode_set`.
pub fn set_sampling_mode(
    c: Counts,
    gu: &mut [u32],
    ug: &mut [u32],
    sg: &[u32],
    gs: &[u32],
    assignment: &[u32],
    records: &mut [u32],
    global: Global,
    mode: SamplingMode,
    notes: &mut [u32],
) -> Result<ModeSet, Refusal>
    ensures { Meets (λ t room. set_mode_of t global.0 mode room) (mode_set result c)
        (lent c (change gu.old gu.new) (change ug.old ug.new) (constant sg.now) (constant gs.now)
        (constant assignment.now) (change records.old records.new) (change notes.old notes.new)) }
{
    let t = Lists {
        counts: c,
        gu,
        ug,
        sg,
        gs,
        assignment,
        records,
    };
    t.check_sound()?;
    known_set_sampling_mode(
        c, gu, ug, sg, gs, assignment, records, global, mode, 0, notes,
    )
}

// Set mode on a table known to be sound, which is not tested, with every user below `ufrom` mapped.
// The same answer as `set_sampling_mode`.
pub fn known_set_sampling_mode(
    c: Counts,
    gu: &mut [u32],
    ug: &mut [u32],
    sg: &[u32],
    gs: &[u32],
    assignment: &[u32],
    records: &mut [u32],
    global: Global,
    mode: SamplingMode,
    ufrom: u32,
    notes: &mut [u32],
) -> Result<ModeSet, Refusal>
    requires records_value { soundb (given c gu.old ug.old sg.now gs.now assignment.now records.old) ≡ true }
    requires all_mapped { AllMapped gu.old c.user ufrom }
    ensures { Meets (λ t room. set_mode_of t global.0 mode room) (mode_set result c)
        (lent c (change gu.old gu.new) (change ug.old ug.new) (constant sg.now) (constant gs.now)
        (constant assignment.now) (change records.old records.new) (change notes.old notes.new)) }
{
    let t = Lists {
        counts: c,
        gu,
        ug,
        sg,
        gs,
        assignment,
        records,
    };
    set_mode_refusal(&t, global, mode, notes.len())?;
    Ok(set_mode(c, gu, ug, sg, records, global, mode, ufrom, notes))
}

// Undeleted and Hide.
fn is_hidden(w: u32) -> bool
    ensures { result ≡ is_hidden w }
{
    (w < 36) & (w % 3 == 2)
}

// No hidden global is assumed. It does not stop at one, so that several are tested at a time.
fn none_assumed(records: &[u32], mark: u32) -> bool
    requires { mark ≤ length records.now }
    ensures { result ≡ all_below mark (λ g. not (is_hidden (get_or records.now g 47) && eqb (assumed_of (get_or records.now g 47)) 1)) }
{
    let mut ok = true;
    for g in 0..mark as usize {
        let w = records[g];
        ok = ok & !(is_hidden(w) & (w / 18 % 2 == 1));
    }
    ok
}

// How many globals are hidden.
fn count_hidden(records: &[u32], mark: u32) -> u32
    requires { mark ≤ length records.now }
    ensures { result ≡ count mark (λ g. is_hidden (get_or records.now g 47)) }
{
    count_words(records, mark, |w| is_hidden(w))
}

// The first refusal of Observe that applies to a sound table with so many hidden globals.
fn observe_refusal(t: &Lists, hidden: u32, outs: usize, room: usize) -> Result<(), Refusal>
    requires records_value { soundb (seen t.now) ≡ true }
    requires hidden_value { hidden ≡ count t.now.counts.global (λ g. is_hidden (get_or t.now.records.now g 47)) }
    ensures { refused_by result ≡ observe_refusal (seen t.now) outs room }
{
    if !none_assumed(t.records, t.counts.global) {
        return Err(Refusal::Assumed);
    }
    let n = hidden as usize;
    if (outs < n) | (room < 6 * n) {
        return Err(Refusal::Short);
    }
    Ok(())
}

// After a global was observed: the cursor below which every user index is mapped, how many users were filled, the counts, and the place after the notes.
#[derive(Clone, Copy)]
pub struct ObservedTo {
    pub from: u32,
    pub filled: usize,
    pub after: Passed,
}

// A hidden global goes to Witness; its user is filled. The lists of solver indices are not lent and may be any.
fn observe_one(
    k: ObservedTo,
    gu: &mut [u32],
    ug: &mut [u32],
    records: &mut [u32],
    global: Global,
    users: &mut [u32],
    notes: &mut [u32],
) -> ObservedTo
    requires { ObserveAsks k.after.counts gu.old ug.old records.old global.0 k.from k.filled (length users.old) k.after.at (length notes.old) }
    ensures leaves { (x : Solvers) → Leaves (observe_one global.0 (table_with k.after.counts gu.old ug.old records.old x)) k.after.at result.after.at
        (table_with result.after.counts gu.new ug.new records.new x) notes.old notes.new }
    ensures users_filled { (x : Solvers) → UsersFilled (observe_one global.0 (table_with k.after.counts gu.old ug.old records.old x)) k.filled result.filled
        users.old users.new }
    ensures all_mapped { AllMapped gu.new result.after.counts.user result.from }
{
    if !is_hidden(records[global.0 as usize]) {
        return k;
    }
    let p = show(
        k.after,
        gu,
        ug,
        records,
        global,
        SamplingMode::Witness,
        k.from,
        notes,
    );
    users[k.filled] = p.user.0;
    ObservedTo {
        from: p.user.0 + 1,
        filled: k.filled + 1,
        after: p.after,
    }
}

// Every global in ascending order, on a sound table with the cursor `from` and room for the users and the notes. The lists of solver indices may be any.
fn observe_all(
    c: Counts,
    gu: &mut [u32],
    ug: &mut [u32],
    records: &mut [u32],
    from: u32,
    users: &mut [u32],
    notes: &mut [u32],
) -> ObservedTo
    requires { ObserveAllAsks c gu.old ug.old records.old from (length users.old) (length notes.old) }
    ensures leaves { (x : Solvers) → Leaves (observe (table_with c gu.old ug.old records.old x)) 0 result.after.at
        (table_with result.after.counts gu.new ug.new records.new x) notes.old notes.new }
    ensures users_filled { (x : Solvers) → UsersFilled (observe (table_with c gu.old ug.old records.old x)) 0 result.filled users.old users.new }
{
    let mut k = ObservedTo {
        from,
        filled: 0,
        after: Passed { counts: c, at: 0 },
    };
    for g in 0..c.global {
        k = observe_one(k, gu, ug, records, Global(g), users, notes);
    }
    k
}

// Observe (01, `observe_internal_vars`; refusals 1, 7, 2): each hidden global, the least first, becomes a witness, and the users that they get are filled.
// Definition: crates/scope/specs/Modes.antt, `observe_of`; its answer: `observed`.
pub fn observe_internal_vars(
    c: Counts,
    gu: &mut [u32],
    ug: &mut [u32],
    sg: &[u32],
    gs: &[u32],
    assignment: &[u32],
    records: &mut [u32],
    users: &mut [u32],
    notes: &mut [u32],
) -> Result<Observed, Refusal>
    ensures meets { Meets (λ t room. observe_of t (length users.old) room) (observed result c)
        (lent c (change gu.old gu.new) (change ug.old ug.new) (constant sg.now) (constant gs.now)
        (constant assignment.now) (change records.old records.new) (change notes.old notes.new)) }
    ensures out { Fills (change users.old users.new) 0 (observe_of (given c gu.old ug.old sg.now gs.now assignment.now records.old) (length users.old) (length notes.old)).words }
{
    let t = Lists {
        counts: c,
        gu,
        ug,
        sg,
        gs,
        assignment,
        records,
    };
    t.check_sound()?;
    known_observe_internal_vars(c, gu, ug, sg, gs, assignment, records, 0, users, notes)
}

// Observe on a table known to be sound, which is not tested, with every user below `ufrom` mapped.
// The same answer as `observe_internal_vars`. Hidden globals are counted first: without one the records are read once.
pub fn known_observe_internal_vars(
    c: Counts,
    gu: &mut [u32],
    ug: &mut [u32],
    sg: &[u32],
    gs: &[u32],
    assignment: &[u32],
    records: &mut [u32],
    ufrom: u32,
    users: &mut [u32],
    notes: &mut [u32],
) -> Result<Observed, Refusal>
    requires records_value { soundb (given c gu.old ug.old sg.now gs.now assignment.now records.old) ≡ true }
    requires all_mapped { AllMapped gu.old c.user ufrom }
    ensures meets { Meets (λ t room. observe_of t (length users.old) room) (observed result c)
        (lent c (change gu.old gu.new) (change ug.old ug.new) (constant sg.now) (constant gs.now)
        (constant assignment.now) (change records.old records.new) (change notes.old notes.new)) }
    ensures out { Fills (change users.old users.new) 0 (observe_of (given c gu.old ug.old sg.now gs.now assignment.now records.old) (length users.old) (length notes.old)).words }
{
    let hidden = count_hidden(records, c.global);
    if hidden == 0 {
        return Ok(Observed {
            users: 0,
            counts: c,
            notes: 0,
        });
    }
    let t = Lists {
        counts: c,
        gu,
        ug,
        sg,
        gs,
        assignment,
        records,
    };
    observe_refusal(&t, hidden, users.len(), notes.len())?;
    let k = observe_all(c, gu, ug, records, ufrom, users, notes);
    Ok(Observed {
        users: k.filled as u32,
        counts: k.after.counts,
        notes: (k.after.at / 3) as u32,
    })
}
