// Model: the value of every global, and the literals of the users that have one (src/model.rs, `model` of src/solver.rs).
// The lists are parameters of their own, as the C interface lends them: by `&mut` only those that the call may change.
#![tactic(auto)]

ghost use Rattle.std.specs.Prelude.{◌≡◌, true, ◌≤◌, ◌<◌, length};
ghost use Rattle.base.specs.Lent.{Fills, change};
ghost use Rattle.scope.specs.Sound.{soundb};
ghost use Rattle.scope.specs.Contract.{given, Meets, reads};
ghost use Rattle.scope.specs.Models.{global_value, global_model, user_model, model_refusal, model_of};
ghost use Rattle.scope.specs.Refusals.{refused_by};
ghost use Rattle.table.specs.Lists.{seen};
ghost use Rattle.model.specs.Values.{user_value};
ghost use Rattle.model.specs.Answers.{modelled};

use scope::{Counts, Global, Refusal, User};
use table::Lists;

// The value of a global, coded like the assignment. Its words are indexed, here and of a user, and not looked up by `solver_of` and `global_of`, which
// test the length that a sound table has.
fn global_value(t: &Lists, global: Global) -> u32
    requires sound { soundb (seen t.now) ≡ true }
    requires below { global.0 < t.now.counts.global }
    ensures value { result ≡ global_value (seen t.now) global.0 }
    ensures upper_bound { result ≤ 2 }
{
    let x = t.records[global.0 as usize];
    if 36 <= x {
        return 0;
    }
    let Some(solver) = t.sg[global.0 as usize].checked_sub(1) else {
        let unit = x / 3 % 3;
        return if unit == 0 { 1 } else { unit };
    };
    t.assignment[solver as usize]
}

// The value of a user: none if it is not mapped.
fn user_value(t: &Lists, user: User) -> u32
    requires sound { soundb (seen t.now) ≡ true }
    requires below { user.0 < t.now.counts.user }
    ensures value { result ≡ user_value (seen t.now) user.0 }
    ensures upper_bound { result ≤ 2 }
{
    let Some(global) = t.gu[user.0 as usize].checked_sub(1) else {
        return 0;
    };
    global_value(t, Global(global))
}

// How many users have a value.
fn count_users(t: &Lists) -> u32
    requires { soundb (seen t.now) ≡ true }
    ensures { result ≡ length (user_model (seen t.now)) }
{
    let mut k: u32 = 0;
    for u in 0..t.counts.user {
        let v = user_value(t, User(u));
        if v != 0 {
            k += 1;
        }
    }
    k
}

// One word for each global below the watermark, on a sound table.
fn reconstruct_global_model(t: &Lists, globals: &mut [u32])
    requires sound { soundb (seen t.now) ≡ true }
    requires room { t.now.counts.global ≤ length globals.old }
    ensures { Fills (change globals.old globals.new) 0 (global_model (seen t.now)) }
{
    for g in 0..t.counts.global {
        globals[g as usize] = global_value(t, Global(g));
    }
}

// The literals of the users that have a value, in ascending order, on a sound table; how many.
fn fill_users(t: &Lists, users: &mut [u32]) -> u32
    requires sound { soundb (seen t.now) ≡ true }
    requires room { length (user_model (seen t.now)) ≤ length users.old }
    ensures value { result ≡ length (user_model (seen t.now)) }
    ensures fills { Fills (change users.old users.new) 0 (user_model (seen t.now)) }
{
    let mut k: u32 = 0;
    for u in 0..t.counts.user {
        let v = user_value(t, User(u));
        if v != 0 {
            users[k as usize] = 2 * u + (2 - v);
            k += 1;
        }
    }
    k
}

// The first refusal that applies to a sound table: 2.
fn model_refusal(t: &Lists, globals: usize, users: usize) -> Result<(), Refusal>
    requires { soundb (seen t.now) ≡ true }
    ensures { refused_by result ≡ model_refusal (seen t.now) globals users }
{
    let c = t.counts;
    if globals < c.global as usize {
        return Err(Refusal::Short);
    }
    // No more literals than users.
    if c.user as usize <= users {
        return Ok(());
    }
    let k = count_users(t);
    if users < k as usize {
        return Err(Refusal::Short);
    }
    Ok(())
}

// How many global words and how many user literals were filled.
#[derive(Clone, Copy, Debug, PartialEq, Eq)]
pub struct Modelled {
    pub globals: u32,
    pub users: u32,
}

// Model (document 01, "Afterwards: the model"; 1, 2): `reconstruct_global_model` and `model`, run straight after.
// Definition: scope/specs/Models.antt, `model_of`; its answer: specs/Answers.antt, `modelled`.
pub fn model(
    c: Counts,
    gu: &[u32],
    ug: &[u32],
    sg: &[u32],
    gs: &[u32],
    assignment: &[u32],
    records: &[u32],
    globals: &mut [u32],
    users: &mut [u32],
) -> Result<Modelled, Refusal>
    ensures meets { Meets (λ t room. model_of t (length globals.old) (length users.old)) (modelled result c)
        (reads c gu.now ug.now sg.now gs.now assignment.now records.now) }
    ensures globals { Fills (change globals.old globals.new) 0
        (model_of (given c gu.now ug.now sg.now gs.now assignment.now records.now) (length globals.old) (length users.old)).words }
    ensures users { Fills (change users.old users.new) 0
        (model_of (given c gu.now ug.now sg.now gs.now assignment.now records.now) (length globals.old) (length users.old)).more }
{
    let t = Lists {
        counts: c,
        gu,
        ug,
        sg,
        gs,
        assignment,
        records,
    };
    t.check_sound()?;
    known_model(c, gu, ug, sg, gs, assignment, records, globals, users)
}

// Model on a table known to be sound, which is not tested.
// The same answer as `model`.
pub fn known_model(
    c: Counts,
    gu: &[u32],
    ug: &[u32],
    sg: &[u32],
    gs: &[u32],
    assignment: &[u32],
    records: &[u32],
    globals: &mut [u32],
    users: &mut [u32],
) -> Result<Modelled, Refusal>
    requires { soundb (given c gu.now ug.now sg.now gs.now assignment.now records.now) ≡ true }
    ensures meets { Meets (λ t room. model_of t (length globals.old) (length users.old)) (modelled result c)
        (reads c gu.now ug.now sg.now gs.now assignment.now records.now) }
    ensures globals { Fills (change globals.old globals.new) 0
        (model_of (given c gu.now ug.now sg.now gs.now assignment.now records.now) (length globals.old) (length users.old)).words }
    ensures users { Fills (change users.old users.new) 0
        (model_of (given c gu.now ug.now sg.now gs.now assignment.now records.now) (length globals.old) (length users.old)).more }
{
    let t = Lists {
        counts: c,
        gu,
        ug,
        sg,
        gs,
        assignment,
        records,
    };
    model_refusal(&t, globals.len(), users.len())?;
    reconstruct_global_model(&t, globals);
    let k = fill_users(&t, users);
    Ok(Modelled {
        globals: c.global,
        users: k,
    })
}
