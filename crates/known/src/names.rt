// Map and New user on a table known to be sound, and what a user is mapped to already.
ghost use Rattle.std.specs.Prelude.{◌≡◌, true, [], ◌∷◌};
ghost use Rattle.base.specs.Choice.{pick};
ghost use Rattle.base.specs.Answer.{accepted};
ghost use Rattle.base.specs.Lent.{change, constant};
ghost use Rattle.scope.specs.Table.{Table};
ghost use Rattle.scope.specs.Steps.{flag};
ghost use Rattle.scope.specs.Contract.{given, lent};
ghost use Rattle.scope.specs.Sound.{soundb};
ghost use Rattle.scope.specs.Cursor.{NoneFree, AllMapped};
ghost use Rattle.scope.specs.Map.{map_of, new_user_of};
ghost use Rattle.changes.specs.AtOnce.{global_found, AtOnce};
ghost use Rattle.mapping.specs.Parts.{free};
ghost use Rattle.numbers.specs.Surface.{plain, optional, Gives};

use answers::found::HzFound;
use answers::mapped::{HzMapped, mapped_out};
use answers::new_mapped::{HzNewMapped, new_mapped_out};
use scope::{Counts, Global, User};

// Map (3, 4, 5, 2): `map_of`.
#[unsafe(no_mangle)]
pub extern "C" fn hz_known_map(
    c: Counts,
    gu: &mut [u32],
    ug: &mut [u32],
    sg: &[u32],
    gs: &[u32],
    assignment: &[u32],
    records: &mut [u32],
    user: u32,
    sampling: bool,
    gfrom: u32,
    notes: &mut [u32],
) -> HzMapped
    requires records_value { soundb (given c gu.old ug.old sg.now gs.now assignment.now records.old) ≡ true }
    requires none_free { NoneFree (free records.old) c.global gfrom }
    ensures { Gives (λ t room. map_of t user sampling room) (plain 2) (result.refusal ∷ result.global ∷ result.notes ∷ []) result.counts
        (lent c (change gu.old gu.new) (change ug.old ug.new) (constant sg.now) (constant gs.now)
        (constant assignment.now) (change records.old records.new) (change notes.old notes.new)) }
{
    let r = naming::known_global_from_user(
        c,
        gu,
        ug,
        sg,
        gs,
        assignment,
        records,
        User(user),
        sampling,
        gfrom,
        notes,
    );
    mapped_out(r, c)
}

// New user (5, 2): `new_user_of`.
#[unsafe(no_mangle)]
pub extern "C" fn hz_known_new_user(
    c: Counts,
    gu: &mut [u32],
    ug: &mut [u32],
    sg: &[u32],
    gs: &[u32],
    assignment: &[u32],
    records: &mut [u32],
    ufrom: u32,
    gfrom: u32,
    notes: &mut [u32],
) -> HzNewMapped
    requires records_value { soundb (given c gu.old ug.old sg.now gs.now assignment.now records.old) ≡ true }
    requires all_mapped { AllMapped gu.old c.user ufrom }
    requires none_free { NoneFree (free records.old) c.global gfrom }
    ensures { Gives (λ t room. new_user_of t room) (plain 3) (result.refusal ∷ result.user ∷ result.global ∷ result.notes ∷ []) result.counts
        (lent c (change gu.old gu.new) (change ug.old ug.new) (constant sg.now) (constant gs.now)
        (constant assignment.now) (change records.old records.new) (change notes.old notes.new)) }
{
    let r = naming::known_new_user_var(c, gu, ug, sg, gs, assignment, records, ufrom, gfrom, notes);
    new_mapped_out(r, c)
}

// A global that was found, or none. Grants have the same of a solver index: one over an `Option<u32>` goes through memory, as in answers.
fn once_out(r: Option<Global>) -> HzFound
    ensures r_value { global_found r ≡ pick result.found (result.value ∷ []) [] }
    ensures value_value { result.refusal ∷ flag result.found ∷ result.value ∷ [] ≡ optional 0 (accepted (pick result.found (result.value ∷ []) [])) }
{
    match r {
        Some(g) => HzFound {
            refusal: 0,
            found: true,
            value: g.0,
        },
        None => HzFound {
            refusal: 0,
            found: false,
            value: 0,
        },
    }
}

// Map of a user that is mapped already, in the lists that it reads: found exactly where the call is accepted and makes no note, on every sound table
// that has these lists. Any words may be lent.
#[unsafe(no_mangle)]
pub extern "C" fn hz_map_in(gu: &[u32], records: &[u32], user: u32, sampling: bool) -> HzFound
    ensures at_once { (t : Table) → soundb t ≡ true → t.global_from_user ≡ gu.now → t.records ≡ records.now
        → AtOnce (map_of t user sampling) t (pick result.found (result.value ∷ []) []) }
    ensures value_value { result.refusal ∷ flag result.found ∷ result.value ∷ [] ≡ optional 0 (accepted (pick result.found (result.value ∷ []) [])) }
{
    let r = naming::map_in(gu, records, User(user), sampling);
    once_out(r)
}
