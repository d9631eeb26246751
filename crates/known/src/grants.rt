// Grant on a table known to be sound, and what a global holds already.
ghost use Rattle.std.specs.Prelude.{◌≡◌, true, [], ◌∷◌};
ghost use Rattle.base.specs.Choice.{pick};
ghost use Rattle.base.specs.Answer.{accepted};
ghost use Rattle.base.specs.Lent.{change, constant};
ghost use Rattle.scope.specs.Table.{Table};
ghost use Rattle.scope.specs.Steps.{flag};
ghost use Rattle.scope.specs.Contract.{given, lent};
ghost use Rattle.scope.specs.Sound.{soundb};
ghost use Rattle.scope.specs.Grant.{grant_of};
ghost use Rattle.changes.specs.AtOnce.{solver_found, AtOnce};
ghost use Rattle.numbers.specs.Surface.{plain, optional, Gives};

use answers::found::HzFound;
use answers::granted::{HzGranted, granted_out};
use scope::{Counts, Global, Solver};

// Grant (3, 6, 2): `grant_of`.
#[unsafe(no_mangle)]
pub extern "C" fn hz_known_grant(
    c: Counts,
    gu: &[u32],
    ug: &[u32],
    sg: &mut [u32],
    gs: &mut [u32],
    assignment: &mut [u32],
    records: &[u32],
    global: u32,
    notes: &mut [u32],
) -> HzGranted
    requires { soundb (given c gu.now ug.now sg.old gs.old assignment.old records.now) ≡ true }
    ensures { Gives (λ t room. grant_of t global room) (plain 2) (result.refusal ∷ result.solver ∷ result.notes ∷ []) result.counts
        (lent c (constant gu.now) (constant ug.now) (change sg.old sg.new) (change gs.old gs.new)
        (change assignment.old assignment.new) (constant records.now) (change notes.old notes.new)) }
{
    let r = granting::known_solver_from_global(
        c,
        gu,
        ug,
        sg,
        gs,
        assignment,
        records,
        Global(global),
        notes,
    );
    granted_out(r, c)
}

// A solver index that was found, or none. Names have the same of a global, and say why.
fn once_out(r: Option<Solver>) -> HzFound
    ensures r_value { solver_found r ≡ pick result.found (result.value ∷ []) [] }
    ensures value_value { result.refusal ∷ flag result.found ∷ result.value ∷ [] ≡ optional 0 (accepted (pick result.found (result.value ∷ []) [])) }
{
    match r {
        Some(s) => HzFound {
            refusal: 0,
            found: true,
            value: s.0,
        },
        None => HzFound {
            refusal: 0,
            found: false,
            value: 0,
        },
    }
}

// Grant of a global that holds an index already, in the list that it reads: found exactly where the call is accepted and makes no note, on every
// sound table that has this list. Any words may be lent.
#[unsafe(no_mangle)]
pub extern "C" fn hz_grant_in(sg: &[u32], global: u32) -> HzFound
    ensures at_once { (t : Table) → soundb t ≡ true → t.solver_from_global ≡ sg.now
        → AtOnce (grant_of t global) t (pick result.found (result.value ∷ []) []) }
    ensures value_value { result.refusal ∷ flag result.found ∷ result.value ∷ [] ≡ optional 0 (accepted (pick result.found (result.value ∷ []) [])) }
{
    let r = granting::grant_in(sg, Global(global));
    once_out(r)
}
