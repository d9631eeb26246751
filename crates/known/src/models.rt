// Model on a table known to be sound.
ghost use Rattle.std.specs.Prelude.{◌≡◌, true, [], ◌∷◌, length};
ghost use Rattle.base.specs.Lent.{Fills, change};
ghost use Rattle.scope.specs.Contract.{given, reads};
ghost use Rattle.scope.specs.Sound.{soundb};
ghost use Rattle.scope.specs.Models.{model_of};
ghost use Rattle.numbers.specs.Surface.{plain, Gives};

use line_answers::modelled::{HzModelled, modelled_out};
use scope::Counts;

// Model (2): `model_of`.
#[unsafe(no_mangle)]
pub extern "C" fn hz_known_model(
    c: Counts,
    gu: &[u32],
    ug: &[u32],
    sg: &[u32],
    gs: &[u32],
    assignment: &[u32],
    records: &[u32],
    globals: &mut [u32],
    users: &mut [u32],
) -> HzModelled
    requires { soundb (given c gu.now ug.now sg.now gs.now assignment.now records.now) ≡ true }
    ensures gives { Gives (λ t room. model_of t (length globals.old) (length users.old))
        (plain 2) (result.refusal ∷ result.globals ∷ result.users ∷ []) c (reads c gu.now ug.now sg.now gs.now assignment.now records.now) }
    ensures globals { Fills (change globals.old globals.new) 0
        (model_of (given c gu.now ug.now sg.now gs.now assignment.now records.now) (length globals.old) (length users.old)).words }
    ensures users { Fills (change users.old users.new) 0
        (model_of (given c gu.now ug.now sg.now gs.now assignment.now records.now) (length globals.old) (length users.old)).more }
{
    let r = model::known_model(c, gu, ug, sg, gs, assignment, records, globals, users);
    modelled_out(r)
}
