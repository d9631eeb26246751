// Model.
ghost use Rattle.std.specs.Prelude.{◌≡◌, [], ◌∷◌, length};
ghost use Rattle.base.specs.Lent.{Fills, change};
ghost use Rattle.scope.specs.Contract.{reads, given};
ghost use Rattle.scope.specs.Models.{model_of};
ghost use Rattle.numbers.specs.Surface.{plain, Gives};

use line_answers::modelled::{HzModelled, modelled_out};
use scope::Counts;

// Model (1, 2): `model_of`.
pub fn hz_model(
    c: Counts,
    gu: &[u32],
    ug: &[u32],
    sg: &[u32],
    gs: &[u32],
    assignment: &[u32],
    records: &[u32],
    globals: &mut [u32],
    users: &mut [u32],
) -> HzModelled
    ensures gives { Gives (λ t room. model_of t (length globals.old) (length users.old))
        (plain 2) (result.refusal ∷ result.globals ∷ result.users ∷ []) c (reads c gu.now ug.now sg.now gs.now assignment.now records.now) }
    ensures globals { Fills (change globals.old globals.new) 0
        (model_of (given c gu.now ug.now sg.now gs.now assignment.now records.now) (length globals.old) (length users.old)).words }
    ensures users { Fills (change users.old users.new) 0
        (model_of (given c gu.now ug.now sg.now gs.now assignment.now records.now) (length globals.old) (length users.old)).more }
{
    let r = model::model(c, gu, ug, sg, gs, assignment, records, globals, users);
    modelled_out(r)
}
