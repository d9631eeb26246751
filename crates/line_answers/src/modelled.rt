// The answer of Model.
ghost use Rattle.std.specs.Prelude.{[], ◌∷◌};
ghost use Rattle.scope.specs.declared.Counts.{Counts};
ghost use Rattle.model.specs.Answers.{modelled};
ghost use Rattle.numbers.specs.Surface.{plain};
ghost use Rattle.numbers.specs.Flat.{Numbered};

use model::Modelled;
use scope::Refusal;

// How many global words and how many user literals were filled.
#[repr(C)]
#[derive(Clone, Copy)]
pub struct HzModelled {
    pub refusal: u32,
    pub globals: u32,
    pub users: u32,
}

pub fn modelled_out(r: Result<Modelled, Refusal>) -> HzModelled
    ensures { (c : Counts) → Numbered (modelled r c) (plain 2) (result.refusal ∷ result.globals ∷ result.users ∷ []) c }
{
    match r {
        Ok(m) => HzModelled {
            refusal: 0,
            globals: m.globals,
            users: m.users,
        },
        Err(e) => HzModelled {
            refusal: u32::from(e),
            globals: 0,
            users: 0,
        },
    }
}
