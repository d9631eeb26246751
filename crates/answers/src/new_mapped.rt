// The answer of New user.
ghost use Rattle.std.specs.Prelude.{[], ◌∷◌};
ghost use Rattle.naming.specs.Answers.{new_user_mapped};
ghost use Rattle.numbers.specs.Surface.{plain};
ghost use Rattle.numbers.specs.Flat.{Numbered};

use naming::NewUser;
use scope::{Counts, Refusal};

#[repr(C)]
#[derive(Clone, Copy)]
pub struct HzNewMapped {
    pub refusal: u32,
    pub counts: Counts,
    pub user: u32,
    pub global: u32,
    pub notes: u32,
}

pub fn new_mapped_out(r: Result<NewUser, Refusal>, c: Counts) -> HzNewMapped
    ensures { Numbered (new_user_mapped r c) (plain 3) (result.refusal ∷ result.user ∷ result.global ∷ result.notes ∷ []) result.counts }
{
    match r {
        Ok(m) => HzNewMapped {
            refusal: 0,
            counts: m.counts,
            user: m.user.0,
            global: m.global.0,
            notes: m.notes,
        },
        Err(e) => HzNewMapped {
            refusal: u32::from(e),
            counts: c,
            user: 0,
            global: 0,
            notes: 0,
        },
    }
}
