// The answer of Map.
ghost use Rattle.std.specs.Prelude.{[], ◌∷◌};
ghost use Rattle.naming.specs.Answers.{user_mapped};
ghost use Rattle.numbers.specs.Surface.{plain};
ghost use Rattle.numbers.specs.Flat.{Numbered};

use naming::UserMapped;
use scope::{Counts, Refusal};

#[repr(C)]
#[derive(Clone, Copy)]
pub struct HzMapped {
    pub refusal: u32,
    pub counts: Counts,
    pub global: u32,
    pub notes: u32,
}

pub fn mapped_out(r: Result<UserMapped, Refusal>, c: Counts) -> HzMapped
    ensures { Numbered (user_mapped r c) (plain 2) (result.refusal ∷ result.global ∷ result.notes ∷ []) result.counts }
{
    match r {
        Ok(m) => HzMapped {
            refusal: 0,
            counts: m.counts,
            global: m.global.0,
            notes: m.notes,
        },
        Err(e) => HzMapped {
            refusal: u32::from(e),
            counts: c,
            global: 0,
            notes: 0,
        },
    }
}
