// The answer of Remove and Sweep.
ghost use Rattle.std.specs.Prelude.{[], ◌∷◌};
ghost use Rattle.removal.specs.Answers.{removed};
ghost use Rattle.numbers.specs.Surface.{plain};
ghost use Rattle.numbers.specs.Flat.{Numbered};

use removal::Removed;
use scope::{Counts, Refusal};

#[repr(C)]
#[derive(Clone, Copy)]
pub struct HzNoted {
    pub refusal: u32,
    pub counts: Counts,
    pub notes: u32,
}

pub fn removed_out(r: Result<Removed, Refusal>, c: Counts) -> HzNoted
    ensures { Numbered (removed r c) (plain 1) (result.refusal ∷ result.notes ∷ []) result.counts }
{
    match r {
        Ok(m) => HzNoted {
            refusal: 0,
            counts: m.counts,
            notes: m.notes,
        },
        Err(e) => HzNoted {
            refusal: u32::from(e),
            counts: c,
            notes: 0,
        },
    }
}
