// The answer of Pose.
ghost use Rattle.std.specs.Prelude.{[], ◌∷◌};
ghost use Rattle.posing.specs.Answers.{posed};
ghost use Rattle.numbers.specs.Surface.{plain};
ghost use Rattle.numbers.specs.Flat.{Numbered};

use posing::PosedLits;
use scope::{Counts, Refusal};

// How many literals, or users, were filled.
#[repr(C)]
#[derive(Clone, Copy)]
pub struct HzPosed {
    pub refusal: u32,
    pub counts: Counts,
    pub filled: u32,
    pub notes: u32,
}

pub fn posed_out(r: Result<PosedLits, Refusal>, c: Counts) -> HzPosed
    ensures { Numbered (posed r c) (plain 2) (result.refusal ∷ result.filled ∷ result.notes ∷ []) result.counts }
{
    match r {
        Ok(p) => HzPosed {
            refusal: 0,
            counts: p.counts,
            filled: p.filled,
            notes: p.notes,
        },
        Err(e) => HzPosed {
            refusal: u32::from(e),
            counts: c,
            filled: 0,
            notes: 0,
        },
    }
}
