// The answer of Marks and Assign.
ghost use Rattle.std.specs.Prelude.{[], ◌∷◌};
ghost use Rattle.marks.specs.Answers.{changed};
ghost use Rattle.numbers.specs.Surface.{plain};
ghost use Rattle.numbers.specs.Flat.{Numbered};

use scope::{Counts, Refusal};

#[repr(C)]
#[derive(Clone, Copy)]
pub struct HzChanged {
    pub refusal: u32,
    pub counts: Counts,
}

pub fn changed_out(r: Result<(), Refusal>, c: Counts) -> HzChanged
    ensures { Numbered (changed r c) (plain 0) (result.refusal ∷ []) result.counts }
{
    match r {
        Ok(()) => HzChanged {
            refusal: 0,
            counts: c,
        },
        Err(e) => HzChanged {
            refusal: u32::from(e),
            counts: c,
        },
    }
}
