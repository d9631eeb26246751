// The answer of Observe.
ghost use Rattle.std.specs.Prelude.{[], ◌∷◌};
ghost use Rattle.modes.specs.Answers.{observed};
ghost use Rattle.numbers.specs.Surface.{plain};
ghost use Rattle.numbers.specs.Flat.{Numbered};

use crate::posed::HzPosed;
use modes::Observed;
use scope::{Counts, Refusal};

pub fn observed_out(r: Result<Observed, Refusal>, c: Counts) -> HzPosed
    ensures { Numbered (observed r c) (plain 2) (result.refusal ∷ result.filled ∷ result.notes ∷ []) result.counts }
{
    match r {
        Ok(o) => HzPosed {
            refusal: 0,
            counts: o.counts,
            filled: o.users,
            notes: o.notes,
        },
        Err(e) => HzPosed {
            refusal: u32::from(e),
            counts: c,
            filled: 0,
            notes: 0,
        },
    }
}
