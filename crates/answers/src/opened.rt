// The answer of Open.
ghost use Rattle.std.specs.Prelude.{[], ◌∷◌};
ghost use Rattle.var_map.specs.Answers.{opened};
ghost use Rattle.numbers.specs.Surface.{plain};
ghost use Rattle.numbers.specs.Flat.{Numbered};

use crate::changed::HzChanged;
use scope::{Counts, Refusal};

pub fn opened_out(r: Result<Counts, Refusal>, c: Counts) -> HzChanged
    ensures { Numbered (opened r c) (plain 0) (result.refusal ∷ []) result.counts }
{
    match r {
        Ok(d) => HzChanged {
            refusal: 0,
            counts: d,
        },
        Err(e) => HzChanged {
            refusal: u32::from(e),
            counts: c,
        },
    }
}
