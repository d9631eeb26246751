// The answer of Grant.
ghost use Rattle.std.specs.Prelude.{[], ◌∷◌};
ghost use Rattle.granting.specs.Answers.{granted};
ghost use Rattle.numbers.specs.Surface.{plain};
ghost use Rattle.numbers.specs.Flat.{Numbered};

use granting::Granted;
use scope::{Counts, Refusal};

#[repr(C)]
#[derive(Clone, Copy)]
pub struct HzGranted {
    pub refusal: u32,
    pub counts: Counts,
    pub solver: u32,
    pub notes: u32,
}

pub fn granted_out(r: Result<Granted, Refusal>, c: Counts) -> HzGranted
    ensures { Numbered (granted r c) (plain 2) (result.refusal ∷ result.solver ∷ result.notes ∷ []) result.counts }
{
    match r {
        Ok(g) => HzGranted {
            refusal: 0,
            counts: g.counts,
            solver: g.solver.0,
            notes: g.notes,
        },
        Err(e) => HzGranted {
            refusal: u32::from(e),
            counts: c,
            solver: 0,
            notes: 0,
        },
    }
}
