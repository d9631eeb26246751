// The answer of Set mode.
ghost use Rattle.std.specs.Prelude.{[], ◌∷◌};
ghost use Rattle.modes.specs.Answers.{mode_set};
ghost use Rattle.scope.specs.Steps.{flag};
ghost use Rattle.numbers.specs.Surface.{optional};
ghost use Rattle.numbers.specs.Flat.{Numbered};

use modes::ModeSet;
use scope::{Counts, Refusal};

// Whether a user was granted, and which.
#[repr(C)]
#[derive(Clone, Copy)]
pub struct HzModeSet {
    pub refusal: u32,
    pub counts: Counts,
    pub granted: bool,
    pub user: u32,
    pub notes: u32,
}

pub fn mode_set_out(r: Result<ModeSet, Refusal>, c: Counts) -> HzModeSet
    ensures { Numbered (mode_set r c) (optional 1) (result.refusal ∷ flag result.granted ∷ result.user ∷ result.notes ∷ []) result.counts }
{
    match r {
        Ok(m) => HzModeSet {
            refusal: 0,
            counts: m.counts,
            granted: m.user.is_some(),
            user: m.user.map_or(0, |u| u.0),
            notes: m.notes,
        },
        Err(e) => HzModeSet {
            refusal: u32::from(e),
            counts: c,
            granted: false,
            user: 0,
            notes: 0,
        },
    }
}
