// The answer of Read.
ghost use Rattle.std.specs.Prelude.{◌≡◌, [], ◌∷◌};
ghost use Rattle.drat.specs.Filled.{read};
ghost use Rattle.numbers.specs.Surface.{located};

use drat::{ReadError, Size};

// How many literals and how many steps were filled; with refusal 13, the start of the first step that is not whole.
#[repr(C)]
#[derive(Clone, Copy)]
pub struct HzReading {
    pub refusal: u32,
    pub place: usize,
    pub lits: usize,
    pub steps: usize,
}

pub fn read_out(r: Result<Size, ReadError>) -> HzReading
    ensures { result.refusal ∷ result.place ∷ result.lits ∷ result.steps ∷ [] ≡ located 2 (read r) }
{
    match r {
        Ok(size) => HzReading {
            refusal: 0,
            place: 0,
            lits: size.lits,
            steps: size.steps,
        },
        Err(ReadError::NotWhole(place)) => HzReading {
            refusal: 13,
            place,
            lits: 0,
            steps: 0,
        },
        Err(ReadError::Room) => HzReading {
            refusal: 2,
            place: 0,
            lits: 0,
            steps: 0,
        },
    }
}
