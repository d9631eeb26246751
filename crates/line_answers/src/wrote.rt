// The answer of the writers of a clause, of a proof and of a CNF file.
ghost use Rattle.std.specs.Prelude.{◌≡◌, [], ◌∷◌};
ghost use Rattle.drat.specs.Writing.{wrote};
ghost use Rattle.numbers.specs.Surface.{plain};

use crate::written::HzWritten;
use drat::WriteError;

pub fn wrote_out(r: Result<usize, WriteError>) -> HzWritten
    ensures { result.refusal ∷ result.bytes ∷ [] ≡ plain 1 (wrote r) }
{
    match r {
        Ok(at) => HzWritten {
            refusal: 0,
            bytes: at,
        },
        Err(WriteError::Outside) => HzWritten {
            refusal: 3,
            bytes: 0,
        },
        Err(WriteError::Room) => HzWritten {
            refusal: 2,
            bytes: 0,
        },
    }
}
