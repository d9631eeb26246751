// The answer of Write.
ghost use Rattle.std.specs.Prelude.{[], ◌∷◌};
ghost use Rattle.scope.specs.declared.Counts.{Counts};
ghost use Rattle.steps.specs.Answers.{recorded};
ghost use Rattle.numbers.specs.Surface.{plain};
ghost use Rattle.numbers.specs.Flat.{Numbered};

use scope::Refusal;

// How many bytes were filled; of `hz_write_clause`, the place after them.
#[repr(C)]
#[derive(Clone, Copy)]
pub struct HzWritten {
    pub refusal: u32,
    pub bytes: usize,
}

pub fn recorded_out(r: Result<usize, Refusal>) -> HzWritten
    ensures { (c : Counts) → Numbered (recorded r c) (plain 1) (result.refusal ∷ result.bytes ∷ []) c }
{
    match r {
        Ok(bytes) => HzWritten { refusal: 0, bytes },
        Err(e) => HzWritten {
            refusal: u32::from(e),
            bytes: 0,
        },
    }
}
