// The answer of Simplify.
ghost use Rattle.std.specs.Prelude.{◌≡◌, [], ◌∷◌};
ghost use Rattle.scope.specs.declared.Counts.{Counts};
ghost use Rattle.scope.specs.Simplify.{simplified_number};
ghost use Rattle.simplify.specs.Answers.{reduced};
ghost use Rattle.scope.specs.Steps.{flag};
ghost use Rattle.numbers.specs.Surface.{plain};
ghost use Rattle.numbers.specs.Flat.{Numbered};

use scope::{Refusal, Simplified};
use simplify::Reduced;

// What was made of the clause, how many literals were filled, the add step's flag, and how many bytes were filled.
#[repr(C)]
#[derive(Clone, Copy)]
pub struct HzSimplified {
    pub refusal: u32,
    pub made: u32,
    pub lits: usize,
    pub redundant: bool,
    pub bytes: usize,
}

fn made_out(what: Simplified) -> u32
    ensures { result ≡ simplified_number what }
{
    match what {
        Simplified::Kept => 0,
        Simplified::Dropped => 1,
        Simplified::Shortened => 2,
        Simplified::Binary => 3,
    }
}

pub fn reduced_out(r: Result<Reduced, Refusal>) -> HzSimplified
    ensures { (c : Counts) → Numbered (reduced r c) (plain 4) (result.refusal ∷ result.made ∷ result.lits ∷ flag result.redundant ∷ result.bytes ∷ []) c }
{
    match r {
        Ok(r) => HzSimplified {
            refusal: 0,
            made: made_out(r.what),
            lits: r.left,
            redundant: r.redundant,
            bytes: r.bytes,
        },
        Err(e) => HzSimplified {
            refusal: u32::from(e),
            made: 0,
            lits: 0,
            redundant: false,
            bytes: 0,
        },
    }
}
