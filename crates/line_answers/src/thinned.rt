// The answer of Simplify binary.
ghost use Rattle.std.specs.Prelude.{[], ◌∷◌};
ghost use Rattle.scope.specs.declared.Counts.{Counts};
ghost use Rattle.binary.specs.Answers.{thinned};
ghost use Rattle.numbers.specs.Surface.{plain};
ghost use Rattle.numbers.specs.Flat.{Numbered};

use binary::Thinned;
use scope::Refusal;

// How many words of lists were filled, half the number of their entries, and how many bytes were filled.
#[repr(C)]
#[derive(Clone, Copy)]
pub struct HzThinned {
    pub refusal: u32,
    pub words: usize,
    pub half: usize,
    pub bytes: usize,
}

pub fn thinned_out(r: Result<Thinned, Refusal>) -> HzThinned
    ensures { (c : Counts) → Numbered (thinned r c) (plain 3) (result.refusal ∷ result.words ∷ result.half ∷ result.bytes ∷ []) c }
{
    match r {
        Ok(t) => HzThinned {
            refusal: 0,
            words: t.words,
            half: t.half,
            bytes: t.bytes,
        },
        Err(e) => HzThinned {
            refusal: u32::from(e),
            words: 0,
            half: 0,
            bytes: 0,
        },
    }
}
