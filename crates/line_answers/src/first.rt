// The answer of the first step alone.
ghost use Rattle.std.specs.Prelude.{◌≡◌, [], ◌∷◌};
ghost use Rattle.drat.specs.Filled.{first};
ghost use Rattle.numbers.specs.Surface.{placed};

// The first step is the `length` bytes from `place` on.
#[repr(C)]
#[derive(Clone, Copy)]
pub struct HzFirst {
    pub refusal: u32,
    pub place: usize,
    pub length: usize,
}

// The first step's part of the input, an empty one where it is not whole, and the place of its first token.
pub fn first_out(place: usize, part: &[u8]) -> HzFirst
    ensures { result.refusal ∷ result.place ∷ result.length ∷ [] ≡ placed place (first place part.now) }
{
    let length = part.len();
    if length == 0 {
        return HzFirst {
            refusal: 13,
            place,
            length: 0,
        };
    }
    HzFirst {
        refusal: 0,
        place,
        length,
    }
}
