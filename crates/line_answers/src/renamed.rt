// The answer of Rename.
ghost use Rattle.std.specs.Prelude.{◌≡◌, [], ◌∷◌};
ghost use Rattle.scope.specs.declared.Counts.{Counts};
ghost use Rattle.steps.specs.Answers.{renamed};
ghost use Rattle.numbers.specs.Flat.{Numbered, stepless};

use numbers::HzStep;
use scope::Refusal;
use steps::rename::Renamed;

// The step as given, and how many literals and hashes were filled.
#[repr(C)]
#[derive(Clone, Copy)]
pub struct HzRenamed {
    pub refusal: u32,
    pub step: HzStep,
    pub lits: usize,
    pub hashes: usize,
}

pub fn renamed_out(r: Result<Renamed, Refusal>, step: HzStep) -> HzRenamed
    ensures numbered { ((c : Counts) → Numbered (renamed r c) stepless (result.refusal ∷ result.lits ∷ result.hashes ∷ []) c) }
    ensures step { result.step ≡ step }
{
    match r {
        Ok(filled) => HzRenamed {
            refusal: 0,
            step,
            lits: filled.lits,
            hashes: filled.hashes,
        },
        Err(e) => HzRenamed {
            refusal: u32::from(e),
            step,
            lits: 0,
            hashes: 0,
        },
    }
}
