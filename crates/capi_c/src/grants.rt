// Grant.
ghost use Rattle.std.specs.Prelude.{[], ◌∷◌};
ghost use Rattle.base.specs.Lent.{constant, change};
ghost use Rattle.scope.specs.Contract.{lent};
ghost use Rattle.scope.specs.Grant.{grant_of};
ghost use Rattle.numbers.specs.Surface.{plain, Gives};

use answers::granted::HzGranted;
use scope::Counts;

// Grant (1, 3, 6, 2): `grant_of`.
#[unsafe(no_mangle)]
pub extern "C" fn hz_grant(
    c: Counts,
    gu: &[u32],
    ug: &[u32],
    sg: &mut [u32],
    gs: &mut [u32],
    assignment: &mut [u32],
    records: &[u32],
    global: u32,
    notes: &mut [u32],
) -> HzGranted
    ensures { Gives (λ t room. grant_of t global room) (plain 2) (result.refusal ∷ result.solver ∷ result.notes ∷ []) result.counts
        (lent c (constant gu.now) (constant ug.now) (change sg.old sg.new) (change gs.old gs.new)
        (change assignment.old assignment.new) (constant records.now) (change notes.old notes.new)) }
{
    capi::grants::hz_grant(c, gu, ug, sg, gs, assignment, records, global, notes)
}
