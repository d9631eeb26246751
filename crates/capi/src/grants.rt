// Grant.
ghost use Rattle.std.specs.Prelude.{[], ◌∷◌};
ghost use Rattle.base.specs.Lent.{constant, change};
ghost use Rattle.scope.specs.Contract.{lent};
ghost use Rattle.scope.specs.Grant.{grant_of};
ghost use Rattle.numbers.specs.Surface.{plain, Gives};

use answers::granted::{HzGranted, granted_out};
use scope::{Counts, Global};

// Grant (1, 3, 6, 2): `grant_of`.
pub fn hz_grant(
    c: Counts,
    gu: &[u32],
    ug: &[u32],
    sg: &mut [u32],
    gs: &mut [u32],
    assignment: &mut [u32],
    records: &[u32],
    global: u32,
    notes: &mut [u32],
) -> HzGranted
    ensures { Gives (λ t room. grant_of t global room) (plain 2) (result.refusal ∷ result.solver ∷ result.notes ∷ []) result.counts
        (lent c (constant gu.now) (constant ug.now) (change sg.old sg.new) (change gs.old gs.new)
        (change assignment.old assignment.new) (constant records.now) (change notes.old notes.new)) }
{
    let r = granting::solver_from_global(
        c,
        gu,
        ug,
        sg,
        gs,
        assignment,
        records,
        Global(global),
        notes,
    );
    granted_out(r, c)
}
