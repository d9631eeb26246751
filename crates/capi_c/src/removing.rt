// Remove and Sweep.
ghost use Rattle.std.specs.Prelude.{[], ◌∷◌};
ghost use Rattle.base.specs.Lent.{constant, change};
ghost use Rattle.scope.specs.Contract.{lent};
ghost use Rattle.scope.specs.Remove.{remove_of, sweep_of};
ghost use Rattle.numbers.specs.Surface.{plain, Gives};

use answers::noted::HzNoted;
use scope::Counts;

// Remove (1, 8, 16, 2): `remove_of`.
#[unsafe(no_mangle)]
pub extern "C" fn hz_remove(
    c: Counts,
    gu: &[u32],
    ug: &[u32],
    sg: &mut [u32],
    gs: &mut [u32],
    assignment: &[u32],
    records: &mut [u32],
    solver: u32,
    notes: &mut [u32],
) -> HzNoted
    ensures { Gives (λ t room. remove_of t solver room) (plain 1) (result.refusal ∷ result.notes ∷ []) result.counts
        (lent c (constant gu.now) (constant ug.now) (change sg.old sg.new) (change gs.old gs.new)
        (constant assignment.now) (change records.old records.new) (change notes.old notes.new)) }
{
    capi::removing::hz_remove(c, gu, ug, sg, gs, assignment, records, solver, notes)
}

// Sweep (1, 2): `sweep_of`.
#[unsafe(no_mangle)]
pub extern "C" fn hz_sweep(
    c: Counts,
    gu: &[u32],
    ug: &[u32],
    sg: &mut [u32],
    gs: &mut [u32],
    assignment: &[u32],
    records: &mut [u32],
    notes: &mut [u32],
) -> HzNoted
    ensures { Gives (λ t room. sweep_of t room) (plain 1) (result.refusal ∷ result.notes ∷ []) result.counts
        (lent c (constant gu.now) (constant ug.now) (change sg.old sg.new) (change gs.old gs.new)
        (constant assignment.now) (change records.old records.new) (change notes.old notes.new)) }
{
    capi::removing::hz_sweep(c, gu, ug, sg, gs, assignment, records, notes)
}
