// Remove and Sweep on a table known to be sound.
ghost use Rattle.std.specs.Prelude.{◌≡◌, true, [], ◌∷◌};
ghost use Rattle.base.specs.Lent.{constant, change};
ghost use Rattle.scope.specs.Contract.{given, lent};
ghost use Rattle.scope.specs.Sound.{soundb};
ghost use Rattle.scope.specs.Remove.{remove_of, sweep_of};
ghost use Rattle.numbers.specs.Surface.{plain, Gives};

use answers::noted::{HzNoted, removed_out};
use scope::{Counts, Solver};

// Remove (8, 16, 2): `remove_of`.
#[unsafe(no_mangle)]
pub extern "C" fn hz_known_remove(
    c: Counts,
    gu: &[u32],
    ug: &[u32],
    sg: &mut [u32],
    gs: &mut [u32],
    assignment: &[u32],
    records: &mut [u32],
    solver: u32,
    notes: &mut [u32],
) -> HzNoted
    requires { soundb (given c gu.now ug.now sg.old gs.old assignment.now records.old) ≡ true }
    ensures { Gives (λ t room. remove_of t solver room) (plain 1) (result.refusal ∷ result.notes ∷ []) result.counts
        (lent c (constant gu.now) (constant ug.now) (change sg.old sg.new) (change gs.old gs.new)
        (constant assignment.now) (change records.old records.new) (change notes.old notes.new)) }
{
    let r = removal::known_remove_solver_var(
        c,
        gu,
        ug,
        sg,
        gs,
        assignment,
        records,
        Solver(solver),
        notes,
    );
    removed_out(r, c)
}

// Sweep (2): `sweep_of`.
#[unsafe(no_mangle)]
pub extern "C" fn hz_known_sweep(
    c: Counts,
    gu: &[u32],
    ug: &[u32],
    sg: &mut [u32],
    gs: &mut [u32],
    assignment: &[u32],
    records: &mut [u32],
    notes: &mut [u32],
) -> HzNoted
    requires { soundb (given c gu.now ug.now sg.old gs.old assignment.now records.old) ≡ true }
    ensures { Gives (λ t room. sweep_of t room) (plain 1) (result.refusal ∷ result.notes ∷ []) result.counts
        (lent c (constant gu.now) (constant ug.now) (change sg.old sg.new) (change gs.old gs.new)
        (constant assignment.now) (change records.old records.new) (change notes.old notes.new)) }
{
    let r = removal::known_sweep(c, gu, ug, sg, gs, assignment, records, notes);
    removed_out(r, c)
}
