// Set mode and Observe.
ghost use Rattle.std.specs.Prelude.{[], ◌∷◌, length};
ghost use Rattle.base.specs.Lent.{Fills, change, constant};
ghost use Rattle.scope.specs.Contract.{lent, given};
ghost use Rattle.scope.specs.Modes.{set_mode_of, observe_of};
ghost use Rattle.numbers.specs.Numbers.{for_known, mode_for};
ghost use Rattle.scope.specs.Steps.{flag};
ghost use Rattle.numbers.specs.Surface.{plain, optional, Gives};

use answers::mode_set::{HzModeSet, mode_set_out};
use answers::observed::observed_out;
use answers::posed::HzPosed;
use numbers::mode_in;
use scope::{Counts, Global};

// Set mode (1, 3, 6, 7, 2): `set_mode_of`.
pub fn hz_set_mode(
    c: Counts,
    gu: &mut [u32],
    ug: &mut [u32],
    sg: &[u32],
    gs: &[u32],
    assignment: &[u32],
    records: &mut [u32],
    global: u32,
    mode: u32,
    notes: &mut [u32],
) -> HzModeSet
    ensures { Gives (λ t room. for_known (mode_for mode) t (λ m. set_mode_of t global m room)) (optional 1)
        (result.refusal ∷ flag result.granted ∷ result.user ∷ result.notes ∷ []) result.counts
        (lent c (change gu.old gu.new) (change ug.old ug.new) (constant sg.now) (constant gs.now)
        (constant assignment.now) (change records.old records.new) (change notes.old notes.new)) }
{
    let Some(m) = mode_in(mode) else {
        return HzModeSet {
            refusal: 0xffffffff,
            counts: c,
            granted: false,
            user: 0,
            notes: 0,
        };
    };
    let r = modes::set_sampling_mode(
        c,
        gu,
        ug,
        sg,
        gs,
        assignment,
        records,
        Global(global),
        m,
        notes,
    );
    mode_set_out(r, c)
}

// Observe (1, 7, 2): `observe_of`.
pub fn hz_observe(
    c: Counts,
    gu: &mut [u32],
    ug: &mut [u32],
    sg: &[u32],
    gs: &[u32],
    assignment: &[u32],
    records: &mut [u32],
    users: &mut [u32],
    notes: &mut [u32],
) -> HzPosed
    ensures gives { Gives (λ t room. observe_of t (length users.old) room) (plain 2) (result.refusal ∷ result.filled ∷ result.notes ∷ []) result.counts
        (lent c (change gu.old gu.new) (change ug.old ug.new) (constant sg.now) (constant gs.now)
        (constant assignment.now) (change records.old records.new) (change notes.old notes.new)) }
    ensures users { Fills (change users.old users.new) 0
        (observe_of (given c gu.old ug.old sg.now gs.now assignment.now records.old) (length users.old) (length notes.old)).words }
{
    let r = modes::observe_internal_vars(c, gu, ug, sg, gs, assignment, records, users, notes);
    observed_out(r, c)
}
