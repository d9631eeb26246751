// Map and New user.
ghost use Rattle.std.specs.Prelude.{[], ◌∷◌};
ghost use Rattle.base.specs.Lent.{constant, change};
ghost use Rattle.scope.specs.Contract.{lent};
ghost use Rattle.scope.specs.Map.{map_of, new_user_of};
ghost use Rattle.numbers.specs.Surface.{plain, Gives};

use answers::mapped::HzMapped;
use answers::new_mapped::HzNewMapped;
use scope::Counts;

// Map (1, 3, 4, 5, 2): `map_of`.
#[unsafe(no_mangle)]
pub extern "C" fn hz_map(
    c: Counts,
    gu: &mut [u32],
    ug: &mut [u32],
    sg: &[u32],
    gs: &[u32],
    assignment: &[u32],
    records: &mut [u32],
    user: u32,
    sampling: bool,
    notes: &mut [u32],
) -> HzMapped
    ensures { Gives (λ t room. map_of t user sampling room) (plain 2) (result.refusal ∷ result.global ∷ result.notes ∷ []) result.counts
        (lent c (change gu.old gu.new) (change ug.old ug.new) (constant sg.now) (constant gs.now)
        (constant assignment.now) (change records.old records.new) (change notes.old notes.new)) }
{
    capi::names::hz_map(
        c, gu, ug, sg, gs, assignment, records, user, sampling, notes,
    )
}

// New user (1, 5, 2): `new_user_of`.
#[unsafe(no_mangle)]
pub extern "C" fn hz_new_user(
    c: Counts,
    gu: &mut [u32],
    ug: &mut [u32],
    sg: &[u32],
    gs: &[u32],
    assignment: &[u32],
    records: &mut [u32],
    notes: &mut [u32],
) -> HzNewMapped
    ensures { Gives (λ t room. new_user_of t room) (plain 3) (result.refusal ∷ result.user ∷ result.global ∷ result.notes ∷ []) result.counts
        (lent c (change gu.old gu.new) (change ug.old ug.new) (constant sg.now) (constant gs.now)
        (constant assignment.now) (change records.old records.new) (change notes.old notes.new)) }
{
    capi::names::hz_new_user(c, gu, ug, sg, gs, assignment, records, notes)
}
