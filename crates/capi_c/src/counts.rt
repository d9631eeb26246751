// Soundness.
ghost use Rattle.std.specs.Prelude.{◌≡◌};
ghost use Rattle.scope.specs.Contract.{given};
ghost use Rattle.scope.specs.Sound.{soundb};

use scope::Counts;

// Whether the table is sound: `soundb`.
#[unsafe(no_mangle)]
pub extern "C" fn hz_is_sound(
    c: Counts,
    gu: &[u32],
    ug: &[u32],
    sg: &[u32],
    gs: &[u32],
    assignment: &[u32],
    records: &[u32],
) -> bool
    ensures { result ≡ soundb (given c gu.now ug.now sg.now gs.now assignment.now records.now) }
{
    capi::counts::hz_is_sound(c, gu, ug, sg, gs, assignment, records)
}
