// Soundness.
ghost use Rattle.std.specs.Prelude.{◌≡◌};
ghost use Rattle.scope.specs.Contract.{given};
ghost use Rattle.scope.specs.Sound.{soundb};

use scope::Counts;
use table::Lists;

// Whether the table is sound: `soundb`.
pub fn hz_is_sound(
    c: Counts,
    gu: &[u32],
    ug: &[u32],
    sg: &[u32],
    gs: &[u32],
    assignment: &[u32],
    records: &[u32],
) -> bool
    ensures { result ≡ soundb (given c gu.now ug.now sg.now gs.now assignment.now records.now) }
{
    let t = Lists {
        counts: c,
        gu,
        ug,
        sg,
        gs,
        assignment,
        records,
    };
    t.is_sound()
}
