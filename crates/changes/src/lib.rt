// What the calls that change a table share: what a change inside a call leaves, and the deletion of a global that is used no more.
// Lists, notes and the place in them are parameters of their own: by their types each function lends by `&mut` only what it may change.
#![tactic(auto)]

ghost use Rattle.std.specs.Prelude.{ℕ, List, length};
ghost use Rattle.scope.specs.Table.{table_of};
ghost use Rattle.scope.specs.Modes.{delete_if_unused};
ghost use Rattle.changes.specs.Leaves.{Leaves, Room};
ghost use Rattle.changes.specs.Live.{Live};

use scope::{Counts, Global, Note};
use table::put_note;

// The counts after an operation inside a call, and the place after its notes.
#[derive(Clone, Copy)]
pub struct Passed {
    pub counts: Counts,
    pub at: usize,
}

// An isolated global that has lost both its names is deleted, with note D (01, "Set mode"). The counts and the place after the
// note are returned. The lists of the table that are not lent, gu gs a, may be any.
// Definition: crates/scope/specs/Modes.antt, `delete_if_unused`.
pub fn delete_global_if_unused(
    c: Counts,
    ug: &[u32],
    sg: &[u32],
    records: &mut [u32],
    global: Global,
    at: usize,
    notes: &mut [u32],
) -> Passed
    requires live { Live c ug.now sg.now records.old global.0 }
    requires by_index { (gu gs a : List ℕ) → Room (delete_if_unused global.0 (table_of c gu ug.now sg.now gs a records.old)) at (length notes.old) }
    ensures { (gu gs a : List ℕ) → Leaves (delete_if_unused global.0 (table_of c gu ug.now sg.now gs a records.old)) at result.at
        (table_of result.counts gu ug.now sg.now gs a records.new) notes.old notes.new }
{
    let g = global.0 as usize;
    let r = records[g];
    if (ug[g] == 0) & ((sg[g] == 0) & (r / 9 % 2 == 1)) {
        let counts = c.delete(records, global);
        put_note(notes, at, Note::Deleted(global));
        return Passed { counts, at: at + 3 };
    }
    Passed { counts: c, at }
}
