// Whether a table is sound, the words of its maps, refusal 8, and the words of a note: what the calls over a table share.
#![tactic(auto)]

mod checks;

ghost use Rattle.std.specs.Prelude.{◌≡◌, Some, None, ◌+◌, ◌^◌, ◌≤◌, ◌<◌, leb, length, get_or};
ghost use Rattle.base.specs.Bounded.{any_of};
ghost use Rattle.base.specs.Lent.{Fills, change};
ghost use Rattle.scope.specs.Literals.{index_of};
ghost use Rattle.scope.specs.Marks.{held_else};
ghost use Rattle.scope.specs.Notes.{note_words};
ghost use Rattle.scope.specs.Refusals.{refused_by};
ghost use Rattle.scope.specs.Sound.{sizesb, soundb};
ghost use Rattle.scope.specs.Table.{Table, word};
ghost use Rattle.table.specs.Found.{found_user, found_global, found_solver};
ghost use Rattle.table.specs.Lists.{seen, tested};
ghost use Rattle.table.specs.Noted.{note_of, last_of};

pub use checks::count_words;
use checks::{at_most, marks_ok, pair_ok, rows_ok, stored_ok, tails_ok};
use scope::{Counts, Global, Note, Refusal, Solver, User};

// A table in lists that are lent to be read.
#[derive(Clone, Copy)]
pub struct Lists<'a> {
    pub counts: Counts,
    pub gu: &'a [u32],
    pub ug: &'a [u32],
    pub sg: &'a [u32],
    pub gs: &'a [u32],
    pub assignment: &'a [u32],
    pub records: &'a [u32],
}

// The word of an index, 0 past the end.
pub fn word_at(xs: &[u32], i: u32) -> u32
    ensures { result ≡ get_or xs.now i 0 }
{
    xs.get(i as usize).copied().unwrap_or(0)
}

// The index that the word at i stands for.
fn index_at(xs: &[u32], i: u32) -> Option<u32>
    ensures { result ≡ word None Some (get_or xs.now i 0) }
{
    word_at(xs, i).checked_sub(1)
}

// The global of a user.
pub fn global_of(gu: &[u32], user: User) -> Option<Global>
    ensures { result ≡ found_global (get_or gu.now user.0 0) }
{
    Some(Global(index_at(gu, user.0)?))
}

// The user of a global.
pub fn user_of(ug: &[u32], global: Global) -> Option<User>
    ensures { result ≡ found_user (get_or ug.now global.0 0) }
{
    Some(User(index_at(ug, global.0)?))
}

// The solver index that a global holds.
pub fn solver_of(sg: &[u32], global: Global) -> Option<Solver>
    ensures { result ≡ found_solver (get_or sg.now global.0 0) }
{
    Some(Solver(index_at(sg, global.0)?))
}

// The global that holds a solver index.
pub fn holder(gs: &[u32], solver: Solver) -> Option<Global>
    ensures { result ≡ found_global (get_or gs.now solver.0 0) }
{
    Some(Global(index_at(gs, solver.0)?))
}

// Refusal 8, unless a global holds the solver index.
pub fn held_refusal(gs: &[u32], solver: Solver) -> Result<(), Refusal>
    ensures { (t : Table) → t.global_from_solver ≡ gs.now → refused_by result ≡ held_else t solver.0 0 }
{
    let Some(_) = holder(gs, solver) else {
        return Err(Refusal::NotHeld);
    };
    Ok(())
}

// A literal's index is at or above the capacity.
pub fn any_outside(capacity: u32, lits: &[u32]) -> bool
    ensures { result ≡ any_of (λ c. leb capacity (index_of c)) lits.now }
{
    let mut found = false;
    for lit in lits {
        found = found | (capacity <= *lit / 2);
    }
    found
}

// The literals as they are, from the start of `out` on. In a loop, since `copy_from_slice` of a length not known asks the archives' users for `memmove`.
pub fn copy_lits(lits: &[u32], out: &mut [u32])
    requires { length lits.now ≤ length out.old }
    ensures { Fills (change out.old out.new) 0 lits.now }
{
    for i in 0..lits.len() {
        out[i] = lits[i];
    }
}

// The words of a note. The kinds' numbers stand here and nowhere else in the code.
fn words_of(note: Note) -> [u32; 3]
    requires { last_of note < 2 ^ 32 }
    ensures { result ≡ note_words (note_of note) }
{
    match note {
        Note::UserGranted(g, u) => [0, g.0, u.0 + 1],
        Note::UserWithdrawn(g) => [0, g.0, 0],
        Note::SolverGranted(g, s) => [1, g.0, s.0 + 1],
        Note::SolverWithdrawn(g) => [1, g.0, 0],
        Note::Deleted(g) => [2, g.0, 0],
        Note::ModeChanged(g, sample) => [3, g.0, u32::from(sample)],
    }
}

// A note: three words from `at` on.
pub fn put_note(notes: &mut [u32], at: usize, note: Note)
    requires at_in_bounds { at + 3 ≤ length notes.old }
    requires note_bound { last_of note < 2 ^ 32 }
    ensures { Fills (change notes.old notes.new) at (note_words (note_of note)) }
{
    let [kind, global, last] = words_of(note);
    notes[at] = kind;
    notes[at + 1] = global;
    notes[at + 2] = last;
}

impl Lists<'_> {
    // Sizes: a capacity from 1 to 4,096, and six lists of that length.
    pub fn sizes_ok(&self) -> bool
        ensures { result ≡ sizesb (seen self.now) }
    {
        let n = self.counts.capacity;
        let len = n as usize;
        (1 <= n)
            & (n <= 4096)
            & (self.gu.len() == len)
            & (self.ug.len() == len)
            & (self.sg.len() == len)
            & (self.gs.len() == len)
            & (self.assignment.len() == len)
            & (self.records.len() == len)
    }

    // Whether the table is sound (document 01, "Words used"; document 02, order 5). Definition: crates/scope/specs/Sound.antt, `soundb`.
    pub fn is_sound(&self) -> bool
        ensures { result ≡ soundb (seen self.now) }
    {
        let c = self.counts;
        if !self.sizes_ok() {
            return false;
        }
        if !marks_ok(c) {
            return false;
        }
        if !tails_ok(self) {
            return false;
        }
        if !(pair_ok(self.gu, self.ug, c.user, c.global)
            & pair_ok(self.gs, self.sg, c.solver, c.global))
        {
            return false;
        }
        at_most(2, self.assignment, c.solver)
            & rows_ok(self.records, self.ug, self.sg, c.global)
            & stored_ok(c, self.gs, self.records)
    }

    // Refusal 1, unless the table is sound.
    pub fn check_sound(&self) -> Result<(), Refusal>
        ensures { result ≡ tested (seen self.now) }
    {
        if self.is_sound() {
            Ok(())
        } else {
            Err(Refusal::Unsound)
        }
    }
}
