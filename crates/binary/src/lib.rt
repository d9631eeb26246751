// Binary clauses before the sweep: those with a literal that has a value go, and the delete steps that say so are written.
// The calls take each list apart, as the C interface lends them.
#![tactic(auto)]

mod deletes;
mod keep;

ghost use Rattle.std.specs.Prelude.{◌≡◌, true, length};
ghost use Rattle.base.specs.Lent.{Fills, change};
ghost use Rattle.scope.specs.Table.{Table};
ghost use Rattle.scope.specs.Sound.{soundb};
ghost use Rattle.scope.specs.Contract.{given, Meets, reads};
ghost use Rattle.scope.specs.Binary.{sections_of, binary_of};
ghost use Rattle.binary.specs.Answers.{thinned, thinned_by, fills_words, fills_bytes};
ghost use Rattle.binary.specs.Entries.{words_by, entries_by, bytes_by, AllNamed, Small};

use deletes::{any_unheld, deletes_len, put_deletes};
use drat::Format;
use keep::{count_all, put_lists};
use scope::{Counts, Refusal};
use sections::{Sections, all_mirrored, cut_sections};
use table::Lists;

// How many words the lists have, half the number of their entries, and how many bytes were filled.
#[derive(Clone, Copy)]
pub struct Thinned {
    pub words: usize,
    pub half: usize,
    pub bytes: usize,
}

// Lists that are judged, and whose sections are placed: 2.
fn thin_placed(
    gs: &[u32],
    assignment: &[u32],
    f: Format,
    s: &Sections,
    out: &mut [u32],
    bytes: &mut [u8],
) -> Result<Thinned, Refusal>
    requires { AllNamed gs.now (sections_of s.now.n s.now.lists.now) }
    ensures value { let ss = sections_of s.now.n s.now.lists.now in
        let ws = words_by assignment.now ss in
        let bs = bytes_by f gs.now assignment.now ss in
        result ≡ thinned_by ws (entries_by assignment.now ss) bs (length out.old) (length bytes.old) }
    ensures out { let ss = sections_of s.now.n s.now.lists.now in
        let ws = words_by assignment.now ss in
        let bs = bytes_by f gs.now assignment.now ss in
        Fills (change out.old out.new) 0 (fills_words ws bs (length out.old) (length bytes.old)) }
    ensures bytes { let ss = sections_of s.now.n s.now.lists.now in
        let ws = words_by assignment.now ss in
        let bs = bytes_by f gs.now assignment.now ss in
        Fills (change bytes.old bytes.new) 0 (fills_bytes ws bs (length out.old) (length bytes.old)) }
{
    let kept = count_all(assignment, s);
    let words = s.n + kept;
    if out.len() < words {
        return Err(Refusal::Short);
    }
    let deleted = deletes_len(gs, assignment, f, s, bytes.len())?;
    put_lists(assignment, s, out);
    put_deletes(gs, assignment, f, s, bytes);
    Ok(Thinned {
        words,
        half: kept / 2,
        bytes: deleted,
    })
}

// The lists of a sound table: 15, 8, 2.
fn thin_lists(
    solver: u32,
    gs: &[u32],
    assignment: &[u32],
    f: Format,
    lists: &[u32],
    out: &mut [u32],
    bytes: &mut [u8],
) -> Result<Thinned, Refusal>
    requires { Small solver gs.now }
    ensures { (t : Table) → soundb t ≡ true → t.counts.solver ≡ solver → t.global_from_solver ≡ gs.now → t.assignment ≡ assignment.now →
        let o = binary_of f t lists.now (length out.old) (length bytes.old) in
        ((thinned result t.counts).answer ≡ o.answer) × (Fills (change out.old out.new) 0 o.words × Fills (change bytes.old bytes.new) 0 o.bytes) }
{
    let n = 2 * solver as usize;
    let mut place = [0usize; 8193];
    if !cut_sections(lists, n, &mut place) {
        return Err(Refusal::BadLists);
    }
    let s = Sections {
        lists,
        place: &place,
        n,
    };
    if !all_mirrored(&s) {
        return Err(Refusal::BadLists);
    }
    if any_unheld(gs, &s) {
        return Err(Refusal::NotHeld);
    }
    thin_placed(gs, assignment, f, &s, out, bytes)
}

// Binary clauses before the sweep (document 02, order 1; 1, 15, 8, 2): `simplify_binary`.
// Definition: scope/specs/Binary.antt, `binary_of`; its answer: specs/Answers.antt, `thinned`.
pub fn simplify_binary(
    c: Counts,
    gu: &[u32],
    ug: &[u32],
    sg: &[u32],
    gs: &[u32],
    assignment: &[u32],
    records: &[u32],
    f: Format,
    lists: &[u32],
    out: &mut [u32],
    bytes: &mut [u8],
) -> Result<Thinned, Refusal>
    ensures meets { Meets (λ t room. binary_of f t lists.now (length out.old) (length bytes.old)) (thinned result c)
        (reads c gu.now ug.now sg.now gs.now assignment.now records.now) }
    ensures out { Fills (change out.old out.new) 0
        (binary_of f (given c gu.now ug.now sg.now gs.now assignment.now records.now) lists.now (length out.old) (length bytes.old)).words }
    ensures bytes { Fills (change bytes.old bytes.new) 0
        (binary_of f (given c gu.now ug.now sg.now gs.now assignment.now records.now) lists.now (length out.old) (length bytes.old)).bytes }
{
    let t = Lists {
        counts: c,
        gu,
        ug,
        sg,
        gs,
        assignment,
        records,
    };
    t.check_sound()?;
    known_simplify_binary(c, gu, ug, sg, gs, assignment, records, f, lists, out, bytes)
}

// Binary clauses before the sweep, on a table known to be sound, which is not tested.
// The same answer as `simplify_binary`.
pub fn known_simplify_binary(
    c: Counts,
    gu: &[u32],
    ug: &[u32],
    sg: &[u32],
    gs: &[u32],
    assignment: &[u32],
    records: &[u32],
    f: Format,
    lists: &[u32],
    out: &mut [u32],
    bytes: &mut [u8],
) -> Result<Thinned, Refusal>
    requires { soundb (given c gu.now ug.now sg.now gs.now assignment.now records.now) ≡ true }
    ensures meets { Meets (λ t room. binary_of f t lists.now (length out.old) (length bytes.old)) (thinned result c)
        (reads c gu.now ug.now sg.now gs.now assignment.now records.now) }
    ensures out { Fills (change out.old out.new) 0
        (binary_of f (given c gu.now ug.now sg.now gs.now assignment.now records.now) lists.now (length out.old) (length bytes.old)).words }
    ensures bytes { Fills (change bytes.old bytes.new) 0
        (binary_of f (given c gu.now ug.now sg.now gs.now assignment.now records.now) lists.now (length out.old) (length bytes.old)).bytes }
{
    thin_lists(c.solver, gs, assignment, f, lists, out, bytes)
}
