// The delete steps of the clauses that go, each once, under global names.
ghost use Rattle.std.specs.Prelude.{◌≡◌, ◌+◌, ◌≤◌, length};
ghost use Rattle.base.specs.Lent.{Fills, change};
ghost use Rattle.base.specs.Bounded.{any_of};
ghost use Rattle.drat.specs.Grammar.{encode_step, encode};
ghost use Rattle.scope.specs.Binary.{sections_of, filled_codes};
ghost use Rattle.steps.specs.Refusals.{laid};
ghost use Rattle.binary.specs.Entries.{goes_as, clause_by, deletes_by, bytes_by, unheld_by, Pair, Named, AllNamed};

use crate::keep::stays;
use drat::{Format, Kind};
use drat_write::{put_step, step_len};
use scope::{Refusal, Solver};
use sections::{Sections, not_lit};
use steps::rename::rename_lit;
use table::holder;

// Whether a section that is not empty is of an index with no holder.
pub(crate) fn any_unheld(gs: &[u32], s: &Sections) -> bool
    ensures { result ≡ any_of (unheld_by gs.now) (filled_codes (sections_of s.now.n s.now.lists.now)) }
{
    for l in 0..s.n {
        if s.place[l] + 1 < s.place[l + 1] {
            let index = l as u32 / 2;
            let Some(_) = holder(gs, Solver(index)) else {
                return true;
            };
        }
    }
    false
}

// Whether the entry m under l has a delete step, where x is not l.
fn goes(assignment: &[u32], l: u32, x: u32, m: u32) -> bool
    ensures { result ≡ goes_as assignment.now l x m }
{
    x < m && !stays(assignment, l, m)
}

// How many bytes the delete step of the clause x or m takes.
fn delete_len(gs: &[u32], f: Format, x: u32, m: u32) -> usize
    requires { Pair gs.now x m }
    ensures { result ≡ length (encode_step f (clause_by gs.now x m)) }
{
    let pair = [rename_lit(gs, true, x), rename_lit(gs, true, m)];
    step_len(f, Kind::Delete, &pair)
}

// That step, from the place `at` on; the place after it.
fn put_delete(gs: &[u32], f: Format, x: u32, m: u32, bytes: &mut [u8], at: usize) -> usize
    requires pair { Pair gs.now x m }
    requires m_in_bounds { at + length (encode_step f (clause_by gs.now x m)) ≤ length bytes.old }
    ensures value { result ≡ at + length (encode_step f (clause_by gs.now x m)) }
    ensures fills { Fills (change bytes.old bytes.new) at (encode_step f (clause_by gs.now x m)) }
{
    let pair = [rename_lit(gs, true, x), rename_lit(gs, true, m)];
    put_step(f, Kind::Delete, &pair, bytes, at)
}

// How many bytes the delete steps of a section take, if they fit in `room`: 2.
fn section_len(
    gs: &[u32],
    assignment: &[u32],
    f: Format,
    l: u32,
    es: &[u32],
    room: usize,
) -> Result<usize, Refusal>
    requires { Named gs.now l es.now }
    ensures { result ≡ laid (encode f (deletes_by gs.now assignment.now l es.now)) room }
{
    let x = not_lit(l);
    let mut used: usize = 0;
    for &m in es {
        if goes(assignment, l, x, m) {
            let k = delete_len(gs, f, x, m);
            if room - used < k {
                return Err(Refusal::Short);
            }
            used += k;
        }
    }
    Ok(used)
}

// The same of all sections.
pub(crate) fn deletes_len(
    gs: &[u32],
    assignment: &[u32],
    f: Format,
    s: &Sections,
    room: usize,
) -> Result<usize, Refusal>
    requires { AllNamed gs.now (sections_of s.now.n s.now.lists.now) }
    ensures { result ≡ laid (bytes_by f gs.now assignment.now (sections_of s.now.n s.now.lists.now)) room }
{
    let mut used: usize = 0;
    for l in 0..s.n {
        used += section_len(gs, assignment, f, l as u32, s.section_of(l), room - used)?;
    }
    Ok(used)
}

// The delete steps of a section, from the place `at` on; the place after them.
fn put_section(
    gs: &[u32],
    assignment: &[u32],
    f: Format,
    l: u32,
    es: &[u32],
    bytes: &mut [u8],
    at: usize,
) -> usize
    requires named { Named gs.now l es.now }
    requires es_in_bounds { at + length (encode f (deletes_by gs.now assignment.now l es.now)) ≤ length bytes.old }
    ensures value { result ≡ at + length (encode f (deletes_by gs.now assignment.now l es.now)) }
    ensures fills { Fills (change bytes.old bytes.new) at (encode f (deletes_by gs.now assignment.now l es.now)) }
{
    let x = not_lit(l);
    let mut p = at;
    for &m in es {
        if goes(assignment, l, x, m) {
            p = put_delete(gs, f, x, m, bytes, p);
        }
    }
    p
}

// The delete steps of all sections, from the start of `bytes`.
pub(crate) fn put_deletes(gs: &[u32], assignment: &[u32], f: Format, s: &Sections, bytes: &mut [u8])
    requires all_named { AllNamed gs.now (sections_of s.now.n s.now.lists.now) }
    requires lists_in_bounds { length (bytes_by f gs.now assignment.now (sections_of s.now.n s.now.lists.now)) ≤ length bytes.old }
    ensures { Fills (change bytes.old bytes.new) 0 (bytes_by f gs.now assignment.now (sections_of s.now.n s.now.lists.now)) }
{
    let mut at = 0;
    for l in 0..s.n {
        at = put_section(gs, assignment, f, l as u32, s.section_of(l), bytes, at);
    }
}
