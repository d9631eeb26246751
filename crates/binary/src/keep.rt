// What stays of the lists: the entries of which neither literal has a value.
ghost use Rattle.std.specs.Prelude.{◌≡◌, ◌+◌, ◌≤◌, ◌<◌, length};
ghost use Rattle.std.specs.List.{count_by};
ghost use Rattle.base.specs.Lent.{Fills, change};
ghost use Rattle.scope.specs.Binary.{sections_of, section_words};
ghost use Rattle.binary.specs.Entries.{stays_by, kept_by, words_by, entries_by};

use sections::Sections;
use table::word_at;

// Whether the clause of the entry m under l stays.
pub(crate) fn stays(assignment: &[u32], l: u32, m: u32) -> bool
    ensures { result ≡ stays_by assignment.now l m }
{
    (word_at(assignment, l / 2) == 0) & (word_at(assignment, m / 2) == 0)
}

// How many entries of the section of l stay.
fn count_kept(assignment: &[u32], l: u32, es: &[u32]) -> usize
    ensures { result ≡ count_by (stays_by assignment.now l) es.now }
{
    es.iter().filter(|m| stays(assignment, l, **m)).count()
}

// What stays of the section of l, from the place `at` on; the place after it.
fn put_entries(assignment: &[u32], l: u32, es: &[u32], out: &mut [u32], at: usize) -> usize
    requires { at + length (kept_by assignment.now l es.now) ≤ length out.old }
    ensures value { result ≡ at + length (kept_by assignment.now l es.now) }
    ensures fills { Fills (change out.old out.new) at (kept_by assignment.now l es.now) }
{
    let mut k = at;
    for &m in es {
        if stays(assignment, l, m) {
            out[k] = m;
            k += 1;
        }
    }
    k
}

// The same after its count.
fn put_section(assignment: &[u32], l: u32, es: &[u32], out: &mut [u32], at: usize) -> usize
    requires es_len_bound { length es.now < 4294967296 }
    requires es_in_bounds { at + length (section_words (kept_by assignment.now l es.now)) ≤ length out.old }
    ensures value { result ≡ at + length (section_words (kept_by assignment.now l es.now)) }
    ensures fills { Fills (change out.old out.new) at (section_words (kept_by assignment.now l es.now)) }
{
    let end = put_entries(assignment, l, es, out, at + 1);
    out[at] = (end - at - 1) as u32;
    end
}

// How many entries of all sections stay.
pub(crate) fn count_all(assignment: &[u32], s: &Sections) -> usize
    ensures value { result ≡ length (entries_by assignment.now (sections_of s.now.n s.now.lists.now)) }
    ensures upper_bound { result ≤ length s.now.lists.now }
{
    let mut k = 0;
    for l in 0..s.n {
        k += count_kept(assignment, l as u32, s.section_of(l));
    }
    k
}

// What stays of all sections, in words, from the start of `out`.
pub(crate) fn put_lists(assignment: &[u32], s: &Sections, out: &mut [u32])
    requires { length (words_by assignment.now (sections_of s.now.n s.now.lists.now)) ≤ length out.old }
    ensures { Fills (change out.old out.new) 0 (words_by assignment.now (sections_of s.now.n s.now.lists.now)) }
{
    let mut at = 0;
    for l in 0..s.n {
        at = put_section(assignment, l as u32, s.section_of(l), out, at);
    }
}
