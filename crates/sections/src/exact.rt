// Whether every entry has its mirror, by counting both. One tally serves all sections: a section takes one pass over its entries, and for each
// entry that is not yet compared one pass over the section of its mirror.
ghost use Rattle.std.specs.Prelude.{◌≡◌, true, [], ◌<◌};
ghost use Rattle.base.specs.Bounded.{every_of};
ghost use Rattle.drat.specs.Grammar.{Codes};
ghost use Rattle.scope.specs.Binary.{times, sections_of, section_at, has_mirror, mirrored};
ghost use Rattle.sections.specs.Places.{Inside};
ghost use Rattle.sections.specs.Tally.{Tallied, Slot};

use crate::{Sections, not_lit};

// How often a word stands among others.
fn count_of(es: &[u32], m: u32) -> usize
    ensures { result ≡ times m es.now }
{
    let mut k = 0;
    for e in es {
        if *e == m {
            k += 1;
        }
    }
    k
}

// Counts each entry in its slot.
fn tally_all(es: &[u32], tally: &mut [usize])
    requires codes { Codes es.now }
    requires tallied { Tallied [] tally.old }
    ensures { Tallied es.now tally.new }
{
    for e in es {
        tally[*e as usize] += 1;
    }
}

// Whether the entry m of the section of l, which stands there k times, has its mirror. A slot that is cleared was compared before.
fn slot_mirrored(s: &Sections, l: usize, m: u32, k: usize) -> bool
    requires l_lt_n { l < s.now.n }
    requires m_lt_n { m < s.now.n }
    requires slot { Slot (sections_of s.now.n s.now.lists.now) l m k }
    ensures { result ≡ has_mirror (sections_of s.now.n s.now.lists.now) l m }
{
    if k == 0 {
        return true;
    }
    let x = not_lit(l as u32);
    let y = not_lit(m) as usize;
    let other = count_of(s.section_of(y), x);
    k == other
}

// Whether each entry of the section of l has its mirror. Each slot is compared once, and cleared.
fn each_mirrored(s: &Sections, l: usize, es: &[u32], tally: &mut [usize]) -> bool
    requires inside { Inside s.now.lists.now s.now.n }
    requires l_lt_n { l < s.now.n }
    requires es_value { es.now ≡ section_at (sections_of s.now.n s.now.lists.now) l }
    requires tallied { Tallied es.now tally.old }
    ensures value { result ≡ every_of (has_mirror (sections_of s.now.n s.now.lists.now) l) es.now }
    ensures tallied_2 { result ≡ true → Tallied [] tally.new }
{
    for m in es {
        let k = tally[*m as usize];
        if !slot_mirrored(s, l, *m, k) {
            return false;
        }
        tally[*m as usize] = 0;
    }
    true
}

// The same, with a tally that is clear before and, where it goes on, after.
fn section_mirrored(s: &Sections, l: usize, tally: &mut [usize]) -> bool
    requires inside { Inside s.now.lists.now s.now.n }
    requires l_lt_n { l < s.now.n }
    requires tallied { Tallied [] tally.old }
    ensures result_value { let ss = sections_of s.now.n s.now.lists.now in result ≡ every_of (has_mirror ss l) (section_at ss l) }
    ensures tallied_2 { result ≡ true → Tallied [] tally.new }
{
    let es = s.section_of(l);
    tally_all(es, tally);
    each_mirrored(s, l, es, tally)
}

pub(crate) fn exactly_mirrored(s: &Sections) -> bool
    requires { Inside s.now.lists.now s.now.n }
    ensures { result ≡ mirrored (sections_of s.now.n s.now.lists.now) }
{
    let mut tally = [0usize; 8192];
    for l in 0..s.n {
        if !section_mirrored(s, l, &mut tally) {
            return false;
        }
    }
    true
}
