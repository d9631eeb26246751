// The lists of binary clauses in words: where each section stands, and whether every entry has its mirror.
#![tactic(auto)]

mod exact;
mod queues;

ghost use Rattle.std.specs.Prelude.{◌≡◌, true, ℕ, ◌%◌, ◌≤◌, ◌<◌, length, ltb, get_or};
ghost use Rattle.base.specs.Bounded.{every_of};
ghost use Rattle.scope.specs.Literals.{not_lit};
ghost use Rattle.scope.specs.Binary.{cutsb, sections_of, section_at, mirrored};
ghost use Rattle.sections.specs.Places.{Placed, Inside};

use drat_write::all_below;
use exact::exactly_mirrored;
use queues::heads_meet;

// The words of n sections, and where each of these stands. That a word is below 2^32 is kept too: a slice in a struct does not tell it.
#[derive(Clone, Copy)]
pub struct Sections<'a> {
    pub lists: &'a [u32],
    pub place: &'a [usize],
    pub n: usize,
    pub ghost placed: { Placed lists.now n place.now },
    pub ghost small: { (i : ℕ) → get_or lists.now i 0 < 4294967296 },
}

// The literal of the same index and the other sign.
pub fn not_lit(c: u32) -> u32
    ensures { result ≡ not_lit c }
{
    c / 2 * 2 + (1 - c % 2)
}

// Whether the words are n sections, each after its count, and where these stand. `place` is a slice, since its callers lend one.
pub fn cut_sections(lists: &[u32], n: usize, place: &mut [usize]) -> bool
    requires n_bound { n ≤ 8192 }
    requires n_value { n % 2 ≡ 0 }
    requires place_len { length place.old ≡ 8193 }
    ensures value { result ≡ cutsb n lists.now }
    ensures placed { result ≡ true → Placed lists.now n place.new }
{
    let mut at: usize = 0;
    place[0] = 0;
    for l in 0..n {
        if lists.len() <= at {
            return false;
        }
        let k = lists[at] as usize;
        if lists.len() - at - 1 < k {
            return false;
        }
        at = at + 1 + k;
        place[l + 1] = at;
    }
    at == lists.len()
}

impl<'a> Sections<'a> {
    // The entries of the section of l.
    pub fn section_of(&self, l: usize) -> &'a [u32]
        requires { l < self.now.n }
        ensures { result.now ≡ section_at (sections_of self.now.n self.now.lists.now) l }
    {
        let a = self.place[l] + 1;
        let b = self.place[l + 1];
        &self.lists[a..b]
    }
}

// Whether every entry is the code of a section. What it finds stays a `requires` below: a second struct would wrap the first for two modules alone.
fn all_inside(s: &Sections) -> bool
    ensures inside { result ≡ true → Inside s.now.lists.now s.now.n }
    ensures value { mirrored (sections_of s.now.n s.now.lists.now) ≡ true → result ≡ true }
{
    for l in 0..s.n {
        if !all_below(s.section_of(l), s.n as u32) {
            return false;
        }
    }
    true
}

// Whether every entry has its mirror, equally often. The queues settle all lists that were made by adding clauses one by one, in linear time; where
// they do not meet, each entry is counted.
pub fn all_mirrored(s: &Sections) -> bool
    ensures { result ≡ mirrored (sections_of s.now.n s.now.lists.now) }
{
    all_inside(s) && (heads_meet(s) || exactly_mirrored(s))
}
