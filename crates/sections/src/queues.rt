// Whether every entry has its mirror, where the two meet at the heads of their sections. A clause that is added goes to the end of two sections, so
// that in lists made so an entry and its mirror come to the heads together. Each section is a queue; an entry is taken with its mirror where both
// are heads; else the section of the mirror comes first, and the one that waits for it is kept on a path.
ghost use Rattle.std.specs.Prelude.{◌≡◌, true, ℕ, ◌+◌, ◌<◌, ◌≤◌, length, get_or};
ghost use Rattle.scope.specs.Binary.{sections_of, mirrored};
ghost use Rattle.sections.specs.Places.{Inside};
ghost use Rattle.sections.specs.Queues.{Even, Facing, Going, Turned};

use crate::{Sections, not_lit};

// What came of the head of a section: none is left; it is taken with its mirror; the section of its mirror comes first; its mirror is missing.
#[derive(Clone, Copy)]
enum Met {
    Done,
    Taken,
    Waits(usize),
    Missing,
}

// The first section not yet begun, the number of sections on the path, and the turns left.
#[derive(Clone, Copy)]
struct Walk {
    next: usize,
    waiting: usize,
    turns: usize,
}

// Each head is the first entry.
fn start_heads(place: &[usize], n: usize, head: &mut [usize; 8192])
    requires n_bound { n ≤ 8192 }
    requires place_len { length place.now ≡ 8193 }
    requires by_index { (l : ℕ) → l < n → get_or place.now l 0 < get_or place.now (l + 1) 0 }
    ensures { (l : ℕ) → l < n → get_or head.new l 0 ≡ get_or place.now l 0 + 1 }
{
    for l in 0..n {
        head[l] = place[l] + 1;
    }
}

// The head of x is at h; its mirror is in another section, that of y.
fn meet_mirror(s: &Sections, x: usize, h: usize, y: usize, head: &mut [usize; 8192]) -> Met
    requires even { Even s.now.lists.now s.now.n s.now.place.now head.old }
    requires facing { Facing s.now.lists.now s.now.n s.now.place.now head.old x h y }
    ensures { Even s.now.lists.now s.now.n s.now.place.now head.new }
{
    let k = head[y];
    if s.place[y + 1] <= k {
        return Met::Missing;
    }
    if s.lists[k] != not_lit(x as u32) {
        return Met::Waits(y);
    }
    head[x] = h + 1;
    head[y] = k + 1;
    Met::Taken
}

// What comes of the head of x.
fn meet_head(s: &Sections, x: usize, head: &mut [usize; 8192]) -> Met
    requires inside { Inside s.now.lists.now s.now.n }
    requires even { Even s.now.lists.now s.now.n s.now.place.now head.old }
    ensures { Even s.now.lists.now s.now.n s.now.place.now head.new }
{
    if s.n <= x {
        return Met::Missing;
    }
    let h = head[x];
    if s.place[x + 1] <= h {
        return Met::Done;
    }
    let y = not_lit(s.lists[h]) as usize;
    if y != x {
        return meet_mirror(s, x, h, y, head);
    }
    head[x] = h + 1;
    Met::Taken
}

impl Walk {
    // The section that is looked at: the last one on the path, else the next one.
    fn looked_at(self, path: &[usize; 8192]) -> usize
        requires waiting_bound { self.waiting ≤ 8192 }
    {
        if self.waiting == 0 {
            self.next
        } else {
            path[self.waiting - 1]
        }
    }

    // No turn is left.
    fn ended(mut self) -> Walk
        requires { Going self.next self.waiting self.turns }
        ensures { Turned self.next self.turns result.next result.waiting result.turns }
    {
        self.waiting = 0;
        self.turns = 0;
        self
    }

    // The last section leaves the path; where there is none, the next section moves up by `done`.
    fn came_back(mut self, done: usize) -> Walk
        requires going { Going self.next self.waiting self.turns }
        requires done_bound { done ≤ 1 }
        ensures { Turned self.next self.turns result.next result.waiting result.turns }
    {
        self.turns -= 1;
        if self.waiting == 0 {
            self.next += done;
        } else {
            self.waiting -= 1;
        }
        self
    }

    // The section of y is put on the path. Where the path is full, the walk ends.
    fn goes_to(mut self, y: usize, path: &mut [usize; 8192]) -> Walk
        requires going { Going self.next self.waiting self.turns }
        ensures { Turned self.next self.turns result.next result.waiting result.turns }
    {
        if self.waiting == 8192 {
            return self.ended();
        }
        path[self.waiting] = y;
        self.waiting += 1;
        self.turns -= 1;
        self
    }

    fn after(self, met: Met, path: &mut [usize; 8192]) -> Walk
        requires going { Going self.next self.waiting self.turns }
        ensures { Turned self.next self.turns result.next result.waiting result.turns }
    {
        match met {
            Met::Done => self.came_back(1),
            Met::Taken => self.came_back(0),
            Met::Waits(y) => self.goes_to(y, path),
            Met::Missing => self.ended(),
        }
    }
}

// Whether every queue is at its end.
fn all_taken(place: &[usize], n: usize, head: &[usize; 8192]) -> bool
    requires n_bound { n ≤ 8192 }
    requires place_len { length place.now ≡ 8193 }
    ensures { result ≡ true → (l : ℕ) → l < n → get_or head.now l 0 ≡ get_or place.now (l + 1) 0 }
{
    head[..n] == place[1..n + 1]
}

// An entry that is taken lets the section that waits for it go on, so that there are at most as many waits as takings.
pub(crate) fn heads_meet(s: &Sections) -> bool
    requires { Inside s.now.lists.now s.now.n }
    ensures { result ≡ true → mirrored (sections_of s.now.n s.now.lists.now) ≡ true }
{
    let mut head = [0usize; 8192];
    let mut path = [0usize; 8192];
    start_heads(s.place, s.n, &mut head);
    let turns = 2 * s.lists.len() + 16384;
    let mut walk = Walk {
        next: 0,
        waiting: 0,
        turns,
    };
    // Not once for each entry: a turn may go back in a queue.
    while 0 < walk.turns {
        let x = walk.looked_at(&path);
        let met = meet_head(s, x, &mut head);
        walk = walk.after(met, &mut path);
    }
    all_taken(s.place, s.n, &head)
}
