// The tests of one list, or of two, of which soundness is made. Tails are tested first: at or above a watermark the other tests then hold.
// No loop stops at a fault, so that most of them are done several words at a time. The time does depend on what the table holds: a test that
// fails leaves out those after it, and the second map of a pair is read where the words of the first point.
ghost use Rattle.std.specs.Prelude.{◌≡◌, true, ◌&&◌, not, ◌-◌, ◌≤◌, Bool, ℕ, eqb, length, get_or};
ghost use Rattle.base.specs.Bounded.{all_below, count};
ghost use Rattle.base.specs.Choice.{pick};
ghost use Rattle.scope.specs.Sound.{sizesb, marksb, at_mostb, tailb, backb, namedb, deletedb, tailsb};
ghost use Rattle.scope.specs.Table.{least_free, is_undeleted};
ghost use Rattle.table.specs.Checks.{is_filled, rowb};
ghost use Rattle.table.specs.Lists.{seen};

use crate::Lists;
use scope::Counts;

// Watermarks: neither users nor solver indices reach further than globals, nor these than the capacity.
pub fn marks_ok(c: Counts) -> bool
    ensures { result ≡ marksb c }
{
    (c.user <= c.global) & (c.solver <= c.global) & (c.global <= c.capacity)
}

// At or above the mark the list has the blank.
fn tail_ok(mark: u32, blank: u32, xs: &[u32]) -> bool
    requires { mark ≤ length xs.now }
    ensures { result ≡ tailb mark blank xs.now }
{
    let mut ok = true;
    for i in mark as usize..xs.len() {
        ok = ok & (xs[i] == blank);
    }
    ok
}

// The same of two lists with 0 for the blank, in one pass.
fn two_tails_ok(mark: u32, xs: &[u32], ys: &[u32]) -> bool
    requires mark_in_bounds { mark ≤ length xs.now }
    requires ys_len { length ys.now ≡ length xs.now }
    ensures { result ≡ (tailb mark 0 xs.now && tailb mark 0 ys.now) }
{
    let mut ok = true;
    for i in mark as usize..xs.len() {
        ok = ok & ((xs[i] == 0) & (ys[i] == 0));
    }
    ok
}

// Every word is at most m.
pub fn at_most(m: u32, xs: &[u32], mark: u32) -> bool
    requires mark_in_bounds { mark ≤ length xs.now }
    requires xs_value { tailb mark 0 xs.now ≡ true }
    ensures { result ≡ at_mostb m xs.now }
{
    let mut ok = true;
    for i in 0..mark as usize {
        ok = ok & (xs[i] <= m);
    }
    ok
}

// The place that a map's word names, 0 where it names none.
fn place(x: u32) -> usize
    ensures { result ≡ x - 1 }
{
    if x == 0 { 0 } else { (x - 1) as usize }
}

// What the first map takes i to, the second takes back to i.
fn back_ok(a: &[u32], b: &[u32], mark: u32) -> bool
    requires mark_in_bounds { mark ≤ length a.now }
    requires a_value { tailb mark 0 a.now ≡ true }
    requires in_bounds { 1 ≤ length b.now }
    requires b_len_bound { length b.now ≤ 4096 }
    ensures { result ≡ backb a.now b.now }
{
    if !at_most(b.len() as u32, a, mark) {
        return false;
    }
    let mut ok = true;
    for i in 0..mark {
        let x = a[i as usize];
        ok = ok & ((x == 0) | (b[place(x)] == i + 1));
    }
    ok
}

// How many of the first n words pass the test. Counted in a loop, which is done several words at a time: with `filter` and `count` of the
// iterator, which are not, the test of a whole table takes 2.2 times as long.
pub fn count_words<F: Fn(u32) -> bool>(xs: &[u32], n: u32, test: F) -> u32
    requires n_in_bounds { n ≤ length xs.now }
    requires callable { F.IsAlwaysCallable test }
    ensures { (p : ℕ → Bool) → ((x : ℕ) (b : Bool) → F.post test x b → b ≡ p x) → result ≡ count n (λ i. p (get_or xs.now i 0)) }
{
    let mut k: u32 = 0;
    for i in 0..n as usize {
        k += u32::from(test(xs[i]));
    }
    k
}

// How many words are not 0.
fn filled(xs: &[u32], mark: u32) -> u32
    requires mark_in_bounds { mark ≤ length xs.now }
    requires xs_value { tailb mark 0 xs.now ≡ true }
    ensures { result ≡ count (length xs.now) (is_filled xs.now) }
{
    count_words(xs, mark, |w| w != 0)
}

// Two maps are mutually inverse: what the first takes i to the second takes back, and no word of the second is left over.
pub fn pair_ok(a: &[u32], b: &[u32], amark: u32, bmark: u32) -> bool
    requires amark_in_bounds { amark ≤ length a.now }
    requires bmark_in_bounds { bmark ≤ length b.now }
    requires a_value { tailb amark 0 a.now ≡ true }
    requires b_value { tailb bmark 0 b.now ≡ true }
    requires in_bounds { 1 ≤ length b.now }
    requires b_len_bound { length b.now ≤ 4096 }
    ensures { result ≡ (backb a.now b.now && backb b.now a.now) }
{
    if !back_ok(a, b, amark) {
        return false;
    }
    filled(a, amark) == filled(b, bmark)
}

fn row_ok(w: u32, user: u32, solver: u32) -> bool
    ensures { result ≡ rowb w user solver }
{
    (w <= 71)
        & ((user != 0) == ((w < 36) & (w % 3 != 2)))
        & ((w < 36) | ((w % 3 == 2) & (w / 9 % 2 == 1) & (solver == 0)))
}

// No record above 71; users for globals that are neither deleted nor hidden, and no others; deleted ones hidden, isolated, holding no index.
pub fn rows_ok(records: &[u32], ug: &[u32], sg: &[u32], mark: u32) -> bool
    requires mark_in_bounds { mark ≤ length records.now }
    requires mark_in_bounds_2 { mark ≤ length ug.now }
    requires mark_in_bounds_3 { mark ≤ length sg.now }
    requires records_value { tailb mark 47 records.now ≡ true }
    requires ug_value { tailb mark 0 ug.now ≡ true }
    requires sg_value { tailb mark 0 sg.now ≡ true }
    ensures { result ≡ (at_mostb 71 records.now && namedb records.now ug.now && deletedb records.now sg.now) }
{
    let mut ok = true;
    for i in 0..mark as usize {
        ok = ok & row_ok(records[i], ug[i], sg[i]);
    }
    ok
}

// Above the watermarks: maps and assignment 0, records fresh.
pub fn tails_ok(t: &Lists) -> bool
    requires sizes { sizesb (seen t.now) ≡ true }
    requires marks { marksb t.now.counts ≡ true }
    ensures { result ≡ tailsb (seen t.now) }
{
    let c = t.counts;
    tail_ok(c.user, 0, t.gu)
        & two_tails_ok(c.global, t.ug, t.sg)
        & two_tails_ok(c.solver, t.gs, t.assignment)
        & tail_ok(c.global, 47, t.records)
}

// How many globals are undeleted.
fn undeleted(records: &[u32], mark: u32) -> u32
    requires mark_in_bounds { mark ≤ length records.now }
    requires records_value { tailb mark 47 records.now ≡ true }
    ensures { result ≡ count (length records.now) (is_undeleted records.now) }
{
    count_words(records, mark, |w| w < 36)
}

// Every word below n is filled.
fn all_filled(xs: &[u32], n: u32) -> bool
    requires { n ≤ length xs.now }
    ensures { result ≡ all_below n (is_filled xs.now) }
{
    let mut ok = true;
    for i in 0..n as usize {
        ok = ok & (xs[i] != 0);
    }
    ok
}

// The number is the least index below the mark at which the map has 0, else the mark.
fn next_ok(xs: &[u32], mark: u32, next: u32) -> bool
    requires { mark ≤ length xs.now }
    ensures { result ≡ eqb next (least_free xs.now mark) }
{
    if mark < next {
        return false;
    }
    if !all_filled(xs, next) {
        return false;
    }
    if next == mark {
        return true;
    }
    xs[next as usize] == 0
}

// The stored numbers are those of the recount.
pub fn stored_ok(c: Counts, gs: &[u32], records: &[u32]) -> bool
    requires solver_in_bounds { c.solver ≤ length gs.now }
    requires global_in_bounds { c.global ≤ length records.now }
    requires records_value { tailb c.global 47 records.now ≡ true }
    ensures { result ≡ (eqb c.used (count (length records.now) (is_undeleted records.now)) && eqb c.next (least_free gs.now c.solver)) }
{
    (c.used == undeleted(records, c.global)) & next_ok(gs, c.solver, c.next)
}
