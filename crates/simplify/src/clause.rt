// A clause by the values of its literals (closure of `unit_simplify`, src/unit_simplify.rs).
ghost use Rattle.std.specs.Prelude.{◌≡◌, true, not, ◌≤◌, length};
ghost use Rattle.std.specs.List.{list_any, count_by};
ghost use Rattle.base.specs.Lent.{Fills, change};
ghost use Rattle.scope.specs.Table.{Table};
ghost use Rattle.scope.specs.Simplify.{simplified};
ghost use Rattle.steps.specs.Names.{names_by, Nameable};
ghost use Rattle.simplify.specs.Values.{true_by, false_by, unfalse_by};

use scope::Simplified;
use steps::rename::rename_lit;
use table::word_at;

// A clause whose literals all have holders, with the lists that it is simplified by.
#[derive(Clone, Copy)]
pub struct Clause<'a> {
    pub gs: &'a [u32],
    pub assignment: &'a [u32],
    pub lits: &'a [u32],
    pub ghost nameable: { Nameable gs.now true lits.now },
}

fn is_true(assignment: &[u32], code: u32) -> bool
    ensures { result ≡ true_by assignment.now code }
{
    word_at(assignment, code / 2) == 2 - code % 2
}

fn is_false(assignment: &[u32], code: u32) -> bool
    ensures { result ≡ false_by assignment.now code }
{
    word_at(assignment, code / 2) == 1 + code % 2
}

fn any_true(assignment: &[u32], lits: &[u32]) -> bool
    ensures { result ≡ list_any (true_by assignment.now) lits.now }
{
    lits.iter().any(|lit| is_true(assignment, *lit))
}

// How many literals are not false. In a loop: by `filter` and `count` of an iterator a clause that is kept took a third more instructions.
fn count_unfalse(assignment: &[u32], lits: &[u32]) -> usize
    ensures { result ≡ count_by (λ c. not (false_by assignment.now c)) lits.now }
{
    let mut k = 0;
    for lit in lits {
        if !is_false(assignment, *lit) {
            k += 1;
        }
    }
    k
}

// A true literal drops the clause; otherwise false literals go. Two left then is binary; where none went, it is kept.
pub fn sort_clause(assignment: &[u32], lits: &[u32]) -> Simplified
    ensures { (t : Table) → t.assignment ≡ assignment.now → result ≡ simplified t lits.now }
{
    if any_true(assignment, lits) {
        return Simplified::Dropped;
    }
    let k = count_unfalse(assignment, lits);
    if lits.len() <= k {
        return Simplified::Kept;
    }
    if k == 2 {
        return Simplified::Binary;
    }
    Simplified::Shortened
}

// The literals that are not false, from the start of `out`: under global names, or as given.
pub fn keep_rest(whole: &Clause, named: bool, out: &mut [u32]) -> usize
    requires { length (unfalse_by whole.now.assignment.now whole.now.lits.now) ≤ length out.old }
    ensures value { result ≡ length (unfalse_by whole.now.assignment.now whole.now.lits.now) }
    ensures fills { Fills (change out.old out.new) 0 (names_by whole.now.gs.now named (unfalse_by whole.now.assignment.now whole.now.lits.now)) }
{
    let Clause {
        gs,
        assignment,
        lits,
    } = *whole;
    let mut k = 0;
    for lit in lits {
        if !is_false(assignment, *lit) {
            out[k] = rename_lit(gs, named, *lit);
            k += 1;
        }
    }
    k
}
