// Simplify a clause: a true literal drops it, false literals go, and the steps that say so are written.
// The lists are parameters of their own, as the C interface lends them: by `&mut` only those that the call may change.
#![tactic(auto)]

mod clause;

ghost use Rattle.std.specs.Prelude.{◌≡◌, Bool, true, ℕ, ◌≤◌, length};
ghost use Rattle.base.specs.Lent.{Fills, change};
ghost use Rattle.drat.specs.declared.Format.{Format};
ghost use Rattle.drat.specs.Grammar.{encode};
ghost use Rattle.scope.specs.declared.Simplified.TheVariants.{Kept, Dropped};
ghost use Rattle.scope.specs.Table.{Table};
ghost use Rattle.scope.specs.Sound.{soundb};
ghost use Rattle.scope.specs.Contract.{given, Meets, reads};
ghost use Rattle.scope.specs.Simplify.{flag_of, delete_cause, simplify_steps, simplify_of};
ghost use Rattle.steps.specs.Names.{names_by, Nameable};
ghost use Rattle.steps.specs.Refusals.{laid, laid_bytes};
ghost use Rattle.simplify.specs.Cuts.{SortedAs, Cuts, Written};
ghost use Rattle.simplify.specs.Values.{unfalse_by};
ghost use Rattle.simplify.specs.Answers.{reduced};

use clause::{Clause, keep_rest, sort_clause};
use drat::Format;
use scope::{Counts, DeleteClauseProof, ProofStep, Refusal, Simplified};
use steps::kinds::rule_of;
use steps::rename::{literal_refusal, rename_lits};
use steps::write::{bytes_len, put_bytes, write_judged};
use table::{Lists, copy_lits};

// The add step's redundant flag: only if the clause was and over two remain.
fn add_flag(what: Simplified, redundant: bool) -> bool
    ensures { result ≡ flag_of what redundant }
{
    redundant & matches!(what, Simplified::Shortened)
}

fn delete_cause(redundant: bool, otherwise: DeleteClauseProof) -> DeleteClauseProof
    ensures { result ≡ delete_cause redundant otherwise }
{
    if redundant {
        DeleteClauseProof::Redundant
    } else {
        otherwise
    }
}

// What was made of the clause, how many literals are left, the add step's flag, and how many bytes were filled.
#[derive(Clone, Copy)]
pub struct Reduced {
    pub what: Simplified,
    pub left: usize,
    pub redundant: bool,
    pub bytes: usize,
}

// A clause that is kept: 2.
fn keep_clause(lits: &[u32], out: &mut [u32]) -> Result<Reduced, Refusal>
    ensures { (f : Format) (t : Table) (redundant : Bool) (room : ℕ) → SortedAs t lits.now Kept →
        let o = simplify_of f t lits.now redundant (length out.old) room in
        ((reduced result t.counts).answer ≡ o.answer) × Fills (change out.old out.new) 0 o.words }
{
    if out.len() < lits.len() {
        return Err(Refusal::Short);
    }
    copy_lits(lits, out);
    Ok(Reduced {
        what: Simplified::Kept,
        left: lits.len(),
        redundant: false,
        bytes: 0,
    })
}

// A clause that is dropped, with one delete step: 2. The lists apart: in a program whose clauses are short the compiler then sees that they are.
fn drop_clause(
    gs: &[u32],
    f: Format,
    lits: &[u32],
    redundant: bool,
    bytes: &mut [u8],
) -> Result<Reduced, Refusal>
    requires { Nameable gs.now true lits.now }
    ensures { (t : Table) (outs : ℕ) → SortedAs t lits.now Dropped → t.global_from_solver ≡ gs.now →
        let o = simplify_of f t lits.now redundant outs (length bytes.old) in
        ((reduced result t.counts).answer ≡ o.answer) × Fills (change bytes.old bytes.new) 0 o.bytes }
{
    let cause = delete_cause(redundant, DeleteClauseProof::Satisfied);
    let writes = rule_of(ProofStep::DeleteClause(cause)).writes;
    let wrote = write_judged(gs, f, writes, true, lits, bytes)?;
    Ok(Reduced {
        what: Simplified::Dropped,
        left: 0,
        redundant: false,
        bytes: wrote,
    })
}

// An add step of the rest, then a delete step of the old clause, both under global names: 2.
fn put_both(
    f: Format,
    what: Simplified,
    redundant: bool,
    rest: &[u32],
    clause: &[u32],
    bytes: &mut [u8],
) -> Result<usize, Refusal>
    requires cuts { Cuts what }
    requires written { Written rest.now }
    requires written_2 { Written clause.now }
    ensures value { let steps = encode f (simplify_steps what redundant rest.now clause.now) in
        result ≡ laid steps (length bytes.old) }
    ensures bytes { let steps = encode f (simplify_steps what redundant rest.now clause.now) in
        Fills (change bytes.old bytes.new) 0 (laid_bytes steps (length bytes.old)) }
{
    let flag = add_flag(what, redundant);
    let adds = rule_of(ProofStep::AtClause(flag)).writes;
    let cause = delete_cause(redundant, DeleteClauseProof::Simplified);
    let deletes = rule_of(ProofStep::DeleteClause(cause)).writes;
    let a = bytes_len(f, adds, rest);
    let b = bytes_len(f, deletes, clause);
    if bytes.len() < a + b {
        return Err(Refusal::Short);
    }
    put_bytes(f, adds, rest, bytes, 0);
    put_bytes(f, deletes, clause, bytes, a);
    Ok(a + b)
}

// The rest and the old clause under global names, from the start of `rest` and `clause`; how many are left.
fn name_both(whole: &Clause, rest: &mut [u32], clause: &mut [u32]) -> usize
    requires lits_in_bounds { length whole.now.lits.now ≤ length rest.old }
    requires lits_in_bounds_2 { length whole.now.lits.now ≤ length clause.old }
    ensures value { result ≡ length (unfalse_by whole.now.assignment.now whole.now.lits.now) }
    ensures rest { Fills (change rest.old rest.new) 0 (names_by whole.now.gs.now true (unfalse_by whole.now.assignment.now whole.now.lits.now)) }
    ensures clause { Fills (change clause.old clause.new) 0 (names_by whole.now.gs.now true whole.now.lits.now) }
{
    rename_lits(whole.gs, true, whole.lits, clause);
    keep_rest(whole, true, rest)
}

// A clause from which false literals went, with places for the names of the rest and of the old clause: 12, 2.
fn shorten_over(
    whole: &Clause,
    f: Format,
    what: Simplified,
    redundant: bool,
    rest: &mut [u32],
    clause: &mut [u32],
    out: &mut [u32],
    bytes: &mut [u8],
) -> Result<Reduced, Refusal>
    requires cuts { Cuts what }
    requires lits_in_bounds { length whole.now.lits.now ≤ length rest.old }
    requires lits_in_bounds_2 { length whole.now.lits.now ≤ length clause.old }
    ensures { (t : Table) → SortedAs t whole.now.lits.now what → t.global_from_solver ≡ whole.now.gs.now → t.assignment ≡ whole.now.assignment.now →
        let o = simplify_of f t whole.now.lits.now redundant (length out.old) (length bytes.old) in
        ((reduced result t.counts).answer ≡ o.answer) × (Fills (change out.old out.new) 0 o.words × Fills (change bytes.old bytes.new) 0 o.bytes) }
{
    let k = name_both(whole, rest, clause);
    if k < 2 {
        return Err(Refusal::FewUnknown);
    }
    if out.len() < k {
        return Err(Refusal::Short);
    }
    let m = whole.lits.len();
    let wrote = put_both(f, what, redundant, &rest[..k], &clause[..m], bytes)?;
    keep_rest(whole, false, out);
    Ok(Reduced {
        what,
        left: k,
        redundant: add_flag(what, redundant),
        bytes: wrote,
    })
}

// The same, the places lent: short ones for few literals, since they are cleared at each call.
fn shorten_clause(
    whole: &Clause,
    f: Format,
    what: Simplified,
    redundant: bool,
    out: &mut [u32],
    bytes: &mut [u8],
) -> Result<Reduced, Refusal>
    requires { Cuts what }
    ensures { (t : Table) → SortedAs t whole.now.lits.now what → t.global_from_solver ≡ whole.now.gs.now → t.assignment ≡ whole.now.assignment.now →
        let o = simplify_of f t whole.now.lits.now redundant (length out.old) (length bytes.old) in
        ((reduced result t.counts).answer ≡ o.answer) × (Fills (change out.old out.new) 0 o.words × Fills (change bytes.old bytes.new) 0 o.bytes) }
{
    if whole.lits.len() <= 32 {
        let mut fewrest = [0u32; 32];
        let mut fewclause = [0u32; 32];
        return shorten_over(
            whole,
            f,
            what,
            redundant,
            &mut fewrest,
            &mut fewclause,
            out,
            bytes,
        );
    }
    let mut rest = [0u32; 8192];
    let mut clause = [0u32; 8192];
    shorten_over(
        whole,
        f,
        what,
        redundant,
        &mut rest,
        &mut clause,
        out,
        bytes,
    )
}

// Simplify (document 01, "Simplify a clause"; 1, 3, 8, 12, 2): the closure of `unit_simplify`.
// Definition: scope/specs/Simplify.antt, `simplify_of`; its answer: specs/Answers.antt, `reduced`.
pub fn simplify_clause(
    c: Counts,
    gu: &[u32],
    ug: &[u32],
    sg: &[u32],
    gs: &[u32],
    assignment: &[u32],
    records: &[u32],
    f: Format,
    lits: &[u32],
    redundant: bool,
    out: &mut [u32],
    bytes: &mut [u8],
) -> Result<Reduced, Refusal>
    ensures meets { Meets (λ t room. simplify_of f t lits.now redundant (length out.old) (length bytes.old)) (reduced result c)
        (reads c gu.now ug.now sg.now gs.now assignment.now records.now) }
    ensures out { Fills (change out.old out.new) 0
        (simplify_of f (given c gu.now ug.now sg.now gs.now assignment.now records.now) lits.now redundant (length out.old) (length bytes.old)).words }
    ensures bytes { Fills (change bytes.old bytes.new) 0
        (simplify_of f (given c gu.now ug.now sg.now gs.now assignment.now records.now) lits.now redundant (length out.old) (length bytes.old)).bytes }
{
    let t = Lists {
        counts: c,
        gu,
        ug,
        sg,
        gs,
        assignment,
        records,
    };
    t.check_sound()?;
    known_simplify_clause(
        c, gu, ug, sg, gs, assignment, records, f, lits, redundant, out, bytes,
    )
}

// Simplify on a table known to be sound, which is not tested.
// The same definition and answer.
pub fn known_simplify_clause(
    c: Counts,
    gu: &[u32],
    ug: &[u32],
    sg: &[u32],
    gs: &[u32],
    assignment: &[u32],
    records: &[u32],
    f: Format,
    lits: &[u32],
    redundant: bool,
    out: &mut [u32],
    bytes: &mut [u8],
) -> Result<Reduced, Refusal>
    requires { soundb (given c gu.now ug.now sg.now gs.now assignment.now records.now) ≡ true }
    ensures meets { Meets (λ t room. simplify_of f t lits.now redundant (length out.old) (length bytes.old)) (reduced result c)
        (reads c gu.now ug.now sg.now gs.now assignment.now records.now) }
    ensures out { Fills (change out.old out.new) 0
        (simplify_of f (given c gu.now ug.now sg.now gs.now assignment.now records.now) lits.now redundant (length out.old) (length bytes.old)).words }
    ensures bytes { Fills (change bytes.old bytes.new) 0
        (simplify_of f (given c gu.now ug.now sg.now gs.now assignment.now records.now) lits.now redundant (length out.old) (length bytes.old)).bytes }
{
    literal_refusal(c, gs, true, lits)?;
    let whole = Clause {
        gs,
        assignment,
        lits,
    };
    let what = sort_clause(assignment, lits);
    match what {
        Simplified::Kept => keep_clause(lits, out),
        Simplified::Dropped => drop_clause(gs, f, lits, redundant, bytes),
        Simplified::Shortened | Simplified::Binary => {
            shorten_clause(&whole, f, what, redundant, out, bytes)
        }
    }
}
