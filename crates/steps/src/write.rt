// Write: the DRAT bytes of a step, its literals under global names (`add_step` of src/proof.rs, src/proof/drat.rs).
// The calls take each list, the step and what stands beside it apart, as the C interface lends them.
ghost use Rattle.std.specs.Prelude.{◌≡◌, true, ◌+◌, ◌≤◌, length};
ghost use Rattle.base.specs.Lent.{Fills, change};
ghost use Rattle.drat.specs.Grammar.{encode, Codes};
ghost use Rattle.scope.specs.declared.Writes.TheVariants.{AddEach};
ghost use Rattle.scope.specs.Sound.{soundb};
ghost use Rattle.scope.specs.Contract.{given, Meets, reads};
ghost use Rattle.scope.specs.Steps.{written};
ghost use Rattle.scope.specs.Write.{write_of};
ghost use Rattle.steps.specs.Names.{names_by, Nameable};
ghost use Rattle.steps.specs.Refusals.{laid, laid_bytes};
ghost use Rattle.steps.specs.Answers.{recorded};

use crate::kinds::{is_lacked, literals_of, rule_of};
use crate::rename::{rename_lits, step_refusal};
use drat::{Format, Kind};
use drat_write::{put_step, step_len};
use scope::{Counts, ProofStep, Refusal, Writes};
use table::Lists;

// How many bytes one add per unit takes, each a part of the buffer (document 01).
fn units_len(f: Format, lits: &[u32]) -> usize
    requires codes { Codes lits.now }
    requires lits_len_bound { length lits.now ≤ 8192 }
    ensures value { result ≡ length (encode f (written AddEach lits.now)) }
    ensures upper_bound { result ≤ 402685952 }
{
    let mut n = 0;
    for i in 0..lits.len() {
        n += step_len(f, Kind::Add, &lits[i..i + 1]);
    }
    n
}

// One add per unit, each a part of the buffer (document 01); the place after them.
fn put_units(f: Format, lits: &[u32], out: &mut [u8], at: usize) -> usize
    requires codes { Codes lits.now }
    requires lits_in_bounds { at + length (encode f (written AddEach lits.now)) ≤ length out.old }
    ensures value { result ≡ at + length (encode f (written AddEach lits.now)) }
    ensures fills { Fills (change out.old out.new) at (encode f (written AddEach lits.now)) }
{
    let mut p = at;
    for i in 0..lits.len() {
        p = put_step(f, Kind::Add, &lits[i..i + 1], out, p);
    }
    p
}

// How many bytes a step takes that writes so, its literals under global names.
pub fn bytes_len(f: Format, writes: Writes, lits: &[u32]) -> usize
    requires codes { Codes lits.now }
    requires lits_len_bound { length lits.now ≤ 8192 }
    ensures value { result ≡ length (encode f (written writes lits.now)) }
    ensures upper_bound { result ≤ 402685952 }
{
    match writes {
        Writes::Add => step_len(f, Kind::Add, lits),
        Writes::AddEach => units_len(f, lits),
        Writes::Delete => step_len(f, Kind::Delete, lits),
        Writes::Nothing => 0,
        Writes::Refused => 0,
    }
}

// Its bytes from the place `at` on; the place after them.
pub fn put_bytes(f: Format, writes: Writes, lits: &[u32], out: &mut [u8], at: usize) -> usize
    requires codes { Codes lits.now }
    requires lits_in_bounds { at + length (encode f (written writes lits.now)) ≤ length out.old }
    ensures value { result ≡ at + length (encode f (written writes lits.now)) }
    ensures fills { Fills (change out.old out.new) at (encode f (written writes lits.now)) }
{
    match writes {
        Writes::Add => put_step(f, Kind::Add, lits, out, at),
        Writes::AddEach => put_units(f, lits, out, at),
        Writes::Delete => put_step(f, Kind::Delete, lits, out, at),
        Writes::Nothing => at,
        Writes::Refused => at,
    }
}

// A step of which all but the room is judged, with a place for its literals' names (2); how many bytes were filled.
fn write_over(
    gs: &[u32],
    f: Format,
    writes: Writes,
    solvervars: bool,
    lits: &[u32],
    names: &mut [u32],
    out: &mut [u8],
) -> Result<usize, Refusal>
    requires nameable { Nameable gs.now solvervars lits.now }
    requires lits_in_bounds { length lits.now ≤ length names.old }
    ensures value { let bytes = encode f (written writes (names_by gs.now solvervars lits.now)) in
        result ≡ laid bytes (length out.old) }
    ensures out { let bytes = encode f (written writes (names_by gs.now solvervars lits.now)) in
        Fills (change out.old out.new) 0 (laid_bytes bytes (length out.old)) }
{
    rename_lits(gs, solvervars, lits, names);
    let k = lits.len();
    let n = bytes_len(f, writes, &names[..k]);
    if out.len() < n {
        return Err(Refusal::Short);
    }
    put_bytes(f, writes, &names[..k], out, 0);
    Ok(n)
}

// The same, the place lent: a short one for few literals, since it is cleared at each call.
pub fn write_judged(
    gs: &[u32],
    f: Format,
    writes: Writes,
    solvervars: bool,
    lits: &[u32],
    out: &mut [u8],
) -> Result<usize, Refusal>
    requires { Nameable gs.now solvervars lits.now }
    ensures value { let bytes = encode f (written writes (names_by gs.now solvervars lits.now)) in
        result ≡ laid bytes (length out.old) }
    ensures out { let bytes = encode f (written writes (names_by gs.now solvervars lits.now)) in
        Fills (change out.old out.new) 0 (laid_bytes bytes (length out.old)) }
{
    if lits.len() <= 32 {
        let mut few = [0u32; 32];
        return write_over(gs, f, writes, solvervars, lits, &mut few, out);
    }
    if lits.len() <= 512 {
        let mut more = [0u32; 512];
        return write_over(gs, f, writes, solvervars, lits, &mut more, out);
    }
    let mut most = [0u32; 8192];
    write_over(gs, f, writes, solvervars, lits, &mut most, out)
}

// Write (document 01, "Rename and write"; 1, 14, 3, 8, 11, 2): `add_step`.
// Definition: scope/specs/Write.antt, `write_of`; its answer: specs/Answers.antt, `recorded`.
pub fn write_step(
    c: Counts,
    gu: &[u32],
    ug: &[u32],
    sg: &[u32],
    gs: &[u32],
    assignment: &[u32],
    records: &[u32],
    f: Format,
    step: ProofStep,
    solvervars: bool,
    lits: &[u32],
    hashes: &[u64],
    out: &mut [u8],
) -> Result<usize, Refusal>
    ensures meets { Meets (λ t room. write_of f t step solvervars lits.now hashes.now (length out.old)) (recorded result c)
        (reads c gu.now ug.now sg.now gs.now assignment.now records.now) }
    ensures out { Fills (change out.old out.new) 0
        (write_of f (given c gu.now ug.now sg.now gs.now assignment.now records.now) step solvervars lits.now hashes.now (length out.old)).bytes }
{
    let t = Lists {
        counts: c,
        gu,
        ug,
        sg,
        gs,
        assignment,
        records,
    };
    t.check_sound()?;
    known_write_step(
        c, gu, ug, sg, gs, assignment, records, f, step, solvervars, lits, hashes, out,
    )
}

// Write on a table known to be sound, which is not tested.
// The same definition and answer.
pub fn known_write_step(
    c: Counts,
    gu: &[u32],
    ug: &[u32],
    sg: &[u32],
    gs: &[u32],
    assignment: &[u32],
    records: &[u32],
    f: Format,
    step: ProofStep,
    solvervars: bool,
    lits: &[u32],
    hashes: &[u64],
    out: &mut [u8],
) -> Result<usize, Refusal>
    requires { soundb (given c gu.now ug.now sg.now gs.now assignment.now records.now) ≡ true }
    ensures meets { Meets (λ t room. write_of f t step solvervars lits.now hashes.now (length out.old)) (recorded result c)
        (reads c gu.now ug.now sg.now gs.now assignment.now records.now) }
    ensures out { Fills (change out.old out.new) 0
        (write_of f (given c gu.now ug.now sg.now gs.now assignment.now records.now) step solvervars lits.now hashes.now (length out.old)).bytes }
{
    let t = Lists {
        counts: c,
        gu,
        ug,
        sg,
        gs,
        assignment,
        records,
    };
    step_refusal(&t, step, solvervars, lits, hashes)?;
    let writes = rule_of(step).writes;
    if is_lacked(writes) {
        return Err(Refusal::NotInDrat);
    }
    write_judged(gs, f, writes, solvervars, literals_of(step, lits), out)
}
