// Read CNF: the clauses of a DIMACS CNF file.
#![tactic(auto)]

ghost use Rattle.std.specs.Prelude.{◌≡◌, length};
ghost use Rattle.base.specs.Lent.{Fills, change};
ghost use Rattle.dimacs.specs.Calls.{read_cnf_of, cnf_read};

use dimacs::{CnfError, CnfSize};
use fill::fill;
use heading::{head_at, header_place};
use lines::count;

mod fill;
mod heading;
mod lines;
mod place;

// 17, with the place of the first wrong line; then 2. All lines are judged before anything is filled.
// dimacs/specs/Calls.antt: read_cnf_of, and cnf_read for the answer.
pub fn read_cnf(bytes: &[u8], codes: &mut [u32], ends: &mut [u64]) -> Result<CnfSize, CnfError>
    ensures value { let w = read_cnf_of bytes.now (length codes.old) (length ends.old) in
        cnf_read result ≡ w.answer }
    ensures codes { let w = read_cnf_of bytes.now (length codes.old) (length ends.old) in
        Fills (change codes.old codes.new) 0 w.codes }
    ensures ends { let w = read_cnf_of bytes.now (length codes.old) (length ends.old) in
        Fills (change ends.old ends.new) 0 w.ends }
{
    let place = header_place(bytes);
    let Some(head) = head_at(bytes, place) else {
        return Err(CnfError::WrongLine(place));
    };
    let size = match count(bytes, head.next, head.variables) {
        Ok(size) => size,
        Err(start) => return Err(CnfError::WrongLine(start)),
    };
    if head.clauses != size.steps as u64 {
        return Err(CnfError::WrongLine(place));
    }
    if codes.len() < size.lits || ends.len() < size.steps {
        return Err(CnfError::Room);
    }
    fill(bytes, head.next, head.variables, codes, ends);
    Ok(CnfSize {
        variables: head.variables,
        lits: size.lits,
        clauses: size.steps,
    })
}
