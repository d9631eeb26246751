// The answer of Read CNF.
ghost use Rattle.std.specs.Prelude.{◌≡◌, [], ◌∷◌};
ghost use Rattle.dimacs.specs.Calls.{cnf_read};
ghost use Rattle.numbers.specs.Surface.{located};

use dimacs::{CnfError, CnfSize};

// The header's number of variables, and how many literals and how many clauses were filled; with refusal 17, the start of the first wrong line.
#[repr(C)]
#[derive(Clone, Copy)]
pub struct HzCnf {
    pub refusal: u32,
    pub place: usize,
    pub variables: u32,
    pub lits: usize,
    pub clauses: usize,
}

pub fn cnf_out(r: Result<CnfSize, CnfError>) -> HzCnf
    ensures { result.refusal ∷ result.place ∷ result.variables ∷ result.lits ∷ result.clauses ∷ [] ≡ located 3 (cnf_read r) }
{
    match r {
        Ok(size) => HzCnf {
            refusal: 0,
            place: 0,
            variables: size.variables,
            lits: size.lits,
            clauses: size.clauses,
        },
        Err(CnfError::WrongLine(p)) => HzCnf {
            refusal: 17,
            place: p,
            variables: 0,
            lits: 0,
            clauses: 0,
        },
        Err(CnfError::Room) => HzCnf {
            refusal: 2,
            place: 0,
            variables: 0,
            lits: 0,
            clauses: 0,
        },
    }
}
