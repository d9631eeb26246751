// The types of DIMACS CNF. Its definitions are in specs/, their laws in proofs/.
#![tactic(auto)]

use std::fmt;

// What Read CNF fills: the header's V, and the numbers of literals and of clauses.
#[derive(Clone, Copy, Debug, PartialEq, Eq)]
pub struct CnfSize {
    pub variables: u32,
    pub lits: usize,
    pub clauses: usize,
}

// Read CNF: the start of the first wrong line; or an output slice is too short.
#[derive(Clone, Copy, Debug, PartialEq, Eq)]
pub enum CnfError {
    WrongLine(usize),
    Room,
}

impl fmt::Display for CnfError {
    fn fmt<W: fmt::Write>(&self, f: &mut fmt::Formatter<W>) -> fmt::Result {
        match self {
            CnfError::WrongLine(place) => write!(f, "the line at byte {place} is wrong"),
            CnfError::Room => write!(f, "an output slice is too short"),
        }
    }
}
