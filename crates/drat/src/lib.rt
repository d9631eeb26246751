// The types of the DRAT codec. Its definitions are in specs/, their laws in proofs/.
#![tactic(auto)]

use std::fmt;

#[derive(Clone, Copy, Debug, PartialEq, Eq)]
pub enum Format {
    Text,
    Binary,
}

#[derive(Clone, Copy, Debug, PartialEq, Eq)]
pub enum Kind {
    Add,
    Delete,
}

// What stands at a place inside a step: a literal's code and the place after it, or the step's end and the place after it.
#[derive(Clone, Copy, Debug, PartialEq, Eq)]
pub enum Token {
    Lit(u32, usize),
    Stop(usize),
}

// The numbers of literals and of steps.
#[derive(Clone, Copy, Debug, PartialEq, Eq)]
pub struct Size {
    pub lits: usize,
    pub steps: usize,
}

// Read: the start of the first step that is not whole; or an output slice is too short.
#[derive(Clone, Copy, Debug, PartialEq, Eq)]
pub enum ReadError {
    NotWhole(usize),
    Room,
}

impl fmt::Display for ReadError {
    fn fmt<W: fmt::Write>(&self, f: &mut fmt::Formatter<W>) -> fmt::Result {
        match self {
            ReadError::NotWhole(place) => write!(f, "the step at byte {place} is not whole"),
            ReadError::Room => write!(f, "an output slice is too short"),
        }
    }
}

// Why a writer writes nothing: these lists or literals cannot be written, or the output is too short. If it writes, it gives the place after.
#[derive(Clone, Copy, Debug, PartialEq, Eq)]
pub enum WriteError {
    Outside,
    Room,
}

impl fmt::Display for WriteError {
    fn fmt<W: fmt::Write>(&self, f: &mut fmt::Formatter<W>) -> fmt::Result {
        match self {
            WriteError::Outside => write!(f, "not to be written"),
            WriteError::Room => write!(f, "no room in the output"),
        }
    }
}
