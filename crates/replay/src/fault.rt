// What can be wrong with a line, and what ends a run before the input does.
use crate::part::Part;
use std::error::Error;
use std::{fmt, io};

#[derive(Clone, Copy, Debug, PartialEq, Eq)]
pub enum Fault {
    // The answer differs: the refusal, or a number after it, from 1 on.
    Refusal,
    Value(usize),
    // The counts differ, or what the call filled or left of a slice.
    Differs(Part),
    // One of the six lists differs.
    List(usize),
    // The line is not in the form.
    Byte,
    Large,
    Name,
    Long,
    Shape,
    Cut,
}

impl Error for Fault {}

impl fmt::Display for Fault {
    fn fmt<W: fmt::Write>(&self, f: &mut fmt::Formatter<W>) -> fmt::Result {
        match self {
            Fault::Refusal => write!(f, "the refusal differs"),
            Fault::Value(n) => write!(f, "value {n} differs"),
            Fault::Differs(part) => write!(f, "{part} differ"),
            Fault::List(n) => write!(f, "list {n} differs"),
            Fault::Byte => write!(f, "a byte that has no place here"),
            Fault::Large => write!(f, "a number is too large"),
            Fault::Name => write!(f, "an unknown name, or a part twice"),
            Fault::Long => write!(f, "too many numbers"),
            Fault::Shape => write!(f, "not what this call takes"),
            Fault::Cut => write!(f, "the line is cut"),
        }
    }
}

// A fault is told. A read or a write that fails is the program's error.
#[derive(Debug, Drop)]
pub enum Stop {
    Fault(Fault),
    Failed(io::Error),
}

impl From<Fault> for Stop {
    fn from(fault: Fault) -> Stop {
        Stop::Fault(fault)
    }
}

impl From<io::Error> for Stop {
    fn from(e: io::Error) -> Stop {
        Stop::Failed(e)
    }
}
