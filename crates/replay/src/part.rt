// The parts of a line.
ghost use Rattle.std.specs.Prelude.{◌<◌};

use crate::fault::Fault;
use std::fmt;
use std::str::FromStr;

#[derive(Clone, Copy, Debug, PartialEq, Eq)]
pub enum Part {
    Args,
    Lits,
    Hashes,
    Proof,
    Room,
    Gives,
    Notes,
    Words,
    More,
    Bytes,
    Counts,
    Set,
}

impl Part {
    pub const COUNT: usize = 12;

    // From 0 on.
    pub fn index(self) -> usize
        ensures { result < 12 }
    {
        match self {
            Part::Args => 0,
            Part::Lits => 1,
            Part::Hashes => 2,
            Part::Proof => 3,
            Part::Room => 4,
            Part::Gives => 5,
            Part::Notes => 6,
            Part::Words => 7,
            Part::More => 8,
            Part::Bytes => 9,
            Part::Counts => 10,
            Part::Set => 11,
        }
    }

    // All but the arguments, which begin with the call's name.
    const NAMED: [Part; 11] = [
        Part::Lits,
        Part::Hashes,
        Part::Proof,
        Part::Room,
        Part::Gives,
        Part::Notes,
        Part::Words,
        Part::More,
        Part::Bytes,
        Part::Counts,
        Part::Set,
    ];

    fn name(self) -> &'static str {
        match self {
            Part::Args => "args",
            Part::Lits => "lits",
            Part::Hashes => "hashes",
            Part::Proof => "proof",
            Part::Room => "room",
            Part::Gives => "gives",
            Part::Notes => "notes",
            Part::Words => "words",
            Part::More => "more",
            Part::Bytes => "bytes",
            Part::Counts => "counts",
            Part::Set => "set",
        }
    }
}

impl FromStr for Part {
    type Err = Fault;

    fn from_str(name: &str) -> Result<Part, Fault> {
        let mut parts = Part::NAMED.into_iter();
        parts.find(|part| part.name() == name).ok_or(Fault::Name)
    }
}

impl fmt::Display for Part {
    fn fmt<W: fmt::Write>(&self, f: &mut fmt::Formatter<W>) -> fmt::Result {
        write!(f, "{}", self.name())
    }
}
