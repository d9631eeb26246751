// The kinds of a line: the calls, and the line that loads a table.
use crate::fault::Fault;
use std::fmt;
use std::str::FromStr;

#[derive(Clone, Copy, Debug, PartialEq, Eq, PartialOrd, Ord)]
pub enum Call {
    Lookup,
    Map,
    NewUser,
    Pose,
    Grant,
    SetMode,
    Observe,
    Mark,
    Assign,
    Remove,
    Sweep,
    Simplify,
    Rename,
    Write,
    Model,
    Open,
    Read,
    First,
    Sound,
    Binary,
    WriteCnf,
    ReadCnf,
    Load,
}

impl Call {
    pub const COUNT: usize = 23;

    // In the order in which they are counted.
    pub const ALL: [Call; Call::COUNT] = [
        Call::Lookup,
        Call::Map,
        Call::NewUser,
        Call::Pose,
        Call::Grant,
        Call::SetMode,
        Call::Observe,
        Call::Mark,
        Call::Assign,
        Call::Remove,
        Call::Sweep,
        Call::Simplify,
        Call::Rename,
        Call::Write,
        Call::Model,
        Call::Open,
        Call::Read,
        Call::First,
        Call::Sound,
        Call::Binary,
        Call::WriteCnf,
        Call::ReadCnf,
        Call::Load,
    ];

    fn name(self) -> &'static str {
        match self {
            Call::Lookup => "lookup",
            Call::Map => "map",
            Call::NewUser => "newuser",
            Call::Pose => "pose",
            Call::Grant => "grant",
            Call::SetMode => "setmode",
            Call::Observe => "observe",
            Call::Mark => "mark",
            Call::Assign => "assign",
            Call::Remove => "remove",
            Call::Sweep => "sweep",
            Call::Simplify => "simplify",
            Call::Rename => "rename",
            Call::Write => "write",
            Call::Model => "model",
            Call::Open => "open",
            Call::Read => "read",
            Call::First => "first",
            Call::Sound => "sound",
            Call::Binary => "binary",
            Call::WriteCnf => "writecnf",
            Call::ReadCnf => "readcnf",
            Call::Load => "load",
        }
    }

    // How many arguments it takes that are numbers.
    pub fn args(self) -> usize {
        match self {
            Call::NewUser | Call::Observe | Call::Sweep | Call::Model => 0,
            Call::Sound | Call::WriteCnf | Call::ReadCnf => 0,
            Call::Pose | Call::Grant | Call::Assign | Call::Remove | Call::Open => 1,
            Call::Read | Call::First | Call::Binary => 1,
            Call::Lookup | Call::Map | Call::SetMode | Call::Mark | Call::Simplify => 2,
            Call::Rename => 4,
            Call::Write => 5,
            Call::Load => 12,
        }
    }

    // How many slices it is lent to fill.
    pub fn rooms(self) -> usize {
        match self {
            Call::Lookup | Call::Sound | Call::Open | Call::First | Call::Load => 0,
            Call::Mark | Call::Assign => 0,
            Call::Map | Call::NewUser | Call::SetMode | Call::Grant => 1,
            Call::Remove | Call::Sweep | Call::Write | Call::WriteCnf => 1,
            Call::Pose | Call::Observe | Call::Simplify | Call::Binary => 2,
            Call::Rename | Call::Model | Call::ReadCnf => 2,
            Call::Read => 3,
        }
    }
}

impl FromStr for Call {
    type Err = Fault;

    fn from_str(name: &str) -> Result<Call, Fault> {
        let mut calls = Call::ALL.into_iter();
        calls.find(|call| call.name() == name).ok_or(Fault::Name)
    }
}

impl fmt::Display for Call {
    fn fmt<W: fmt::Write>(&self, f: &mut fmt::Formatter<W>) -> fmt::Result {
        write!(f, "{}", self.name())
    }
}
