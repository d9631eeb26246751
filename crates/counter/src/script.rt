// The two sessions, call by call.
use crate::telling::Lits;
use scope::{Global, Mark, SamplingMode, Solver, User};
use std::fmt;

// A clause of at most three literals. Its length is bounded by its type, so that no call here keeps the room for long clauses on the stack.
#[derive(Clone, Copy)]
pub enum Clause {
    Empty,
    Unit([u32; 1]),
    Pair([u32; 2]),
    Three([u32; 3]),
}

impl Clause {
    pub fn lits(&self) -> &[u32] {
        match self {
            Clause::Empty => &[],
            Clause::Unit(lits) => lits,
            Clause::Pair(lits) => lits,
            Clause::Three(lits) => lits,
        }
    }
}

// The calls, with what they are asked. Literals are codes, of users in Pose and of solver indices elsewhere.
#[derive(Clone, Copy)]
pub enum Call {
    Open(u32),
    Map(User),
    NewUser,
    SetMode(Global, SamplingMode),
    Observe,
    LookUp(User),
    Grant(Global),
    Mark(Mark, Solver),
    Assign(u32),
    Remove(Solver),
    Sweep,
    Pose(Clause),
    Add(Clause),
    Delete(Clause),
    Rename(Clause),
    Simplify(Clause),
}

// The codes of literals: P0 is the positive one of index 0, N0 the negative one.
const P0: u32 = 0;

const N0: u32 = 1;

const P1: u32 = 2;

const P2: u32 = 4;

const N2: u32 = 5;

const P3: u32 = 6;

const N3: u32 = 7;

// The day, at capacity 8.
pub const DAY: [Call; 40] = [
    // The worked cases 1 and 2, 6, 7 and 5, 3 and 4.
    Call::Open(8),
    Call::Map(User(2)),
    Call::SetMode(Global(1), SamplingMode::Hide),
    Call::NewUser,
    Call::Grant(Global(2)),
    Call::Add(Clause::Unit([N0])),
    Call::Delete(Clause::Empty),
    Call::Sweep,
    Call::Grant(Global(2)),
    Call::SetMode(Global(2), SamplingMode::Hide),
    Call::Map(User(2)),
    Call::Observe,
    Call::LookUp(User(2)),
    // Three boxes are posed and in use; case 12; the assumed one may not be removed; one is hidden, one is settled, and its clause becomes
    // shorter.
    Call::Pose(Clause::Three([P0, P1, N2])),
    Call::Mark(Mark::Used, Solver(1)),
    Call::Mark(Mark::Used, Solver(2)),
    Call::Mark(Mark::Used, Solver(3)),
    Call::SetMode(Global(0), SamplingMode::Sample),
    Call::Mark(Mark::Assumed, Solver(1)),
    Call::SetMode(Global(0), SamplingMode::Sample),
    Call::Remove(Solver(1)),
    Call::Mark(Mark::Released, Solver(1)),
    Call::SetMode(Global(1), SamplingMode::Hide),
    Call::Assign(P3),
    Call::Assign(N3),
    Call::Simplify(Clause::Three([P1, P2, N3])),
    // The settled box is swept, its solver index and its user's name go to others, and steps are written under the new names.
    Call::Sweep,
    Call::Add(Clause::Pair([P3, P1])),
    Call::NewUser,
    Call::Grant(Global(4)),
    Call::Rename(Clause::Pair([N0, P2])),
    Call::Add(Clause::Pair([N0, P2])),
    Call::Assign(P1),
    Call::Simplify(Clause::Pair([P1, P2])),
    Call::Assign(N0),
    Call::Simplify(Clause::Pair([N0, P2])),
    Call::Remove(Solver(2)),
    Call::Sweep,
    Call::Observe,
    Call::Pose(Clause::Unit([P3])),
];

// Case 10, at capacity 2.
pub const SMALL_BOX: [Call; 4] = [
    Call::Open(2),
    Call::Map(User(1)),
    Call::Map(User(2)),
    Call::NewUser,
];

fn to_mode(mode: SamplingMode) -> &'static str {
    match mode {
        SamplingMode::Sample => " to Sample: ",
        SamplingMode::Witness => " to Witness: ",
        SamplingMode::Hide => " to Hide: ",
    }
}

fn as_marked(mark: Mark) -> &'static str {
    match mark {
        Mark::Used => " used: ",
        Mark::Assumed => " assumed: ",
        Mark::Released => " no longer assumed: ",
    }
}

impl Call {
    // What stands between the call and its refusal: where steps are asked for, each answer brings its own blank.
    pub fn gap(&self) -> &'static str {
        match self {
            Call::Add(_) | Call::Delete(_) | Call::Rename(_) | Call::Simplify(_) => " ",
            _ => "",
        }
    }
}

// What is asked.
impl fmt::Display for Call {
    fn fmt<W: fmt::Write>(&self, f: &mut fmt::Formatter<W>) -> fmt::Result {
        match self {
            Call::Open(capacity) => write!(f, "open, capacity {capacity}: "),
            Call::Map(user) => write!(f, "map user u{}: ", user.0),
            Call::NewUser => write!(f, "new user: "),
            Call::SetMode(g, mode) => write!(f, "set global g{}{}", g.0, to_mode(*mode)),
            Call::Observe => write!(f, "observe: "),
            Call::LookUp(user) => write!(f, "look up user u{}: ", user.0),
            Call::Grant(global) => write!(f, "grant global g{}: ", global.0),
            Call::Mark(mark, s) => write!(f, "mark solver s{}{}", s.0, as_marked(*mark)),
            Call::Assign(lit) => write!(f, "assign{}: ", Lits('s', &[*lit])),
            Call::Remove(solver) => write!(f, "remove solver s{}: ", solver.0),
            Call::Sweep => write!(f, "sweep: "),
            Call::Pose(c) => write!(f, "pose{}: ", Lits('u', c.lits())),
            Call::Add(c) => write!(f, "write an add of solver literals{}:", Lits('s', c.lits())),
            Call::Delete(c) => {
                write!(
                    f,
                    "write a delete of solver literals{}:",
                    Lits('s', c.lits())
                )
            }
            Call::Rename(c) => write!(f, "rename{}:", Lits('s', c.lits())),
            Call::Simplify(c) => write!(f, "simplify{}:", Lits('s', c.lits())),
        }
    }
}
