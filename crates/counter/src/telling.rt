// What `counter` prints. Indices have a letter and count from 0: u a user, g a global, s a solver index; a literal is its index, after a
// minus sign where it is negative. Notes are in document 01's notation, and refusals have their meaning beside them.
use scope::{Counts, Global, Note, Simplified, Solver, User};
use std::fmt;

// How to read the lines.
pub const LEGEND: &str =
    "u0, u1, .. are users; g0, g1, .. globals; s0, s1, .. solver indices: each sort is counted from 0. A minus sign negates a literal.\n\
    Notes: U(g2,u1) gives g2 the user u1, S(g2,s0) gives it the solver index s0, and - for the index takes it back; D(g2) deletes g2;\n\
    C(g2,yes) makes g2 Sample, C(g2,no) makes it Witness.\n\
    Under each call stands how many globals are then taken, hidden ones among them, of how many, and the solver index that is granted next.\n\
    Bytes of the proof file stand in quotes. There g0 is 1, g1 is 2, g2 is 3, g3 is 4, g4 is 5, d begins a delete and 0 ends a step.\n\
    After the calls the file is read back step by step, and the model is printed.\n\n";

// A literal: the letter of its sort, and its code.
#[derive(Clone, Copy)]
struct Lit(char, u32);

impl fmt::Display for Lit {
    fn fmt<W: fmt::Write>(&self, f: &mut fmt::Formatter<W>) -> fmt::Result {
        let Lit(letter, code) = *self;
        let sign = if code % 2 == 1 { "-" } else { "" };
        write!(f, "{sign}{letter}{}", code / 2)
    }
}

// Literals of one sort, each after a blank.
#[derive(Clone, Copy)]
pub struct Lits<'a>(pub char, pub &'a [u32]);

impl fmt::Display for Lits<'_> {
    fn fmt<W: fmt::Write>(&self, f: &mut fmt::Formatter<W>) -> fmt::Result {
        let Lits(letter, codes) = *self;
        for code in codes {
            write!(f, " {}", Lit(letter, *code))?;
        }
        Ok(())
    }
}

// Users, each after a blank.
#[derive(Clone, Copy)]
pub struct Users<'a>(pub &'a [u32]);

impl fmt::Display for Users<'_> {
    fn fmt<W: fmt::Write>(&self, f: &mut fmt::Formatter<W>) -> fmt::Result {
        for user in self.0 {
            write!(f, " {}{user}", 'u')?;
        }
        Ok(())
    }
}

// The values of the globals, in order.
#[derive(Clone, Copy)]
pub struct Values<'a>(pub &'a [u32]);

impl fmt::Display for Values<'_> {
    fn fmt<W: fmt::Write>(&self, f: &mut fmt::Formatter<W>) -> fmt::Result {
        for (g, word) in self.0.iter().enumerate() {
            let value = match *word {
                0 => " none",
                1 => " false",
                _ => " true",
            };
            write!(f, " {}{g}{value}", 'g')?;
        }
        Ok(())
    }
}

// Bytes of the proof file in quotes, a line feed as \n; they end the line.
#[derive(Clone, Copy)]
pub struct Quoted<'a>(pub &'a [u8]);

impl fmt::Display for Quoted<'_> {
    fn fmt<W: fmt::Write>(&self, f: &mut fmt::Formatter<W>) -> fmt::Result {
        write!(f, "\"")?;
        for byte in self.0 {
            match *byte {
                b'\n' => write!(f, "\\n")?,
                byte => write!(f, "{}", char::from(byte))?,
            }
        }
        write!(f, "\"\n")
    }
}

// A note after a blank, in document 01's notation.
#[derive(Clone, Copy)]
struct Told(Note);

// A note from its three words.
fn note_of(kind: u32, global: u32, last: u32) -> Note {
    let global = Global(global);
    match (kind, last.checked_sub(1)) {
        (0, Some(user)) => Note::UserGranted(global, User(user)),
        (0, None) => Note::UserWithdrawn(global),
        (1, Some(solver)) => Note::SolverGranted(global, Solver(solver)),
        (1, None) => Note::SolverWithdrawn(global),
        (2, _) => Note::Deleted(global),
        _ => Note::ModeChanged(global, last == 1),
    }
}

impl fmt::Display for Told {
    fn fmt<W: fmt::Write>(&self, f: &mut fmt::Formatter<W>) -> fmt::Result {
        match self.0 {
            Note::UserGranted(global, user) => write!(f, " U(g{},u{}", global.0, user.0)?,
            Note::UserWithdrawn(global) => write!(f, " U(g{},-", global.0)?,
            Note::SolverGranted(global, solver) => write!(f, " S(g{},s{}", global.0, solver.0)?,
            Note::SolverWithdrawn(global) => write!(f, " S(g{},-", global.0)?,
            Note::Deleted(global) => write!(f, " D(g{}", global.0)?,
            Note::ModeChanged(global, true) => write!(f, " C(g{},yes", global.0)?,
            Note::ModeChanged(global, false) => write!(f, " C(g{},no", global.0)?,
        }
        write!(f, ")")
    }
}

// The words of notes, and how many notes are told; they end the line.
#[derive(Clone, Copy)]
pub struct Notes<'a>(pub &'a [u32], pub u32);

impl fmt::Display for Notes<'_> {
    fn fmt<W: fmt::Write>(&self, f: &mut fmt::Formatter<W>) -> fmt::Result {
        let Notes(words, count) = *self;
        write!(f, "; notes")?;
        if count == 0 {
            write!(f, " none")?;
        }
        let (notes, _) = words.as_chunks::<3>();
        for [kind, global, last] in notes.iter().take(count as usize) {
            write!(f, "{}", Told(note_of(*kind, *global, *last)))?;
        }
        write!(f, "\n")
    }
}

// How many globals are taken, and which solver index comes next.
#[derive(Clone, Copy)]
pub struct Fill(pub Counts);

impl fmt::Display for Fill {
    fn fmt<W: fmt::Write>(&self, f: &mut fmt::Formatter<W>) -> fmt::Result {
        let c = self.0;
        write!(f, "    {} of {} taken, next ", c.used, c.capacity)?;
        if c.next < c.capacity {
            write!(f, "s{}", c.next)?;
        } else {
            write!(f, "none")?;
        }
        write!(f, "\n")
    }
}

// What a call answers, with what it filled, to the end of the line.
#[derive(Clone, Copy)]
pub enum Answer<'a> {
    Done,
    Changed(Notes<'a>),
    Mapped(Global, Notes<'a>),
    Named(User, Global, Notes<'a>),
    Shown(User, Notes<'a>),
    Observed(Users<'a>, Notes<'a>),
    Found(Option<Global>),
    Granted(Solver, Notes<'a>),
    Posed(Lits<'a>, Notes<'a>),
    Written(Quoted<'a>),
    Renamed(Lits<'a>),
    Reduced(Simplified, Lits<'a>, Quoted<'a>),
}

impl fmt::Display for Answer<'_> {
    fn fmt<W: fmt::Write>(&self, f: &mut fmt::Formatter<W>) -> fmt::Result {
        match *self {
            Answer::Done => write!(f, "ok\n"),
            Answer::Changed(notes) => write!(f, "ok{notes}"),
            Answer::Mapped(global, notes) => write!(f, "global g{}{notes}", global.0),
            Answer::Named(user, g, notes) => write!(f, "user u{}, global g{}{notes}", user.0, g.0),
            Answer::Shown(user, notes) => write!(f, "user u{}{notes}", user.0),
            Answer::Observed(users, notes) => write!(f, "users{users}{notes}"),
            Answer::Found(Some(global)) => write!(f, "global g{}\n", global.0),
            Answer::Found(None) => write!(f, "none\n"),
            Answer::Granted(solver, notes) => write!(f, "solver s{}{notes}", solver.0),
            Answer::Posed(lits, notes) => write!(f, "solver literals{lits}{notes}"),
            Answer::Written(bytes) => write!(f, " {bytes}"),
            Answer::Renamed(lits) => write!(f, "{lits}\n"),
            Answer::Reduced(what, lits, bytes) => write!(f, " {}{lits}; {bytes}", reduced(what)),
        }
    }
}

fn reduced(what: Simplified) -> &'static str {
    match what {
        Simplified::Kept => "kept",
        Simplified::Dropped => "dropped",
        Simplified::Shortened => "shortened,",
        Simplified::Binary => "binary,",
    }
}
