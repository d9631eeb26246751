// One session. Each method makes one call of the library, keeps the counts that come back, and gives the answer. Nothing is decided here.
// The six lists and the slices to be filled are named one by one at each call, since the C interface lends each by itself.
use crate::script::{Call, Clause};
use crate::telling::{Answer, Lits, Notes, Quoted, Users};
use drat::Format;
use granting::solver_from_global;
use marks::{assign_lit, mark};
use model::{Modelled, model};
use modes::{observe_internal_vars, set_sampling_mode};
use naming::{global_from_user, new_user_var};
use posing::solver_from_user_lits;
use removal::{remove_solver_var, sweep};
use scope::{
    Counts, DeleteClauseProof, Global, Mark, ProofStep, Refusal, SamplingMode, Solver, User,
};
use simplify::simplify_clause;
use steps::rename::rename_step;
use steps::write::write_step;
use var_map::{get_global_from_user, open_table};

// The bytes of the proof, up to its end: an array with a length, since memory is fixed, as in the libraries.
#[derive(Drop)]
struct Proof {
    bytes: [u8; 256],
    end: usize,
}

// The table, which is the counts and six lists; the notes, and the literals or users, that the last call filled; and the proof. No call
// here makes more than sixteen notes, or fills more than eight words.
#[derive(Drop)]
pub struct Session<const N: usize> {
    counts: Counts,
    gu: [u32; N],
    ug: [u32; N],
    sg: [u32; N],
    gs: [u32; N],
    assignment: [u32; N],
    records: [u32; N],
    notes: [u32; 48],
    words: [u32; 8],
    proof: Proof,
}

// The first n items, or all.
pub fn front<T>(items: &[T], n: usize) -> &[T] {
    items.get(..n).unwrap_or(items)
}

impl Proof {
    // What may be filled.
    fn room(&mut self) -> Result<&mut [u8], Refusal> {
        let end = self.end;
        self.bytes.get_mut(end..).ok_or(Refusal::Short)
    }

    // The next n bytes were filled: they are told.
    fn grow(&mut self, n: usize) -> Quoted<'_> {
        let start = self.end;
        let end = start.saturating_add(n);
        self.end = end;
        Quoted(self.bytes.get(start..end).unwrap_or(&[]))
    }
}

impl<const N: usize> Session<N> {
    // Before Open, which is the first call.
    pub fn new() -> Self {
        Session {
            counts: Counts {
                capacity: 0,
                user: 0,
                global: 0,
                solver: 0,
                used: 0,
                next: 0,
            },
            gu: [0; N],
            ug: [0; N],
            sg: [0; N],
            gs: [0; N],
            assignment: [0; N],
            records: [0; N],
            notes: [0; 48],
            words: [0; 8],
            proof: Proof {
                bytes: [0; 256],
                end: 0,
            },
        }
    }

    pub fn counts(&self) -> Counts {
        self.counts
    }

    pub fn proof(&self) -> &[u8] {
        front(&self.proof.bytes, self.proof.end)
    }

    // The call, whichever it is.
    pub fn make(&mut self, call: Call) -> Result<Answer<'_>, Refusal> {
        match call {
            Call::Open(capacity) => self.open(capacity),
            Call::Map(user) => self.map(user),
            Call::NewUser => self.new_user(),
            Call::SetMode(global, mode) => self.set_mode(global, mode),
            Call::Observe => self.observe(),
            Call::LookUp(user) => self.look_up(user),
            Call::Grant(global) => self.grant(global),
            Call::Mark(kind, solver) => self.mark(kind, solver),
            Call::Assign(lit) => self.assign(lit),
            Call::Remove(solver) => self.remove(solver),
            Call::Sweep => self.sweep(),
            Call::Pose(clause) => self.pose(clause),
            Call::Add(clause) => self.write(ProofStep::AtClause(false), clause),
            Call::Delete(clause) => {
                self.write(
                    ProofStep::DeleteClause(DeleteClauseProof::Redundant),
                    clause,
                )
            }
            Call::Rename(clause) => self.rename(clause),
            Call::Simplify(clause) => self.simplify(clause),
        }
    }

    fn open(&mut self, capacity: u32) -> Result<Answer<'_>, Refusal> {
        self.counts = open_table(
            capacity,
            &mut self.gu,
            &mut self.ug,
            &mut self.sg,
            &mut self.gs,
            &mut self.assignment,
            &mut self.records,
        )?;
        Ok(Answer::Done)
    }

    fn map(&mut self, user: User) -> Result<Answer<'_>, Refusal> {
        let made = global_from_user(
            self.counts,
            &mut self.gu,
            &mut self.ug,
            &self.sg,
            &self.gs,
            &self.assignment,
            &mut self.records,
            user,
            false,
            &mut self.notes,
        )?;
        self.counts = made.counts;
        let notes = Notes(&self.notes, made.notes);
        Ok(Answer::Mapped(made.global, notes))
    }

    fn new_user(&mut self) -> Result<Answer<'_>, Refusal> {
        let made = new_user_var(
            self.counts,
            &mut self.gu,
            &mut self.ug,
            &self.sg,
            &self.gs,
            &self.assignment,
            &mut self.records,
            &mut self.notes,
        )?;
        self.counts = made.counts;
        let notes = Notes(&self.notes, made.notes);
        Ok(Answer::Named(made.user, made.global, notes))
    }

    fn set_mode(&mut self, global: Global, mode: SamplingMode) -> Result<Answer<'_>, Refusal> {
        let made = set_sampling_mode(
            self.counts,
            &mut self.gu,
            &mut self.ug,
            &self.sg,
            &self.gs,
            &self.assignment,
            &mut self.records,
            global,
            mode,
            &mut self.notes,
        )?;
        self.counts = made.counts;
        let notes = Notes(&self.notes, made.notes);
        Ok(match made.user {
            Some(user) => Answer::Shown(user, notes),
            None => Answer::Changed(notes),
        })
    }

    fn observe(&mut self) -> Result<Answer<'_>, Refusal> {
        let made = observe_internal_vars(
            self.counts,
            &mut self.gu,
            &mut self.ug,
            &self.sg,
            &self.gs,
            &self.assignment,
            &mut self.records,
            &mut self.words,
            &mut self.notes,
        )?;
        self.counts = made.counts;
        let notes = Notes(&self.notes, made.notes);
        Ok(Answer::Observed(Users(front(&self.words, made.users as usize)), notes))
    }

    fn look_up(&self, user: User) -> Result<Answer<'_>, Refusal> {
        let global = get_global_from_user(
            self.counts,
            &self.gu,
            &self.ug,
            &self.sg,
            &self.gs,
            &self.assignment,
            &self.records,
            user,
        )?;
        Ok(Answer::Found(global))
    }

    fn grant(&mut self, global: Global) -> Result<Answer<'_>, Refusal> {
        let made = solver_from_global(
            self.counts,
            &self.gu,
            &self.ug,
            &mut self.sg,
            &mut self.gs,
            &mut self.assignment,
            &self.records,
            global,
            &mut self.notes,
        )?;
        self.counts = made.counts;
        let notes = Notes(&self.notes, made.notes);
        Ok(Answer::Granted(made.solver, notes))
    }

    fn mark(&mut self, kind: Mark, solver: Solver) -> Result<Answer<'_>, Refusal> {
        mark(
            self.counts,
            &self.gu,
            &self.ug,
            &self.sg,
            &self.gs,
            &self.assignment,
            &mut self.records,
            kind,
            solver,
        )?;
        Ok(Answer::Done)
    }

    fn assign(&mut self, lit: u32) -> Result<Answer<'_>, Refusal> {
        assign_lit(
            self.counts,
            &self.gu,
            &self.ug,
            &self.sg,
            &self.gs,
            &mut self.assignment,
            &self.records,
            lit,
        )?;
        Ok(Answer::Done)
    }

    fn remove(&mut self, solver: Solver) -> Result<Answer<'_>, Refusal> {
        let made = remove_solver_var(
            self.counts,
            &self.gu,
            &self.ug,
            &mut self.sg,
            &mut self.gs,
            &mut self.assignment,
            &mut self.records,
            solver,
            &mut self.notes,
        )?;
        self.counts = made.counts;
        Ok(Answer::Changed(Notes(&self.notes, made.notes)))
    }

    fn sweep(&mut self) -> Result<Answer<'_>, Refusal> {
        let made = sweep(
            self.counts,
            &self.gu,
            &self.ug,
            &mut self.sg,
            &mut self.gs,
            &mut self.assignment,
            &mut self.records,
            &mut self.notes,
        )?;
        self.counts = made.counts;
        Ok(Answer::Changed(Notes(&self.notes, made.notes)))
    }

    fn pose(&mut self, clause: Clause) -> Result<Answer<'_>, Refusal> {
        let made = solver_from_user_lits(
            self.counts,
            &mut self.gu,
            &mut self.ug,
            &mut self.sg,
            &mut self.gs,
            &mut self.assignment,
            &mut self.records,
            clause.lits(),
            false,
            &mut self.words,
            &mut self.notes,
        )?;
        self.counts = made.counts;
        let notes = Notes(&self.notes, made.notes);
        Ok(Answer::Posed(Lits('s', front(&self.words, made.filled as usize)), notes))
    }

    // Write, from the end of the proof on.
    fn write(&mut self, step: ProofStep, clause: Clause) -> Result<Answer<'_>, Refusal> {
        let n = write_step(
            self.counts,
            &self.gu,
            &self.ug,
            &self.sg,
            &self.gs,
            &self.assignment,
            &self.records,
            Format::Text,
            step,
            true,
            clause.lits(),
            &[],
            self.proof.room()?,
        )?;
        Ok(Answer::Written(self.proof.grow(n)))
    }

    fn rename(&mut self, clause: Clause) -> Result<Answer<'_>, Refusal> {
        let made = rename_step(
            self.counts,
            &self.gu,
            &self.ug,
            &self.sg,
            &self.gs,
            &self.assignment,
            &self.records,
            ProofStep::AtClause(false),
            true,
            clause.lits(),
            &[],
            &mut self.words,
            &mut [],
        )?;
        Ok(Answer::Renamed(Lits('g', front(&self.words, made.lits))))
    }

    // Simplify, its steps from the end of the proof on.
    fn simplify(&mut self, clause: Clause) -> Result<Answer<'_>, Refusal> {
        let made = simplify_clause(
            self.counts,
            &self.gu,
            &self.ug,
            &self.sg,
            &self.gs,
            &self.assignment,
            &self.records,
            Format::Text,
            clause.lits(),
            false,
            &mut self.words,
            self.proof.room()?,
        )?;
        let bytes = self.proof.grow(made.bytes);
        let left = Lits('s', front(&self.words, made.left));
        Ok(Answer::Reduced(made.what, left, bytes))
    }

    pub fn model(&self, globals: &mut [u32], users: &mut [u32]) -> Result<Modelled, Refusal> {
        model(
            self.counts,
            &self.gu,
            &self.ug,
            &self.sg,
            &self.gs,
            &self.assignment,
            &self.records,
            globals,
            users,
        )
    }
}
