// The types of document 01, and how the counts go through a single change. Its definitions are in specs/, their laws in proofs/.
#![tactic(auto)]

ghost use Rattle.std.specs.Prelude.{◌≡◌, ◌+◌, ◌^◌, ◌≤◌, ◌<◌, length, get_or, set};
ghost use Rattle.base.specs.Choice.{pick};
ghost use Rattle.scope.specs.Table.{cover_user, cover_solver, is_deleted, least_free, map_counts, grant_counts, remove_counts, drop_counts};
ghost use Rattle.scope.specs.BiMap.{index_in, cover_name, Inserts};
ghost use Rattle.scope.specs.Cursor.{AllMapped};
ghost use Rattle.scope.specs.Modes.{mode_number};
ghost use Rattle.scope.specs.Refusals.{number, refused_by, or_counts};

use std::fmt;

// Why a call is refused. The readers' refusals 13 and 17, which have a place, are in drat and dimacs.
#[derive(Clone, Copy, Debug, PartialEq, Eq)]
pub enum Refusal {
    Unsound,
    Short,
    OutOfRange,
    NotSampled,
    NoRoom,
    Deleted,
    Assumed,
    NotHeld,
    HasValue,
    BadSize,
    NotInDrat,
    FewUnknown,
    Unmatched,
    BadLists,
    StillAssumed,
}

// The number that document 01 gives a refusal.
impl From<Refusal> for u32 {
    ghost from_gives = { λ r n. n ≡ number r };

    fn from(r: Refusal) -> u32 {
        match r {
            Refusal::Unsound => 1,
            Refusal::Short => 2,
            Refusal::OutOfRange => 3,
            Refusal::NotSampled => 4,
            Refusal::NoRoom => 5,
            Refusal::Deleted => 6,
            Refusal::Assumed => 7,
            Refusal::NotHeld => 8,
            Refusal::HasValue => 9,
            Refusal::BadSize => 10,
            Refusal::NotInDrat => 11,
            Refusal::FewUnknown => 12,
            Refusal::Unmatched => 14,
            Refusal::BadLists => 15,
            Refusal::StillAssumed => 16,
        }
    }
}

impl fmt::Display for Refusal {
    fn fmt<W: fmt::Write>(&self, f: &mut fmt::Formatter<W>) -> fmt::Result {
        f.write_str(match self {
            Refusal::Unsound => "the table is unsound",
            Refusal::Short => "a lent slice is too short",
            Refusal::OutOfRange => "an index out of range",
            Refusal::NotSampled => "the global is not Sample",
            Refusal::NoRoom => "no free global is left",
            Refusal::Deleted => "the global is deleted",
            Refusal::Assumed => "the global is assumed",
            Refusal::NotHeld => "solver index not held",
            Refusal::HasValue => "the solver index has a value",
            Refusal::BadSize => "the capacity or the length of a slice",
            Refusal::NotInDrat => "a step kind that DRAT lacks",
            Refusal::FewUnknown => "fewer than two literals are unknown",
            Refusal::Unmatched => "units and hashes differ in number",
            Refusal::BadLists => "the lists are no sections, or an entry has no mirror",
            Refusal::StillAssumed => "the global that holds the solver index is assumed",
        })
    }
}

// The capacity, the three watermarks, how many globals are undeleted, and the least unmapped solver index. The C surface has it as it is.
#[repr(C)]
#[derive(Clone, Copy)]
pub struct Counts {
    pub capacity: u32,
    pub user: u32,
    pub global: u32,
    pub solver: u32,
    pub used: u32,
    pub next: u32,
}

// Two words of a map pair: the first takes i to j, the second j to i.
fn link(a: &mut [u32], b: &mut [u32], i: u32, j: u32)
    requires i_in_bounds { i < length a.old }
    requires j_in_bounds { j < length b.old }
    requires i_bound { i + 1 < 2 ^ 32 }
    requires j_bound { j + 1 < 2 ^ 32 }
    ensures a_value { a.new ≡ set a.old i (j + 1) }
    ensures b_value { b.new ≡ set b.old j (i + 1) }
{
    a[i as usize] = j + 1;
    b[j as usize] = i + 1;
}

// The same two words are cleared.
fn cut(a: &mut [u32], b: &mut [u32], i: u32, j: u32)
    requires i_in_bounds { i < length a.old }
    requires j_in_bounds { j < length b.old }
    ensures a_value { a.new ≡ set a.old i 0 }
    ensures b_value { b.new ≡ set b.old j 0 }
{
    a[i as usize] = 0;
    b[j as usize] = 0;
}

// The least index below the mark at which the map has 0, else the mark; below `from` it has none.
pub fn least_free(xs: &[u32], mark: u32, from: u32) -> u32
    requires mark_in_bounds { mark ≤ length xs.now }
    requires all_mapped { AllMapped xs.now mark from }
    ensures { result ≡ least_free xs.now mark }
{
    for i in from..mark {
        if xs[i as usize] == 0 {
            return i;
        }
    }
    mark
}

// How many globals are undeleted once one whose record was `was` gets a user.
fn used_with(used: u32, was: u32) -> u32
    requires { used + 1 < 2 ^ 32 }
    ensures { result ≡ used + pick (is_deleted was) 1 0 }
{
    if 36 <= was { used + 1 } else { used }
}

// A name that is not global.
#[derive(Clone, Copy)]
pub enum Name {
    User(User),
    Solver(Solver),
}

fn index_in(n: Name) -> u32
    ensures { result ≡ index_in n }
{
    match n {
        Name::User(u) => u.0,
        Name::Solver(s) => s.0,
    }
}

fn cover_user(c: Counts, u: User, g: Global) -> Counts
    requires u_lt_capacity { u.0 < c.capacity }
    requires g_lt_capacity { g.0 < c.capacity }
    ensures { result ≡ cover_user c u.0 g.0 }
{
    let mut covered = c;
    covered.user = c.user.max(u.0 + 1);
    covered.global = c.global.max(g.0 + 1);
    covered
}

fn cover_solver(c: Counts, s: Solver, g: Global) -> Counts
    requires s_lt_capacity { s.0 < c.capacity }
    requires g_lt_capacity { g.0 < c.capacity }
    ensures { result ≡ cover_solver c s.0 g.0 }
{
    let mut covered = c;
    covered.solver = c.solver.max(s.0 + 1);
    covered.global = c.global.max(g.0 + 1);
    covered
}

// The counts that cover a name and its global.
fn cover(c: Counts, n: Name, g: Global) -> Counts
    requires n_bound { index_in n < c.capacity }
    requires g_lt_capacity { g.0 < c.capacity }
    ensures { result ≡ cover_name n c g.0 }
{
    match n {
        Name::User(u) => cover_user(c, u, g),
        Name::Solver(s) => cover_solver(c, s, g),
    }
}

// The insertion by value: `fwd` takes the name to the global, `bwd` the global to the name. It answers the counts.
fn put_pair(
    c: Counts,
    fwd: &mut [u32],
    bwd: &mut [u32],
    n: Name,
    g: Global,
) -> Result<Counts, Refusal>
    ensures { Inserts c fwd.old bwd.old n g.0 (refused_by result) (or_counts c result) fwd.new bwd.new }
{
    let i = index_in(n);
    let j = g.0;
    if !((i < c.capacity)
        & (j < c.capacity)
        & ((i as usize) < fwd.len())
        & ((j as usize) < bwd.len()))
    {
        return Err(Refusal::OutOfRange);
    }
    let counts = cover(c, n, g);
    link(fwd, bwd, i, j);
    Ok(counts)
}

// The insertion with the counts lent: they are advanced by it.
pub fn insert(
    counts: &mut Counts,
    fwd: &mut [u32],
    bwd: &mut [u32],
    n: Name,
    g: Global,
) -> Result<(), Refusal>
    ensures { Inserts counts.old fwd.old bwd.old n g.0 (refused_by result) counts.new fwd.new bwd.new }
{
    *counts = put_pair(*counts, fwd, bwd, n, g)?;
    Ok(())
}

// The same with plain parameters, for every other caller.
pub fn inserted(
    counts: Counts,
    fwd: &mut [u32],
    bwd: &mut [u32],
    n: Name,
    g: Global,
) -> Result<Counts, Refusal>
    ensures { Inserts counts fwd.old bwd.old n g.0 (refused_by result) (or_counts counts result) fwd.new bwd.new }
{
    let mut c = counts;
    insert(&mut c, fwd, bwd, n, g)?;
    Ok(c)
}

impl Counts {
    // The user goes to the global, and its record becomes w; a global that was deleted is counted.
    pub fn map(
        mut self,
        gu: &mut [u32],
        ug: &mut [u32],
        records: &mut [u32],
        user: User,
        global: Global,
        w: u32,
    ) -> Counts
        requires user_in_bounds { user.0 < length gu.old }
        requires global_in_bounds { global.0 < length ug.old }
        requires global_in_bounds_2 { global.0 < length records.old }
        requires user_lt_capacity { user.0 < self.capacity }
        requires global_lt_capacity { global.0 < self.capacity }
        requires used_bound { self.used + 1 < 2 ^ 32 }
        ensures value { result ≡ map_counts self user.0 global.0 (get_or records.old global.0 47) }
        ensures gu_value { gu.new ≡ set gu.old user.0 (global.0 + 1) }
        ensures ug_value { ug.new ≡ set ug.old global.0 (user.0 + 1) }
        ensures records_value { records.new ≡ set records.old global.0 w }
    {
        let g = global.0 as usize;
        let used = used_with(self.used, records[g]);
        records[g] = w;
        self = inserted(self, gu, ug, Name::User(user), global).unwrap();
        self.used = used;
        self
    }

    // The user of the global is withdrawn.
    pub fn unmap(mut self, gu: &mut [u32], ug: &mut [u32], user: User, global: Global) -> Counts
        requires user_in_bounds { user.0 < length gu.old }
        requires global_in_bounds { global.0 < length ug.old }
        ensures value { result ≡ self }
        ensures gu_value { gu.new ≡ set gu.old user.0 0 }
        ensures ug_value { ug.new ≡ set ug.old global.0 0 }
    {
        cut(gu, ug, user.0, global.0);
        self
    }

    // The solver index, which is the least free one, goes to the global; the next is searched from there on.
    pub fn grant(mut self, sg: &mut [u32], gs: &mut [u32], global: Global, solver: Solver) -> Counts
        requires global_in_bounds { global.0 < length sg.old }
        requires solver_in_bounds { solver.0 < length gs.old }
        requires global_lt_capacity { global.0 < self.capacity }
        requires solver_lt_capacity { solver.0 < self.capacity }
        requires solver_in_bounds_2 { self.solver ≤ length gs.old }
        requires all_mapped { AllMapped gs.old self.solver solver.0 }
        ensures value { result ≡ grant_counts self solver.0 global.0 gs.new }
        ensures sg_value { sg.new ≡ set sg.old global.0 (solver.0 + 1) }
        ensures gs_value { gs.new ≡ set gs.old solver.0 (global.0 + 1) }
    {
        self = inserted(self, gs, sg, Name::Solver(solver), global).unwrap();
        self.next = least_free(gs, self.solver, solver.0 + 1);
        self
    }

    // The solver index of the global is withdrawn; the least free one is the smaller of it and the one before.
    pub fn remove(
        mut self,
        sg: &mut [u32],
        gs: &mut [u32],
        global: Global,
        solver: Solver,
    ) -> Counts
        requires global_in_bounds { global.0 < length sg.old }
        requires solver_in_bounds { solver.0 < length gs.old }
        requires solver_lt_solver { solver.0 < self.solver }
        requires next_value { self.next ≡ least_free gs.old self.solver }
        ensures value { result ≡ remove_counts self gs.new }
        ensures sg_value { sg.new ≡ set sg.old global.0 0 }
        ensures gs_value { gs.new ≡ set gs.old solver.0 0 }
    {
        cut(sg, gs, global.0, solver.0);
        self.next = self.next.min(solver.0);
        self
    }

    // The global is deleted, and counted no more.
    pub fn delete(mut self, records: &mut [u32], global: Global) -> Counts
        requires global_in_bounds { global.0 < length records.old }
        requires global_bound { get_or records.old global.0 47 < 36 }
        requires le_used { 1 ≤ self.used }
        ensures value { result ≡ drop_counts self }
        ensures records_value { records.new ≡ set records.old global.0 (get_or records.old global.0 47 + 36) }
    {
        let g = global.0 as usize;
        let w = records[g];
        records[g] = w + 36;
        self.used = self.used - 1;
        self
    }
}

// A user index, a global index and a solver index.
#[derive(Clone, Copy)]
pub struct User(pub u32);

#[derive(Clone, Copy)]
pub struct Global(pub u32);

#[derive(Clone, Copy)]
pub struct Solver(pub u32);

#[derive(Clone, Copy)]
pub enum SamplingMode {
    Sample,
    Witness,
    Hide,
}

impl From<SamplingMode> for u32 {
    ghost from_gives = { λ m n. n ≡ mode_number m };

    fn from(m: SamplingMode) -> u32 {
        match m {
            SamplingMode::Sample => 0,
            SamplingMode::Witness => 1,
            SamplingMode::Hide => 2,
        }
    }
}

// What is marked at a held solver index: in use, assumed, no longer assumed.
#[derive(Clone, Copy)]
pub enum Mark {
    Used,
    Assumed,
    Released,
}

// Why a clause is deleted.
#[derive(Clone, Copy)]
pub enum DeleteClauseProof {
    Redundant,
    Satisfied,
    Simplified,
}

// A note, by the names that it tells of: a user or a solver index granted to a global or withdrawn, a global deleted, its mode changed,
// with yes for Sample.
#[derive(Clone, Copy)]
pub enum Note {
    UserGranted(Global, User),
    UserWithdrawn(Global),
    SolverGranted(Global, Solver),
    SolverWithdrawn(Global),
    Deleted(Global),
    ModeChanged(Global, bool),
}

// The thirteen step kinds. A naming step tells the index granted to a global, or that its index is withdrawn. Literals and hashes stand in
// slices beside the step.
#[derive(Clone, Copy)]
pub enum ProofStep {
    AddClause,
    AtClause(bool),
    UnitClauses,
    DeleteClause(DeleteClauseProof),
    Model,
    Assumptions,
    FailedAssumptions,
    SolverVarName(Global, Option<Solver>),
    UserVarName(Global, Option<User>),
    DeleteVar(Global),
    ChangeSamplingMode(Global, bool),
    ChangeHashBits(u32),
    End,
}

// What DRAT writes for a step kind.
#[derive(Clone, Copy)]
pub enum Writes {
    Add,
    AddEach,
    Delete,
    Nothing,
    Refused,
}

// The rule of a step kind: whether its literals are renamed, and what is written.
#[derive(Clone, Copy)]
pub struct KindRule {
    pub renamed: bool,
    pub writes: Writes,
}

// What Simplify makes of a clause.
#[derive(Clone, Copy)]
pub enum Simplified {
    Kept,
    Dropped,
    Shortened,
    Binary,
}
