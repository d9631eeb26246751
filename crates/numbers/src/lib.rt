// What the numbers of the C surface stand for: modes, marks, formats, kinds, causes and steps.
#![tactic(auto)]

ghost use Rattle.std.specs.Prelude.{◌≡◌};
ghost use Rattle.numbers.specs.Numbers.{mode_for, mark_for, format_for, kind_for, cause_for, solver_name_for, user_name_for, step_for};

use drat::{Format, Kind};
use scope::{DeleteClauseProof, Global, Mark, ProofStep, SamplingMode, Solver, User};

// A number that stands for nothing is `None`. `TryFrom` would have to stand in the crate of each type, with an error that says no more.

// A step's kind, and what it carries of its own: in a naming step `b` is index + 1, or 0 where the name is withdrawn.
#[repr(C)]
#[derive(Clone, Copy)]
pub struct HzStep {
    pub kind: u32,
    pub a: u32,
    pub b: u32,
}

pub fn mode_in(n: u32) -> Option<SamplingMode>
    ensures { result ≡ mode_for n }
{
    match n {
        0 => Some(SamplingMode::Sample),
        1 => Some(SamplingMode::Witness),
        2 => Some(SamplingMode::Hide),
        _ => None,
    }
}

pub fn mark_in(n: u32) -> Option<Mark>
    ensures { result ≡ mark_for n }
{
    match n {
        0 => Some(Mark::Used),
        1 => Some(Mark::Assumed),
        2 => Some(Mark::Released),
        _ => None,
    }
}

pub fn format_in(n: u32) -> Option<Format>
    ensures { result ≡ format_for n }
{
    match n {
        0 => Some(Format::Text),
        1 => Some(Format::Binary),
        _ => None,
    }
}

pub fn kind_in(n: u32) -> Option<Kind>
    ensures { result ≡ kind_for n }
{
    match n {
        0 => Some(Kind::Add),
        1 => Some(Kind::Delete),
        _ => None,
    }
}

pub fn cause_in(n: u32) -> Option<DeleteClauseProof>
    ensures { result ≡ cause_for n }
{
    match n {
        0 => Some(DeleteClauseProof::Redundant),
        1 => Some(DeleteClauseProof::Satisfied),
        2 => Some(DeleteClauseProof::Simplified),
        _ => None,
    }
}

fn solver_name_in(n: u32) -> Option<Solver>
    ensures { result ≡ solver_name_for n }
{
    Some(Solver(n.checked_sub(1)?))
}

fn user_name_in(n: u32) -> Option<User>
    ensures { result ≡ user_name_for n }
{
    Some(User(n.checked_sub(1)?))
}

fn delete_in(a: u32) -> Option<ProofStep>
    ensures { result ≡ step_for 3 a 0 }
{
    Some(ProofStep::DeleteClause(cause_in(a)?))
}

pub fn step_in(step: HzStep) -> Option<ProofStep>
    ensures { result ≡ step_for step.kind step.a step.b }
{
    let a = step.a;
    let b = step.b;
    let n = step.kind;
    match n {
        0 => Some(ProofStep::AddClause),
        1 => Some(ProofStep::AtClause(a != 0)),
        2 => Some(ProofStep::UnitClauses),
        3 => delete_in(a),
        4 => Some(ProofStep::Model),
        5 => Some(ProofStep::Assumptions),
        6 => Some(ProofStep::FailedAssumptions),
        7 => Some(ProofStep::SolverVarName(Global(a), solver_name_in(b))),
        8 => Some(ProofStep::UserVarName(Global(a), user_name_in(b))),
        9 => Some(ProofStep::DeleteVar(Global(a))),
        10 => Some(ProofStep::ChangeSamplingMode(Global(a), b != 0)),
        11 => Some(ProofStep::ChangeHashBits(a)),
        12 => Some(ProofStep::End),
        _ => None, // no kind of step
    }
}
