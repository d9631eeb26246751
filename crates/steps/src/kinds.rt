// The thirteen step kinds in a table (document 01, "Rename and write").
ghost use Rattle.std.specs.Prelude.{◌≡◌, ◌<◌, eqb};
ghost use Rattle.scope.specs.declared.ProofStep.TheVariants.{UnitClauses};
ghost use Rattle.scope.specs.Steps.{rule_of, kind_of, has_hashes, literals_of, hashes_of};
ghost use Rattle.scope.specs.Write.{unmatched, lacked};
ghost use Rattle.steps.specs.Kinds.{rule_at};

use scope::{KindRule, ProofStep, Writes};

// Renamed or not; adds, deletes, nothing, refused: in the order of `ProofStep`.
const RULES: [KindRule; 13] = [
    KindRule {
        renamed: true,
        writes: Writes::Refused, // AddClause
    },
    KindRule {
        renamed: true,
        writes: Writes::Add, // AtClause
    },
    KindRule {
        renamed: true,
        writes: Writes::AddEach, // UnitClauses
    },
    KindRule {
        renamed: true,
        writes: Writes::Delete, // DeleteClause
    },
    KindRule {
        renamed: true,
        writes: Writes::Nothing, // Model
    },
    KindRule {
        renamed: true,
        writes: Writes::Refused, // Assumptions
    },
    KindRule {
        renamed: true,
        writes: Writes::Refused, // FailedAssumptions
    },
    KindRule {
        renamed: false,
        writes: Writes::Nothing, // SolverVarName
    },
    KindRule {
        renamed: false,
        writes: Writes::Nothing, // UserVarName
    },
    KindRule {
        renamed: false,
        writes: Writes::Nothing, // DeleteVar
    },
    KindRule {
        renamed: false,
        writes: Writes::Nothing, // ChangeSamplingMode
    },
    KindRule {
        renamed: false,
        writes: Writes::Nothing, // ChangeHashBits
    },
    KindRule {
        renamed: false,
        writes: Writes::Nothing, // End
    },
];

// The kind's place in the table. A step carries values, so that a cast can't give it.
fn kind(step: ProofStep) -> usize
    ensures { result ≡ kind_of step }
{
    match step {
        ProofStep::AddClause => 0,
        ProofStep::AtClause(_) => 1,
        ProofStep::UnitClauses => 2,
        ProofStep::DeleteClause(_) => 3,
        ProofStep::Model => 4,
        ProofStep::Assumptions => 5,
        ProofStep::FailedAssumptions => 6,
        ProofStep::SolverVarName(_, _) => 7,
        ProofStep::UserVarName(_, _) => 8,
        ProofStep::DeleteVar(_) => 9,
        ProofStep::ChangeSamplingMode(_, _) => 10,
        ProofStep::ChangeHashBits(_) => 11,
        ProofStep::End => 12,
    }
}

fn rule_at(kind: usize) -> KindRule
    requires { kind < 13 }
    ensures { result ≡ rule_at kind }
{
    RULES[kind]
}

// The rule of a step.
pub fn rule_of(step: ProofStep) -> KindRule
    ensures { result ≡ rule_of step }
{
    rule_at(kind(step))
}

// The literals that a step carries, of those passed beside it: all or none.
pub fn literals_of(step: ProofStep, lits: &[u32]) -> &[u32]
    ensures { result.now ≡ literals_of step lits.now }
{
    if rule_of(step).renamed { lits } else { &[] }
}

fn has_hashes(step: ProofStep) -> bool
    ensures { result ≡ has_hashes step }
{
    matches!(
        step,
        ProofStep::AtClause(_) | ProofStep::UnitClauses | ProofStep::FailedAssumptions
    )
}

// The hashes that a step carries, of those passed beside it: all or none.
pub fn hashes_of(step: ProofStep, hashes: &[u64]) -> &[u64]
    ensures { result.now ≡ hashes_of step hashes.now }
{
    if has_hashes(step) { hashes } else { &[] }
}

fn is_units(step: ProofStep) -> bool
    ensures { result ≡ eqb (kind_of step) (kind_of UnitClauses) }
{
    matches!(step, ProofStep::UnitClauses)
}

// Units and hashes differ in number.
pub fn differ(step: ProofStep, lits: &[u32], hashes: &[u64]) -> bool
    ensures { result ≡ unmatched step lits.now hashes.now }
{
    is_units(step) & (lits.len() != hashes.len())
}

// A kind that DRAT lacks.
pub fn is_lacked(writes: Writes) -> bool
    ensures { result ≡ lacked writes }
{
    matches!(writes, Writes::Refused)
}
