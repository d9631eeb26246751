// The answers of the C surface on clauses, proofs, CNF files and models: flat structs.
// How their contracts read: crates/numbers/specs/Flat.antt and Surface.antt.
// C has no Result: a refusal is a number there, 0 for none.
#![tactic(auto)]

pub mod cnf;
pub mod first;
pub mod modelled;
pub mod reading;
pub mod renamed;
pub mod simplified;
pub mod thinned;
pub mod written;
pub mod wrote;
