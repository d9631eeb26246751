// The answers of the C surface on tables and names: flat structs. How their contracts read: crates/numbers/specs/Flat.antt and Surface.antt.
// C has no Option or Result: a refusal is a number there, 0 for none, and what was found stands beside a flag.
#![tactic(auto)]

pub mod changed;
pub mod found;
pub mod granted;
pub mod mapped;
pub mod mode_set;
pub mod new_mapped;
pub mod noted;
pub mod observed;
pub mod opened;
pub mod posed;
pub mod users;
