// Rename and Write: steps under global names, and their DRAT bytes.
#![tactic(auto)]

pub mod kinds;
pub mod rename;
pub mod write;
