// The places of a proof's bytes: what stands at one, and all of them gone through up to the first fault.
#![tactic(auto)]

pub mod place;
pub mod scan;
