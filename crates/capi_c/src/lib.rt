// The calls of capi under their C names, which include/hintzobar.h declares: each takes the same arguments, states the same clauses and calls the
// function of that name. A crate is a library or an archive: what C and replay both call stands in two.
#![tactic(auto)]

pub mod clauses;
pub mod cnf;
pub mod codec;
pub mod counts;
pub mod grants;
pub mod lines;
pub mod marking;
pub mod models;
pub mod names;
pub mod opening;
pub mod poses;
pub mod removing;
pub mod showing;
pub mod users;
