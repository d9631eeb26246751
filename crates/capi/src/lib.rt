// The calls of document 01 in plain types: numbers, slices, and structs by value. capi_c exports them to C; the header is include/hintzobar.h.
#![tactic(auto)]

pub mod clauses;
pub mod cnf;
pub mod codec;
pub mod counts;
pub mod grants;
pub mod lines;
pub mod marking;
pub mod models;
pub mod names;
pub mod opening;
pub mod poses;
pub mod removing;
pub mod showing;
pub mod users;
