// The calls on tables that are known to be sound, for C and Rust: `known` calls do not test the table, and calls named `in` are lent only the lists
// that they touch. The header is include/hintzobar.h. The lists are lent one by one, as C has them.
#![tactic(auto)]

pub mod clauses;
pub mod grants;
pub mod lines;
pub mod lookups;
pub mod marking;
pub mod models;
pub mod names;
pub mod poses;
pub mod removing;
pub mod showing;
