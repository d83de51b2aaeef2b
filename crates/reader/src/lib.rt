// Reading a line: what form it is, where its parts stand, and a measure of them.
#![tactic(auto)]

mod atoms;
mod clauses;
mod context;
pub mod forms;
mod items;
pub mod measures;
mod terms;
