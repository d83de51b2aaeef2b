// What is expected in a step's claim: items of written clauses, filled by a list of its line.
#![tactic(auto)]

pub mod claims;
