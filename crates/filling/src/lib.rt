// Items of written clauses, filled by a list of a step's line: whether they stand in other bytes.
#![tactic(auto)]

pub mod compare;
