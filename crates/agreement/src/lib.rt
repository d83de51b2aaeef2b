// Whether items of written clauses, each filled by a list of a step's line, agree.
#![tactic(auto)]

pub mod agree;
mod same;
