// Finding words and numbers in bytes, and counting a byte. The definitions are in specs/ and in the crate `text`.
#![tactic(auto)]

pub mod counts;
pub mod kinds;
pub mod numbers;
pub mod tables;
pub mod words;
