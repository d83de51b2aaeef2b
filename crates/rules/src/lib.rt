// The step check: checks 7 to 11. Its definitions are in specs/, its laws in proofs/.
#![tactic(auto)]

mod claims;
pub mod steps;
