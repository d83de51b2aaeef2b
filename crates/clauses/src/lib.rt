// The parts of a clause in its bytes: its literals and their terms, the parts of arrow atoms and molecules, the entries of a list, an
// occurrence. Each is given by the bytes from where it begins.
#![tactic(auto)]

pub mod access;
pub mod items;
pub mod parts;
pub mod shapes;
