// What an answer to a text is. What it means stands in specs/; there is no code.
#![tactic(auto)]

use logic::Check;
use text::LINES;

// What is found of a text.
#[derive(Clone, Copy, Debug, PartialEq, Eq)]
pub enum Verdict {
    // Accepted: the number of clauses, and the number of the first empty one.
    Refuted { count: usize, first: usize },
    // Accepted, and no clause is empty: the number of clauses.
    Open { count: usize },
    // The first failing check of the first failing line, and that line; 0 where it is of no line, as the text form has it (V11, V14).
    Refused { check: Check, line: usize },
}

// The answer to a text: the verdict, and the inputs on which a refutation rests, by clause number. The marks stand beside the verdict: in
// `Refuted` they would be moved with every verdict, and a short refused text took 3 in 100 longer (docs/DECISIONS.md).
#[derive(Drop)]
pub struct Answer {
    pub verdict: Verdict,
    pub rests: [bool; LINES],
}
