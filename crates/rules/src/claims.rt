// Check 11: the fourth column of the rule table, and the claim as a whole.
ghost use Rattle.std.specs.Prelude.{◌≡◌};
ghost use Rattle.text.specs.Answers.{passed};
ghost use Rattle.filling.specs.Items.{item_of};
ghost use Rattle.rule_table.specs.Rows.{at_found};
ghost use Rattle.rules.specs.Claim.{premise_of, without, kept_of, new_by, literals_by, claims};

use expected::claims::{
    Kept, begin, ends, equated, merged, others, projected, reflexive, rewritten,
};
use filling::compare::{Filled, Replaced};
use rule_table::Found;

// A parent with what fills it, and its number of literals.
#[derive(Clone, Copy, Debug, PartialEq, Eq)]
pub struct Premise<'a> {
    pub clause: Filled<'a>,
    pub literals: usize,
}

impl<'a> Premise<'a> {
    // All of its literals but this one.
    pub fn without(self, dropped: usize) -> Kept<'a>
        ensures { kept_of result ≡ without (premise_of self.entry) dropped }
    {
        Kept {
            clause: self.clause,
            literals: self.literals,
            dropped,
        }
    }
}

// What the claim of a step has to be: the new literal of what was found in the clauses, and what is kept of either.
#[derive(Clone, Copy, Debug, PartialEq, Eq)]
pub struct Conclusion<'a> {
    pub found: Found<'a>,
    pub a: Kept<'a>,
    pub b: Kept<'a>,
}

impl<'a> Conclusion<'a> {
    // The new literal, if any: what is left of the claim after it. Depth and what is left go side by side, as in `expected` and for its
    // reason.
    #[tactic(auto, unfolding(crate::specs::Claim::new_by))]
    fn new_literal<'r>(&self, depth: u8, rest: &'r [u8]) -> Option<&'r [u8]>
        ensures { passed result ≡ new_by depth (item_of self.now.a.clause) (item_of self.now.b.clause) (at_found self.now.found) rest.now }
    {
        let (a, b) = (self.a.clause, self.b.clause);
        match self.found {
            Found::Nothing => reflexive(depth, a.entries, rest),
            Found::Fitting { .. } | Found::Denied => Some(rest),
            Found::Rewriting {
                literal,
                term,
                other,
                ..
            } => {
                let replaced = Replaced {
                    hole: term.len(),
                    new: b.beside(other),
                };
                rewritten(depth, a.beside(literal), replaced, rest)
            }
            Found::Crossing { left, more, .. } => {
                equated(depth, a.beside(left), a.beside(more), rest)
            }
            Found::Calling { value, other, .. } => {
                equated(depth, a.beside(value), b.beside(other), rest)
            }
            Found::Merging { left, right, .. } => {
                merged(depth, a.beside(left), b.beside(right), rest)
            }
            Found::Projecting { object, part } => projected(depth, a.beside(object), part, rest),
        }
    }

    // The literals of the claim: what is left of the line after them.
    #[tactic(auto, unfolding(crate::specs::Claim::literals_by))]
    fn literals<'r>(&self, depth: u8, claim: &'r [u8]) -> Option<&'r [u8]>
        ensures { passed result ≡ literals_by depth (kept_of self.now.a) (kept_of self.now.b) (at_found self.now.found) claim.now }
    {
        let first = begin(claim)?;
        let kept = self.new_literal(depth, first)?;
        let last = others(depth, self.a, kept)?;
        others(depth, self.b, last)
    }

    // The claim is the new literal, A's other literals, then B's other literals, up to the end of the line.
    #[tactic(auto, unfolding(crate::specs::Claim::claims))]
    pub fn is_claimed(&self, depth: u8, claim: &[u8]) -> bool
        ensures { result ≡ claims depth (kept_of self.now.a) (kept_of self.now.b) (at_found self.now.found) claim.now }
    {
        self.literals(depth, claim).is_some_and(ends)
    }
}
