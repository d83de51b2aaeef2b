// Which of the numbers A I B J K each rule uses: checks 7 and 8 go by this table.
#![tactic(auto)]

ghost use Rattle.std.specs.Prelude.{◌≡◌};
ghost use Rattle.logic.specs.StepChecks.{zero_if_unused};
ghost use Rattle.rule_numbers.specs.Uses.{rule_row, uses_of, parent_numbers, unused_numbers};

use logic::Rule;

// The flags of A I B J K, in the order of the rule table. A reference, for an array would be made anew wherever it is looked up.
const USES: &[[bool; 5]; 14] = &[
    [false, false, false, false, false],
    [true, true, true, true, false],
    [true, true, false, true, false],
    [true, true, true, true, true],
    [true, true, true, true, false],
    [true, true, true, true, false],
    [true, true, true, true, false],
    [true, true, true, true, false],
    [true, true, true, true, true],
    [true, true, true, true, false],
    [true, true, true, true, false],
    [true, true, false, false, false],
    [true, true, true, true, false],
    [true, true, false, false, true],
];

// The rule's row, in the order of the rule table. Tables of rows are the form that is asked for.
pub fn row(rule: Rule) -> usize
    ensures { result ≡ rule_row rule }
{
    rule as usize
}

// Which of the numbers A I B J K a rule uses: flags, as a row of the table has them, with no values beside them.
#[derive(Clone, Copy, Debug, PartialEq, Eq)]
pub struct Uses {
    pub a: bool,
    pub i: bool,
    pub b: bool,
    pub j: bool,
    pub k: bool,
}

impl Uses {
    // The rule's row of the table: it is looked up, and no conversion.
    #[tactic(auto, unfolding(logic::specs::Rules::uses), using(crate::proofs::Flags::uses_carried))]
    pub fn of(rule: Rule) -> Uses
        ensures { result ≡ uses_of rule }
    {
        let [a, i, b, j, k] = USES[row(rule)];
        Uses { a, i, b, j, k }
    }
}

// A number is 0, if it is unused.
#[tactic(auto, unfolding(logic::specs::StepChecks::zero_if_unused))]
fn zero_if_unused(used: bool, n: usize) -> bool
    ensures { result ≡ zero_if_unused used n }
{
    used || n == 0
}

// The numbers A I B J K of a step. No one type with `Uses`: that is a row of the table, this is what a line says, and but for the one test
// of a number by its flag nothing is done with both.
#[derive(Clone, Copy, Debug, PartialEq, Eq)]
pub struct Numbers {
    pub a: usize,
    pub i: usize,
    pub b: usize,
    pub j: usize,
    pub k: usize,
}

impl Numbers {
    // Check 7 (V17): "the number of a used parent isn't below the step's own".
    #[tactic(auto, unfolding(crate::specs::Uses::parent_numbers, logic::specs::StepChecks::below))]
    pub fn parents_below(self, rule: Rule, own: usize) -> bool
        ensures { result ≡ parent_numbers rule own self }
    {
        let uses = Uses::of(rule);
        (!uses.a || self.a < own) && (!uses.b || self.b < own)
    }

    // The first part of check 8 (V18): "an unused number isn't 0".
    #[tactic(auto, unfolding(crate::specs::Uses::unused_numbers))]
    pub fn unused_zero(self, rule: Rule) -> bool
        ensures { result ≡ unused_numbers rule self }
    {
        let uses = Uses::of(rule);
        zero_if_unused(uses.a, self.a)
            && zero_if_unused(uses.i, self.i)
            && zero_if_unused(uses.b, self.b)
            && zero_if_unused(uses.j, self.j)
            && zero_if_unused(uses.k, self.k)
    }
}
