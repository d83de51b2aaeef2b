// Checks 7 to 11 of a step.
ghost use Rattle.std.specs.Prelude.{◌≡◌, drop};
ghost use Rattle.text.specs.Answers.{passed};
ghost use Rattle.clauses.specs.Entries.{entries as entries_in};
ghost use Rattle.rules.specs.Claim.{premise_of};
ghost use Rattle.rules.specs.Judging.{lists_fit, given, premise, dropped_by, conclude_by, under_lists, step_at, Judges};
ghost use Rattle.rules.specs.Judging.{parent_of, parents_of, first_of, second_of};

use crate::claims::{Conclusion, Premise};
use agreement::agree::Pair;
use clauses::items::{ENTRIES, entries};
use clauses::shapes::{literal, positive};
use filling::compare::Filled;
use logic::Check;
use reader::forms::StepAt;
use rule_numbers::Uses;
use rule_table::{find, table_row};
use source::clause_part;

// A parent of a step: the part of the text that begins with its clause, its number of literals, and its highest variable plus 1.
#[derive(Clone, Copy, Debug, PartialEq, Eq)]
pub struct Parent<'a> {
    pub clause: &'a [u8],
    pub literals: usize,
    pub width: usize,
}

impl<'a> Parent<'a> {
    // Filled by the entries of a list, for which there is room in `found`; they are not looked for where there are no variables. Written
    // out: `then` is not handed a call whose result has a lifetime that its arguments have not.
    #[tactic(auto, unfolding(crate::specs::Judging::given))]
    fn filled<'f>(self, list: &'a [u8], found: &'f mut [&'a [u8]; ENTRIES]) -> Premise<'f>
    where
        'a: 'f,
        ensures { premise_of result ≡ premise self.entry.clause.now (given self.entry.width (entries_in list.now)) self.entry.literals }
    {
        let entries = if self.width == 0 {
            None
        } else {
            Some(entries(list, found))
        };
        Premise {
            clause: Filled {
                item: self.clause,
                entries,
            },
            literals: self.literals,
        }
    }
}

// The literal of A that the claim lacks, where x is the literal at I: that one, but where both literals are A's, in fac alone.
#[tactic(auto, unfolding(crate::specs::Judging::dropped_by, text::specs::Access::stood))]
fn dropped(uses: Uses, x: Option<&[u8]>, i: usize, j: usize) -> usize
    ensures { result ≡ dropped_by uses.b uses.j (passed x.entry) i j }
{
    if uses.b || !uses.j {
        return i;
    }
    let Some(literal) = x else {
        return i;
    };
    match positive(literal) {
        Some(_) => j,
        None => i,
    }
}

// A step that was read: what stands at its numbers A and B, and the line that it is. No Options: so whoever has both need not know which of
// them the rule uses.
#[derive(Clone, Copy, Debug, PartialEq, Eq)]
pub struct Inference<'a> {
    pub a: Parent<'a>,
    pub b: Parent<'a>,
    pub line: &'a [u8],
    pub step: &'a StepAt,
}

impl<'a> Inference<'a> {
    // A; where it is not used, which is in refl alone, with no literal and one term in its list (R8).
    fn first(&self) -> Parent<'a>
        ensures { parent_of result ≡ first_of self.now.step.now.rule (parent_of self.now.a) }
    {
        if Uses::of(self.step.rule).a {
            return self.a;
        }
        Parent {
            literals: 0,
            width: 1,
            ..self.a
        }
    }

    // B, if it is used.
    fn second(&self) -> Option<Parent<'a>>
        ensures { parents_of result ≡ second_of self.now.step.now.rule (parent_of self.now.b) }
    {
        Uses::of(self.step.rule).b.then_some(self.b)
    }

    // The second part of check 8 (V18): "a list has the wrong length".
    #[tactic(auto, unfolding(crate::specs::Judging::lists_fit))]
    fn lists_fit(&self) -> bool
        ensures { result ≡ lists_fit self.now.step.now self.now.a.width self.now.b.width }
    {
        self.step.first.measure.count == self.first().width
            && self.step.second.measure.count == self.second().map_or(0, |b| b.width)
    }

    // Checks 9 to 11, over the premises, an unused one without literals. The claim is the rest of the line from there on.
    #[tactic(auto, unfolding(crate::specs::Judging::conclude_by, crate::specs::Judging::checked))]
    fn conclude(&self, depth: u8, a: Premise<'_>, b: Premise<'_>) -> Result<(), Check>
        ensures { result ≡ conclude_by depth self.now.step.now (premise_of a.entry) (premise_of b.entry) (drop self.now.step.now.claim.start self.now.line.now) }
    {
        let step = self.step;
        let numbers = step.numbers;
        let x = literal(a.clause.item, numbers.i);
        let y = literal(b.clause.item, numbers.j);
        let found = find(table_row(step.rule), numbers.k, x, y).ok_or(Check::Shape)?;
        let pair = Pair {
            depth,
            a: a.clause,
            b: b.clause,
        };
        Check::Agreement.passed_if(found.agrees(pair))?;
        let i = dropped(Uses::of(step.rule), x, numbers.i, numbers.j);
        let conclusion = Conclusion {
            found,
            a: a.without(i),
            b: b.without(numbers.j),
        };
        let claim = clause_part(self.line, step.claim.start);
        Check::Claim.passed_if(conclusion.is_claimed(depth, claim))
    }

    // Checks 9 to 11 under the lists of the line.
    #[tactic(auto, unfolding(crate::specs::Judging::under_lists))]
    fn under_lists(&self, depth: u8) -> Result<(), Check>
        ensures { result ≡ under_lists depth (parent_of self.now.a) (parent_of self.now.b) self.now.line.now self.now.step.now }
    {
        let mut firsts: [&[u8]; ENTRIES] = [&[]; ENTRIES];
        let first_list = clause_part(self.line, self.step.first.start);
        let a = self.first().filled(first_list, &mut firsts);
        let Some(b) = self.second() else {
            // A stands for a B that is not used, without its literals: fac names both its literals in A (R10).
            let none = Premise { literals: 0, ..a };
            return self.conclude(depth, a, none);
        };
        let mut seconds: [&[u8]; ENTRIES] = [&[]; ENTRIES];
        let second_list = clause_part(self.line, self.step.second.start);
        self.conclude(depth, a, b.filled(second_list, &mut seconds))
    }

    // Checks 7 to 11; `own` is the step's own number. Terms of its parents nest at most `depth` deep.
    #[tactic(auto, unfolding(crate::specs::Judging::step_at, crate::specs::Judging::settled), using(crate::proofs::JudgeMeets::what_judges))]
    pub fn judged(&self, depth: u8, own: usize) -> Result<(), Check>
        ensures value { result ≡ step_at depth own (parent_of self.now.a) (parent_of self.now.b) self.now.line.now self.now.step.now }
        ensures judges { Judges depth own (parent_of self.now.a) (parent_of self.now.b) self.now.line.now self.now.step.now result }
        ensures self_unchanged { self.exit.now ≡ self.entry.now }
    {
        let step = self.step;
        let numbers = step.numbers;
        let below = numbers.parents_below(step.rule, own);
        let right = numbers.unused_zero(step.rule) && self.lists_fit();
        Check::Parents.passed_if(below)?;
        Check::Numbers.passed_if(right)?;
        self.under_lists(depth)
    }
}
