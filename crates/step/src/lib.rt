// One line of the reading: the first of checks 2 to 11 that it fails, the parents that it uses, and what is asked where the base ends and
// the job begins.
#![tactic(auto)]

ghost use Rattle.std.specs.Prelude.{◌≡◌, length};
ghost use Rattle.source.specs.Texts.{part_of};
ghost use Rattle.rules.specs.Judging.{parent_of};
ghost use Rattle.step.specs.Step.{parent_at, judged_at, checked_at, parents_at, seam_failure};
ghost use Rattle.step.specs.Line.{JudgedRight, FirstFailing};

use descent::{Held, Parents, used_parents};
use logic::Check;
use reader::forms::{LineAt, StepAt};
use rules::steps::{Inference, Parent};
use source::{Texts, too_large};
use state::HeldState;
use text::{Figures, LINES};

// What there is before a line: the texts, the state, and what is held of the clauses.
#[derive(Clone, Copy, Debug, PartialEq, Eq)]
pub struct Before<'a> {
    pub texts: Texts<'a>,
    pub state: &'a HeldState,
    pub held: &'a [Held; LINES],
}

impl<'a> Before<'a> {
    // Clause n as a parent: the part of the text that begins with it, its number of literals and its width. What a number gives that no
    // clause has is of no account: check 7 refuses it where it is used, and elsewhere no answer depends on it.
    #[tactic(auto, unfolding(crate::specs::Step::parent_at))]
    fn parent(self, n: usize) -> Parent<'a>
        ensures { parent_of result ≡ parent_at (part_of self.entry.texts) self.entry.state.now self.entry.held.now n }
    {
        let Before { texts, state, held } = self;
        let start = state.starts.get(n).copied().unwrap_or(0);
        let clause = held.get(n).copied().unwrap_or(Held::NONE);
        Parent {
            clause: texts.part_at(usize::from(start)),
            literals: usize::from(clause.literals),
            width: usize::from(clause.width),
        }
    }

    // Checks 7 to 11 of a step, over its parents.
    #[tactic(auto, unfolding(crate::specs::Step::judged_at))]
    fn judged(self, depth: u8, line: &'a [u8], step: &'a StepAt) -> Result<(), Check>
        ensures value { result ≡ judged_at depth (part_of self.entry.texts) self.entry.state.now self.entry.held.now line.now step.now }
        ensures judges { JudgedRight depth (part_of self.entry.texts) self.entry.state.now self.entry.held.now line.now step.now result }
    {
        let inference = Inference {
            a: self.parent(step.numbers.a),
            b: self.parent(step.numbers.b),
            line,
            step,
        };
        inference.judged(depth, self.state.clauses)
    }

    // Checks 2 to 11 of the next line, without its line end: the line as it was read, or the first check that it fails. A step is judged by
    // the clauses before it.
    #[tactic(auto, unfolding(crate::specs::Step::checked_at, crate::specs::Step::then_judged, crate::specs::Step::line_judged, state::specs::Represents::checked_line), using(crate::proofs::Judging::checking))]
    pub fn checked(self, depth: u8, line: &'a [u8]) -> Result<LineAt, Check>
        ensures value { result ≡ checked_at depth (part_of self.entry.texts) self.entry.state.now self.entry.held.now line.now }
        ensures first_failing { FirstFailing depth (part_of self.entry.texts) self.entry.state.now self.entry.held.now line.now result }
        ensures self_unchanged { (self.exit.texts.base.now ≡ self.entry.texts.base.now) × (self.exit.texts.job.now ≡ self.entry.texts.job.now)
            × (line.exit.now ≡ line.entry.now) }
    {
        let read = self
            .state
            .see(depth, line)
            .map_err(|unpassed| unpassed.check)?;
        if let LineAt::By(step) = &read {
            self.judged(depth, line, step)?;
        }
        Ok(read)
    }

    // What fails at a place, so many lines after the beginning, where the base ends and the job begins: the check for a constant, where the
    // base has none, or that of the size, where the two are too large together. Nothing fails at other places.
    #[tactic(auto, unfolding(crate::specs::Step::seam_failure, crate::specs::Step::left_of))]
    pub fn seam(self, figures: Figures, at: usize, lines: usize) -> Result<(), Check>
        ensures value { result ≡ seam_failure figures self.entry.state.now (length self.entry.texts.base.now) at lines self.entry.texts.job.now }
        ensures self_unchanged { (self.exit.state.now ≡ self.entry.state.now) × (self.exit.texts.job.now ≡ self.entry.texts.job.now) }
    {
        let base = self.texts.base.len();
        if at != base {
            return Ok(());
        }
        Check::Constant.passed_if(self.state.has_constant())?;
        let rest = Figures {
            bytes: figures.bytes.saturating_sub(base),
            lines: figures.lines.saturating_sub(lines),
            depth: figures.depth,
        };
        Check::Size.passed_if(!too_large(self.texts.job, rest))
    }
}

// The numbers of the parents that a line uses: of a step those that its rule uses, of another line none.
#[tactic(auto, unfolding(crate::specs::Step::parents_at))]
pub fn parents(line: &LineAt) -> Parents
    ensures value { result ≡ parents_at line.now }
    ensures line_unchanged { line.exit.now ≡ line.entry.now }
{
    match line {
        LineAt::Sym(_) | LineAt::Input(_) => Parents::NONE,
        LineAt::By(step) => used_parents(step.rule, step.numbers.a, step.numbers.b),
    }
}
