// One line: what it is, its numbers, and of its clause and its lists where they begin and what they measure.
ghost use Rattle.std.specs.Prelude.{◌≡◌, List, ℕ};
ghost use Rattle.text.specs.Read.{read_sym, read_input, read_step, read_form, whole, read_line};
ghost use Rattle.text.specs.Answers.{parsed};
ghost use Rattle.reader.specs.LineAt.{read_spaced, read_head, place_of, closed, line_of};

use crate::context::Context;
use crate::measures::Measure;
use logic::Rule;
use rule_numbers::Numbers;
use scan::numbers::number;
use scan::tables::one_of;
use scan::words::word;

// A clause or a list of a line: where it begins, and its measure. A place and not the bytes from there: the state holds the claim's and an
// input's place, and a second type for the lists alone would be this one with a lifetime, which every line would have to carry.
#[derive(Clone, Copy, Debug, PartialEq, Eq)]
pub struct ItemAt {
    pub start: usize,
    pub measure: Measure,
}

// A step: its rule, its numbers, its two lists and its claim.
#[derive(Clone, Copy, Debug, PartialEq, Eq)]
pub struct StepAt {
    pub rule: Rule,
    pub numbers: Numbers,
    pub first: ItemAt,
    pub second: ItemAt,
    pub claim: ItemAt,
}

// What a line is that is a form: K of a sym line; the clause of an in line; a step.
#[derive(Clone, Copy, Debug, PartialEq, Eq)]
pub enum LineAt {
    Sym(usize),
    Input(ItemAt),
    By(StepAt),
}

// The place in the line where its last bytes begin: a difference of lengths, and no conversion.
fn place(line: &[u8], rest: &[u8]) -> usize
    ensures { result ≡ place_of line.now rest.now }
{
    line.len().saturating_sub(rest.len())
}

// The closing bracket, and nothing after it.
#[tactic(auto, unfolding(crate::specs::LineAt::closed))]
fn closes(s: &[u8]) -> bool
    ensures { result ≡ closed s.now }
{
    matches!(s, [b')'])
}

// K) after the word sym.
#[tactic(auto, using(crate::proofs::Lines::sym_reads, crate::proofs::Lines::no_line), unfolding(text::specs::Read::read_sym))]
fn sym_line(s: &[u8]) -> Option<LineAt>
    ensures { (table line : List ℕ) → result ≡ line_of table line (whole (read_sym s.now)) }
{
    let (k, s) = number(s)?;
    closes(s).then_some(LineAt::Sym(k))
}

// A number after one space.
#[tactic(auto, unfolding(crate::specs::LineAt::read_spaced))]
fn spaced(s: &[u8]) -> Option<(usize, &[u8])>
    ensures { parsed result ≡ read_spaced s.now }
{
    let s = word(s, b" ")?;
    number(s)
}

// RULE A I B J K after the word by.
#[tactic(auto, unfolding(crate::specs::LineAt::read_head, text::specs::Read::read_rule))]
fn step_head(s: &[u8]) -> Option<((Rule, Numbers), &[u8])>
    ensures { parsed result ≡ read_head s.now }
{
    let (rule, s) = one_of(s)?;
    let (a, s) = spaced(s)?;
    let (i, s) = spaced(s)?;
    let (b, s) = spaced(s)?;
    let (j, s) = spaced(s)?;
    let (k, s) = spaced(s)?;
    Some(((rule, Numbers { a, i, b, j, k }), s))
}

impl<'t> Context<'t> {
    // CLAUSE) after the word in.
    #[tactic(auto, using(crate::proofs::Lines::input_reads, crate::proofs::Lines::no_line), unfolding(text::specs::Read::read_input))]
    fn input_line(self, line: &[u8], s: &[u8]) -> Option<LineAt>
        ensures { result ≡ line_of self.entry.table.now line.now (whole (read_input self.entry.depth s.now)) }
    {
        let start = place(line, s);
        let (measure, s) = self.clause(s)?;
        closes(s).then_some(LineAt::Input(ItemAt { start, measure }))
    }

    // RULE A I B J K LET LET CLAUSE) after the word by.
    #[tactic(auto, using(crate::proofs::Steps::step_splits, crate::proofs::Steps::step_reads, crate::proofs::Lines::no_line), unfolding(crate::proofs::Steps::step_body))]
    fn step_line(self, line: &[u8], s: &[u8]) -> Option<LineAt>
        ensures { result ≡ line_of self.entry.table.now line.now (whole (read_step self.entry.depth s.now)) }
    {
        let ((rule, numbers), s) = step_head(s)?;
        let first = word(s, b" ")?;
        let (firsts, s) = self.list(first)?;
        let second = word(s, b" ")?;
        let (seconds, s) = self.list(second)?;
        let claim = word(s, b" ")?;
        let (claimed, s) = self.clause(claim)?;
        closes(s).then_some(LineAt::By(StepAt {
            rule,
            numbers,
            first: ItemAt {
                start: place(line, first),
                measure: firsts,
            },
            second: ItemAt {
                start: place(line, second),
                measure: seconds,
            },
            claim: ItemAt {
                start: place(line, claim),
                measure: claimed,
            },
        }))
    }

    #[tactic(auto, using(crate::proofs::Lines::no_line), unfolding(text::specs::Read::read_form, text::specs::Read::one_of))]
    fn form(self, s: &[u8]) -> Option<LineAt>
        ensures { result ≡ line_of self.entry.table.now s.now (whole (read_form self.entry.depth s.now)) }
    {
        if let Some(s) = word(s, b"(sym ") {
            return sym_line(s);
        }
        if let Some(rest) = word(s, b"(in ") {
            return self.input_line(s, rest);
        }
        let rest = word(s, b"(by ")?;
        self.step_line(s, rest)
    }
}

// A line without its line end, over the table of argument counts, its terms at most `depth` deep: None if it is no form.
#[tactic(auto, unfolding(text::specs::Read::read_line))]
pub fn line(s: &[u8], table: &[u8], depth: u8) -> Option<LineAt>
    ensures value { result ≡ line_of table.now s.now (read_line depth s.now) }
    ensures s_unchanged { (s.exit.now ≡ s.entry.now) × (table.exit.now ≡ table.entry.now) }
{
    let context = Context {
        table,
        depth: usize::from(depth),
    };
    context.form(s)
}
