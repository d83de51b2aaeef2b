// The reading state: the argument counts of the symbols and the places of the clauses. Checks 2 to 6 of a line.
#![tactic(auto)]

ghost use Rattle.std.specs.Prelude.{◌≡◌, take};
ghost use Rattle.state.specs.State.{has_constant};
ghost use Rattle.state.specs.ReadLine.{fresh_state, held_table, clause_failure, step_failure, failure_of, seen_at};
ghost use Rattle.state.specs.ReadLine.{placed, byte_of, counted as counted_in, clause_added, added_by, symbol_held, clause_held};
ghost use Rattle.state.specs.Represents.{Begins, Sees, Adds};

use logic::Check;
use reader::forms::{ItemAt, LineAt, StepAt, line};
use reader::measures::Bounds;
use text::LINES;

// Symbols of a text.
const SYMBOLS: usize = 256;

// Terms that a symbol takes: K of a sym line.
const PARTS: usize = 8;

// Arguments of a method; the parts of a molecule count as half as many (`Bounds::molecule`).
const ARGUMENTS: usize = 8;

// Literals of a clause, variables, and terms of a list: as many of each.
const ITEMS: usize = 32;

// Of each symbol its argument count, of each clause its place, and how many there are; of the clauses, how many are inputs. There is room
// for a clause of each line of the office's texts. Arrays with their lengths beside are the form that is asked for, with no heap.
#[derive(Debug, PartialEq, Eq, Drop)]
pub struct HeldState {
    pub counts: [u8; SYMBOLS],
    pub symbols: usize,
    pub starts: [u16; LINES],
    pub clauses: usize,
    pub inputs: usize,
}

// What a line that passes adds: a symbol, with its argument count; or a clause, with its place, its number of literals, its width, and the
// number of in lines with it.
#[derive(Clone, Copy, Debug, PartialEq, Eq)]
pub enum Added {
    Symbol(u8),
    Clause {
        start: u16,
        literals: u8,
        width: u8,
        inputs: usize,
    },
}

// Of a line that fails: the first check of 2 to 6 that it fails, and the line as it was read; None where it is no form.
#[derive(Clone, Copy, Debug, PartialEq, Eq)]
pub struct Unpassed {
    pub check: Check,
    pub line: Option<LineAt>,
}

// The argument counts of the first symbols, so many: all, where more are said to be than there are counts, which no state says.
fn first(counts: &[u8], symbols: usize) -> &[u8]
    ensures { result.now ≡ take symbols counts.now }
{
    counts.get(..symbols).unwrap_or(counts)
}

// Whether some symbol of those held takes no terms, by the argument counts and the number of symbols.
#[tactic(auto, using(crate::proofs::StateCode::any_constant))]
pub fn constant_held(counts: &[u8], symbols: usize) -> bool
    ensures value { result ≡ has_constant (take symbols counts.now) }
    ensures counts_unchanged { counts.exit.now ≡ counts.entry.now }
{
    first(counts, symbols).contains(&0)
}

impl HeldState {
    // The state before the first line.
    #[tactic(auto, unfolding(crate::specs::ReadLine::fresh_state), using(crate::proofs::Held::fresh_begins))]
    pub fn fresh() -> HeldState
        ensures value { result ≡ fresh_state }
        ensures begins { Begins result }
    {
        HeldState {
            counts: [0; SYMBOLS],
            symbols: 0,
            starts: [0; LINES],
            clauses: 0,
            inputs: 0,
        }
    }

    // The argument counts of the symbols that are declared.
    #[tactic(auto, unfolding(crate::specs::ReadLine::held_table))]
    pub fn declared(&self) -> &[u8]
        ensures value { result.now ≡ held_table self.now }
        ensures self_unchanged { self.exit.now ≡ self.entry.now }
    {
        first(&self.counts, self.symbols)
    }

    // Whether some symbol takes no terms.
    #[tactic(auto, unfolding(crate::specs::ReadLine::held_table))]
    pub fn has_constant(&self) -> bool
        ensures value { result ≡ has_constant (held_table self.now) }
        ensures self_unchanged { self.exit.now ≡ self.entry.now }
    {
        constant_held(&self.counts, self.symbols)
    }

    // Checks 3 to 6 of a line.
    #[tactic(auto, unfolding(crate::specs::ReadLine::failure_of))]
    fn passes(&self, l: &LineAt) -> Result<(), Check>
        ensures value { result ≡ failure_of self.now l.now }
        ensures self_unchanged { self.exit.now ≡ self.entry.now }
    {
        match l {
            LineAt::Sym(k) => {
                Check::Order.passed_if(self.clauses == 0)?;
                Check::Limit.passed_if(self.symbols < SYMBOLS && *k <= PARTS)
            }
            LineAt::Input(c) => {
                Check::Order.passed_if(self.clauses == self.inputs)?;
                clause_passes(self.has_constant(), c.measure.count, c.measure.bounds)
            }
            LineAt::By(s) => step_passes(self.has_constant(), s),
        }
    }

    // Checks 2 to 6 of the next line, without its line end: the line as it was read, and, where it fails, the first check that it fails.
    #[tactic(auto, unfolding(crate::specs::ReadLine::seen_at, crate::specs::ReadLine::passing, crate::specs::ReadLine::seen_by), using(crate::proofs::Held::line_sees))]
    pub fn see(&self, depth: u8, text: &[u8]) -> Result<LineAt, Unpassed>
        ensures value { result ≡ seen_at depth self.now text.now }
        ensures sees { Sees depth self.now text.now result }
        ensures self_unchanged { (self.exit.now ≡ self.entry.now) × (text.exit.now ≡ text.entry.now) }
    {
        let Some(l) = line(text, self.declared(), depth) else {
            return Err(Unpassed {
                check: Check::Form,
                line: None,
            });
        };
        match self.passes(&l) {
            Ok(()) => Ok(l),
            Err(check) => Err(Unpassed {
                check,
                line: Some(l),
            }),
        }
    }

    // The state with one symbol more; as it was, where there is no room. It is made anew with one exit: by `mut self`, by a `match` or by
    // `..self` a line moves twice as many bytes, and (g) of bench/ misses its goal.
    #[tactic(auto, unfolding(crate::specs::ReadLine::symbol_held))]
    pub fn with_symbol(self, count: u8) -> HeldState
        ensures { result ≡ symbol_held self count }
    {
        let mut counts = self.counts;
        let mut symbols = self.symbols;
        if symbols < SYMBOLS {
            counts[symbols] = count;
            symbols += 1;
        }
        let starts = self.starts;
        HeldState {
            counts,
            symbols,
            starts,
            clauses: self.clauses,
            inputs: self.inputs,
        }
    }

    // The state with one clause more, which begins at `start`, and with so many in lines; as it was, where there is no room. Made anew with
    // one exit, as in `with_symbol` and for the same reason.
    #[tactic(auto, unfolding(crate::specs::ReadLine::clause_held))]
    pub fn with_clause(self, start: u16, inputs: usize) -> HeldState
        ensures { result ≡ clause_held self start inputs }
    {
        let mut starts = self.starts;
        let mut clauses = self.clauses;
        let mut held = self.inputs;
        if clauses < LINES {
            starts[clauses] = start;
            clauses += 1;
            held = inputs;
        }
        let counts = self.counts;
        HeldState {
            counts,
            symbols: self.symbols,
            starts,
            clauses,
            inputs: held,
        }
    }
}

// Checks 4 to 6 of a line with a clause, by the most literals or entries of a list and by the bounds of all of it.
#[tactic(auto, unfolding(crate::specs::ReadLine::clause_failure, crate::specs::ReadLine::line_fits))]
fn clause_passes(ready: bool, most: usize, b: Bounds) -> Result<(), Check>
    ensures { result ≡ clause_failure ready most b }
{
    Check::Constant.passed_if(ready)?;
    Check::Limit.passed_if(most.max(b.width) <= ITEMS && b.arguments <= ARGUMENTS)?;
    Check::Symbol.passed_if(b.unknown == 0)
}

// Checks 4 to 6 of a step: its lists and its claim, in the order of the text.
#[tactic(auto, unfolding(crate::specs::ReadLine::step_failure, crate::specs::ReadLine::step_most, crate::specs::ReadLine::step_bounds))]
fn step_passes(ready: bool, s: &StepAt) -> Result<(), Check>
    ensures { result ≡ step_failure ready s.now }
{
    let (f, g, c) = (s.first.measure, s.second.measure, s.claim.measure);
    let most = f.count.max(g.count.max(c.count));
    clause_passes(ready, most, f.bounds.join(g.bounds.join(c.bounds)))
}

// A place of the text, within the office's bytes. The 0 is not met: a text of more bytes fails check 1, which comes first.
#[tactic(auto, unfolding(crate::specs::ReadLine::placed))]
fn place(start: usize, at: usize) -> u16
    ensures { result ≡ placed start at }
{
    start
        .checked_add(at)
        .and_then(|place| u16::try_from(place).ok())
        .unwrap_or(0)
}

// A number within 255. The 0 is not met: a line that passes check 5 has none above 32.
#[tactic(auto, unfolding(crate::specs::ReadLine::byte_of))]
fn byte(n: usize) -> u8
    ensures { result ≡ byte_of n }
{
    u8::try_from(n).unwrap_or(0)
}

// One in line more, if there is room: a step of a count, and no conversion.
#[tactic(auto, unfolding(crate::specs::ReadLine::counted))]
fn counted(inputs: usize) -> usize
    ensures { result ≡ counted_in inputs }
{
    if inputs < LINES { inputs + 1 } else { inputs }
}

// What a clause adds, of a line that begins at `start` of the text, with so many in lines.
#[tactic(auto, unfolding(crate::specs::ReadLine::clause_added))]
fn clause_added(start: usize, inputs: usize, c: &ItemAt) -> Added
    ensures { result ≡ clause_added start inputs c.now }
{
    Added::Clause {
        start: place(start, c.start),
        literals: byte(c.measure.count),
        width: byte(c.measure.bounds.width),
        inputs,
    }
}

// What a line that passes adds, which begins at `start` of the text and comes after so many in lines.
#[tactic(auto, unfolding(crate::specs::ReadLine::added_by), using(crate::proofs::Held::what_adds))]
pub fn adds(start: usize, inputs: usize, l: &LineAt) -> Added
    ensures value { result ≡ added_by start inputs l.now }
    ensures adds { Adds start inputs l.now result }
    ensures l_unchanged { l.exit.now ≡ l.entry.now }
{
    match l {
        LineAt::Sym(k) => Added::Symbol(byte(*k)),
        LineAt::Input(c) => clause_added(start, counted(inputs), c),
        LineAt::By(s) => clause_added(start, inputs, &s.claim),
    }
}
