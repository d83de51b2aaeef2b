// From which inputs a clause descends: one walk back over the clauses, by the parents that each step uses.
#![tactic(auto)]

ghost use Rattle.std.specs.Prelude.{◌<◌, ◌≡◌, set};
ghost use Rattle.text.specs.Figures.{office};
ghost use Rattle.descent.specs.Walk.{parent_if, parents_by, marked, passed, inputs_from};

use logic::Rule;
use rule_numbers::Uses;
use text::LINES;

// The numbers of the parents that a step uses; None for one that it does not use, or that no clause can be.
#[derive(Clone, Copy, Debug, PartialEq, Eq)]
pub struct Parents {
    pub a: Option<u16>,
    pub b: Option<u16>,
}

impl Parents {
    pub const NONE: Parents = Parents { a: None, b: None };
}

// What is held of a clause besides its place: its number of literals, its width, and the parents that its step uses.
#[derive(Clone, Copy, Debug, PartialEq, Eq)]
pub struct Held {
    pub literals: u8,
    pub width: u8,
    pub parents: Parents,
}

impl Held {
    pub const NONE: Held = Held {
        literals: 0,
        width: 0,
        parents: Parents::NONE,
    };
}

// A parent's number, if it is used.
#[tactic(auto, unfolding(crate::specs::Walk::parent_if))]
fn parent(is_used: bool, n: usize) -> Option<u16>
    ensures { result ≡ parent_if is_used n }
{
    u16::try_from(n).ok().filter(|_| is_used && n < LINES)
}

// The parents that a step by the rule uses.
#[tactic(auto, unfolding(crate::specs::Walk::parents_by))]
pub fn used_parents(rule: Rule, a: usize, b: usize) -> Parents
    ensures { result ≡ parents_by rule a b }
{
    let uses = Uses::of(rule);
    Parents {
        a: parent(uses.a, a),
        b: parent(uses.b, b),
    }
}

// Marks clause n, if there is one.
#[tactic(auto, unfolding(crate::specs::Walk::marked))]
fn mark(marks: &mut [bool; LINES], clause: Option<u16>)
    ensures { marks.new ≡ marked marks.old clause }
{
    if let Some(n) = clause.map(usize::from)
        && n < LINES
    {
        marks[n] = true;
    }
}

// A marked step gives way to the parents that it uses.
#[tactic(auto, unfolding(crate::specs::Walk::passed))]
fn pass(marks: &mut [bool; LINES], n: usize, parents: Parents)
    requires { n < office.lines }
    ensures { marks.new ≡ passed marks.old n parents }
{
    if marks[n] {
        marks[n] = false;
        mark(marks, parents.a);
        mark(marks, parents.b);
    }
}

// The inputs, so many, from which clause `first` descends: those that are marked.
#[tactic(auto, using(crate::proofs::Marks::walk))]
pub fn rests(held: &[Held; LINES], inputs: usize, first: usize) -> [bool; LINES]
    ensures { result ≡ inputs_from held.now inputs first }
{
    let mut marks = [false; LINES];
    if first >= LINES {
        return marks;
    }
    marks[first] = true;
    // The number is that of a clause, which `pass` asks for: an iterator over `held` would have to count it beside.
    for n in (inputs..=first).rev() {
        pass(&mut marks, n, held[n].parents);
    }
    marks
}
