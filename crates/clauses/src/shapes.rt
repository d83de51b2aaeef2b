// Where the literals of a clause and their terms stand, each from where what it is a part of begins; None says that the shape is another.
ghost use Rattle.std.specs.Prelude.{◌≡◌};
ghost use Rattle.text.specs.Answers.{passed};
ghost use Rattle.clauses.specs.Shapes.{literal, next, positive, negative, atom, same_sign, link, denied, is_sv, same_arrow};
ghost use Rattle.clauses.specs.Shapes.{result_of, value_of, argument_of, object, scalar, signature};

use crate::access::skip;
use crate::items::{argument as listed, begins, item};
use logic::Link;
use scan::words::word;

// Literal n of the clause.
#[tactic(auto, unfolding(crate::specs::Shapes::literal))]
pub fn literal(clause: &[u8], n: usize) -> Option<&[u8]>
    ensures value { passed result ≡ literal n clause.now }
    ensures clause_unchanged { clause.exit.now ≡ clause.entry.now }
{
    item(word(clause, b"(or")?, n)
}

// The item after the one that stands here.
#[tactic(auto, unfolding(crate::specs::Shapes::next))]
pub fn next(s: &[u8]) -> Option<&[u8]>
    ensures value { passed result ≡ next s.now }
    ensures s_unchanged { s.exit.now ≡ s.entry.now }
{
    word(skip(s)?, b" ")
}

// The atom of a positive literal. This and `negative` are no plainer as one function of a sign: each is one call of `word`, with its head.
#[tactic(auto, unfolding(crate::specs::Shapes::positive))]
pub fn positive(literal: &[u8]) -> Option<&[u8]>
    ensures value { passed result ≡ positive literal.now }
    ensures literal_unchanged { literal.exit.now ≡ literal.entry.now }
{
    word(literal, b"(+ ")
}

// The atom of a negative literal.
#[tactic(auto, unfolding(crate::specs::Shapes::negative))]
pub fn negative(literal: &[u8]) -> Option<&[u8]>
    ensures value { passed result ≡ negative literal.now }
    ensures literal_unchanged { literal.exit.now ≡ literal.entry.now }
{
    word(literal, b"(- ")
}

// The atom of a literal of either sign.
#[tactic(auto, unfolding(crate::specs::Shapes::atom, crate::specs::Shapes::first_or))]
pub fn atom(literal: &[u8]) -> Option<&[u8]>
    ensures value { passed result ≡ atom literal.now }
    ensures literal_unchanged { literal.exit.now ≡ literal.entry.now }
{
    positive(literal).or_else(|| negative(literal))
}

// The two literals have one sign. They are told apart by nothing but order, as in `same_arrow`: a struct of two would say no more.
#[tactic(auto, unfolding(crate::specs::Shapes::same_sign, text::specs::Access::stood))]
pub fn same_sign(a: &[u8], b: &[u8]) -> bool
    ensures value { result ≡ same_sign a.now b.now }
    ensures a_unchanged { (a.exit.now ≡ a.entry.now) × (b.exit.now ≡ b.entry.now) }
{
    (positive(a).is_some() && positive(b).is_some())
        || (negative(a).is_some() && negative(b).is_some())
}

// The first term of a positive eq, mem or sub.
#[tactic(auto, unfolding(crate::specs::Shapes::link))]
pub fn link(literal: &[u8], kind: Link) -> Option<&[u8]>
    ensures value { passed result ≡ link kind literal.now }
    ensures literal_unchanged { literal.exit.now ≡ literal.entry.now }
{
    let atom = positive(literal)?;
    match kind {
        Link::Eq => word(atom, b"(eq "),
        Link::Mem => word(atom, b"(mem "),
        Link::Sub => word(atom, b"(sub "),
    }
}

// The term of a negative obj.
#[tactic(auto, unfolding(crate::specs::Shapes::denied))]
pub fn denied(literal: &[u8]) -> Option<&[u8]>
    ensures value { passed result ≡ denied literal.now }
    ensures literal_unchanged { literal.exit.now ≡ literal.entry.now }
{
    word(literal, b"(- (obj ")
}

// The result of an arrow atom, from its object on.
#[tactic(auto, unfolding(crate::specs::Shapes::result_of))]
pub fn result(object: &[u8]) -> Option<&[u8]>
    ensures value { passed result ≡ result_of object.now }
    ensures object_unchanged { object.exit.now ≡ object.entry.now }
{
    next(next(next(object)?)?)
}

// The same, if it is a term.
#[tactic(auto, unfolding(crate::specs::Shapes::value_of))]
pub fn value(object: &[u8]) -> Option<&[u8]>
    ensures value { passed result ≡ value_of object.now }
    ensures object_unchanged { object.exit.now ≡ object.entry.now }
{
    begins(result(object)?)
}

// Argument n of an arrow atom, from its object on.
#[tactic(auto, unfolding(crate::specs::Shapes::argument_of))]
pub fn argument(object: &[u8], n: usize) -> Option<&[u8]>
    ensures value { passed result ≡ argument_of n object.now }
    ensures object_unchanged { object.exit.now ≡ object.entry.now }
{
    listed(next(next(object)?)?, n)
}

// The object of a positive arrow atom with one of two heads.
#[tactic(auto, unfolding(crate::specs::Shapes::object, crate::specs::Shapes::first_or))]
fn object<'a>(literal: &'a [u8], head: &[u8], other: &[u8]) -> Option<&'a [u8]>
    ensures { passed result ≡ object head.now other.now literal.now }
{
    let atom = positive(literal)?;
    word(atom, head).or_else(|| word(atom, other))
}

// The object of a positive sv or si. This and `signature` share `object`, and differ in the heads that they name.
pub fn scalar(literal: &[u8]) -> Option<&[u8]>
    ensures value { passed result ≡ scalar literal.now }
    ensures literal_unchanged { literal.exit.now ≡ literal.entry.now }
{
    object(literal, b"(sv ", b"(si ")
}

// The object of a positive st or mt.
pub fn signature(literal: &[u8]) -> Option<&[u8]>
    ensures value { passed result ≡ signature literal.now }
    ensures literal_unchanged { literal.exit.now ≡ literal.entry.now }
{
    object(literal, b"(st ", b"(mt ")
}

// Whether this is a positive sv.
#[tactic(auto, unfolding(crate::specs::Shapes::is_sv, text::specs::Access::stood))]
fn sv(literal: &[u8]) -> bool
    ensures { result ≡ is_sv literal.now }
{
    positive(literal)
        .and_then(|atom| word(atom, b"(sv "))
        .is_some()
}

// Both literals have the head of sv, or neither has.
#[tactic(auto, unfolding(crate::specs::Shapes::same_arrow))]
pub fn same_arrow(a: &[u8], b: &[u8]) -> bool
    ensures value { result ≡ same_arrow a.now b.now }
    ensures a_unchanged { (a.exit.now ≡ a.entry.now) × (b.exit.now ≡ b.entry.now) }
{
    sv(a) == sv(b)
}
