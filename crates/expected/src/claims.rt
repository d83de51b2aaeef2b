// Check 11: what is expected in the claim. Each call takes what is left of the line and answers what is left after what it expects.
// Terms nest at most `depth` deep: one number for a text, which is handed on. A struct of it and of what is left would be taken apart and
// made anew by each call, and each would have to promise besides that the depth stays.
ghost use Rattle.std.specs.Prelude.{◌≡◌};
ghost use Rattle.text.specs.Answers.{passed};
ghost use Rattle.text.specs.Read.{skip};
ghost use Rattle.clauses.specs.Entries.{after};
ghost use Rattle.clauses.specs.Shapes.{literals};
ghost use Rattle.filling.specs.Items.{item_of, entries_of, compared};
ghost use Rattle.clauses.specs.Parts.{shown, all_shown};
ghost use Rattle.expected.specs.Claims.{claim_ends, item_expected, item_claimed, linked, reflexive, equated, rewritten, kept, others};
ghost use Rattle.expected.specs.Claims.{spaced, result_claimed, said_claimed, arrow_claimed, part_claimed, parts_claimed, object_claimed, merged, projected, went_on};
ghost use Rattle.clauses.specs.Parts.{object_of};

use clauses::items::pass;
use clauses::parts::{PARTS, Part, object, parts};
use filling::compare::{Filled, Filling, Replaced, expect, hole_depth, item_depth, stands};
use logic::Arrow;
use scan::words::word;

// The beginning of the claim.
pub fn begin(claim: &[u8]) -> Option<&[u8]>
    ensures value { passed result ≡ literals claim.now }
    ensures claim_unchanged { claim.exit.now ≡ claim.entry.now }
{
    word(claim, b"(or")
}

// Whether the claim ends here, and the line with it.
#[tactic(auto, unfolding(crate::specs::Claims::claim_ends, crate::specs::Claims::nothing_after))]
pub fn ends(rest: &[u8]) -> bool
    ensures value { result ≡ claim_ends rest.now }
    ensures rest_unchanged { rest.exit.now ≡ rest.entry.now }
{
    word(rest, b"))").is_some_and(|after| after.is_empty())
}

// The item, filled.
#[tactic(auto, unfolding(crate::specs::Claims::item_claimed, crate::specs::Claims::item_expected, crate::specs::Claims::in_claim))]
fn filled<'r>(depth: u8, x: Filled<'_>, rest: &'r [u8]) -> Option<&'r [u8]>
    ensures { passed result ≡ item_claimed (item_expected depth) (item_of x.entry) rest.now }
{
    let (_, left) = stands(x, item_depth(depth), rest)?;
    Some(left)
}

// The bytes after a space; none where there is none, as the definitions have it: where no byte is expected, none is missed.
#[tactic(auto, unfolding(clauses::specs::Entries::after))]
fn after_space(rest: &[u8]) -> &[u8]
    ensures { result.now ≡ after (skip " " rest.now) }
{
    word(rest, b" ").unwrap_or(&[])
}

// The first of a clause's literals that stand after a space each: what is left of them, and of the claim.
#[tactic(auto, unfolding(crate::specs::Claims::kept, crate::specs::Claims::item_expected))]
fn first_kept<'a, 'r>(
    depth: u8,
    literals: Filled<'a>,
    rest: &'r [u8],
) -> Option<(&'a [u8], &'r [u8])>
    ensures { compared result ≡ kept depth (item_of literals.entry) rest.now }
{
    let literal = literals.beside(word(literals.item, b" ")?);
    stands(literal, item_depth(depth), after_space(rest))
}

// What the claim keeps of a parent: of so many literals of its clause all but one.
#[derive(Clone, Copy, Debug, PartialEq, Eq)]
pub struct Kept<'a> {
    pub clause: Filled<'a>,
    pub literals: usize,
    pub dropped: usize,
}

// What is kept of a clause, filled, each literal after a space.
#[tactic(auto, unfolding(crate::specs::Claims::others), using(clauses::proofs::Listing::after_word, crate::proofs::Others::others_steps))]
pub fn others<'r>(depth: u8, of: Kept<'_>, rest: &'r [u8]) -> Option<&'r [u8]>
    ensures value { passed result ≡ others depth of.entry.literals of.entry.dropped (item_of of.entry.clause) rest.now }
    ensures of_unchanged { (of.exit ≡ of.entry) × (rest.exit.now ≡ rest.entry.now) }
{
    let mut literals = begin(of.clause.item).unwrap_or(&[]);
    let mut left = rest;
    // Literals are told by their numbers, and no iterator gives them: where one ends is known when it was read.
    for n in 0..of.literals {
        if n != of.dropped {
            (literals, left) = first_kept(depth, of.clause.beside(literals), left)?;
        } else if n + 1 < of.literals {
            literals = pass(literals)?;
        }
    }
    Some(left)
}

// A literal of two terms: its head with the space in front, the terms, filled, and two closing brackets.
// Five parameters: its terms are of two clauses, and head and rest are bytes; a struct for two private calls would say no more.
#[tactic(auto, unfolding(crate::specs::Claims::linked))]
fn linked<'r>(
    depth: u8,
    head: &[u8],
    left: Filled<'_>,
    right: Filled<'_>,
    rest: &'r [u8],
) -> Option<&'r [u8]>
    ensures { passed result ≡ linked depth head.now (item_of left.entry) (item_of right.entry) rest.now }
{
    let first = filled(depth, left, word(rest, head)?)?;
    let second = filled(depth, right, word(first, b" ")?)?;
    word(second, b"))")
}

// + sub(T,T), T the list's first term.
#[tactic(auto, unfolding(crate::specs::Claims::reflexive))]
pub fn reflexive<'r>(depth: u8, entries: Option<&[&[u8]]>, rest: &'r [u8]) -> Option<&'r [u8]>
    ensures value { passed result ≡ reflexive depth (entries_of entries.entry) rest.now }
    ensures rest_unchanged { (entries_of entries.exit ≡ entries_of entries.entry) × (rest.exit.now ≡ rest.entry.now) }
{
    let first = Filled {
        item: b"(v 0)",
        entries,
    };
    linked(depth, b" (+ (sub ", first, first, rest)
}

// + eq of two terms.
#[tactic(auto, unfolding(crate::specs::Claims::equated))]
pub fn equated<'r>(
    depth: u8,
    left: Filled<'_>,
    right: Filled<'_>,
    rest: &'r [u8],
) -> Option<&'r [u8]>
    ensures value { passed result ≡ equated depth (item_of left.entry) (item_of right.entry) rest.now }
    ensures left_unchanged { (item_of left.exit ≡ item_of left.entry) × (item_of right.exit ≡ item_of right.entry) }
    ensures rest_unchanged { rest.exit.now ≡ rest.entry.now }
{
    linked(depth, b" (+ (eq ", left, right, rest)
}

// A literal with a term of another clause in place of one of its own.
#[tactic(auto, unfolding(crate::specs::Claims::rewritten, crate::specs::Claims::in_claim))]
pub fn rewritten<'r>(
    depth: u8,
    literal: Filled<'_>,
    replaced: Replaced<'_>,
    rest: &'r [u8],
) -> Option<&'r [u8]>
    ensures value { passed result ≡ rewritten depth (item_of literal.entry) replaced.entry.hole (item_of replaced.entry.new) rest.now }
    ensures literal_unchanged { (item_of literal.exit ≡ item_of literal.entry) × (replaced.exit ≡ replaced.entry) }
    ensures rest_unchanged { rest.exit.now ≡ rest.entry.now }
{
    let filling = Filling {
        entries: literal.listed(),
        replaced: Some(replaced),
    };
    let (_, left) = expect(&filling, literal.item, hole_depth(depth), after_space(rest))?;
    Some(left)
}

// The word of an arrow.
#[tactic(auto, unfolding(crate::specs::Claims::arrow_claimed))]
fn arrow_word(arrow: Arrow, rest: &[u8]) -> Option<&[u8]>
    ensures { passed result ≡ arrow_claimed arrow rest.now }
{
    match arrow {
        Arrow::Sv => word(rest, b"sv"),
        Arrow::Si => word(rest, b"si"),
        Arrow::Mv => word(rest, b"mv"),
        Arrow::Mi => word(rest, b"mi"),
        Arrow::St => word(rest, b"st"),
        Arrow::Mt => word(rest, b"mt"),
    }
}

// An item, filled, and a space after it in its clause and in the claim: the item that stands next in its clause, and what is left. Where the
// item ends is known when it was compared.
#[tactic(auto, unfolding(crate::specs::Claims::spaced, crate::specs::Claims::item_expected))]
fn spaced<'a, 'r>(depth: u8, x: Filled<'a>, rest: &'r [u8]) -> Option<(Filled<'a>, &'r [u8])>
    ensures { went_on result ≡ spaced (item_expected depth) (item_of x.entry) rest.now }
{
    let (more, left) = stands(x, item_depth(depth), rest)?;
    let after = word(more, b" ")?;
    Some((x.beside(after), word(left, b" ")?))
}

// A result, filled, or the word none.
#[tactic(auto, unfolding(crate::specs::Claims::result_claimed, text::specs::Access::stood))]
fn result<'r>(depth: u8, x: Filled<'_>, rest: &'r [u8]) -> Option<&'r [u8]>
    ensures { passed result ≡ result_claimed (item_expected depth) (item_of x.entry) rest.now }
{
    match word(x.item, b"none") {
        Some(_) => word(rest, b"none"),
        None => filled(depth, x, rest),
    }
}

// M (T ...) R), a part from its method on, filled.
#[tactic(auto, unfolding(crate::specs::Claims::said_claimed))]
fn said<'r>(depth: u8, method: Filled<'_>, rest: &'r [u8]) -> Option<&'r [u8]>
    ensures { passed result ≡ said_claimed (item_expected depth) (item_of method.entry) rest.now }
{
    let (arguments, left) = spaced(depth, method, rest)?;
    let (end, left) = spaced(depth, arguments, left)?;
    word(result(depth, end, left)?, b")")
}

// A part of a molecule after a space, filled. The item is any of its clause.
#[tactic(auto, unfolding(crate::specs::Claims::part_claimed))]
fn part<'r>(depth: u8, of: Filled<'_>, part: Part<'_>, rest: &'r [u8]) -> Option<&'r [u8]>
    ensures { passed result ≡ part_claimed (item_expected depth) (item_of of.entry) (shown part.entry) rest.now }
{
    let left = arrow_word(part.arrow, word(rest, b" (")?)?;
    said(depth, of.beside(part.method), word(left, b" ")?)
}

// The parts of a molecule, each after a space, filled. The item is any of their clause.
fn all_parts<'r>(depth: u8, of: Filled<'_>, parts: &[Part<'_>], rest: &'r [u8]) -> Option<&'r [u8]>
    ensures { passed result ≡ parts_claimed (item_expected depth) (item_of of.entry) (all_shown parts.entry.now) rest.now }
{
    let mut left = rest;
    for shown in parts {
        left = part(depth, of, *shown, left)?;
    }
    Some(left)
}

// The object of an arrow atom or a molecule, filled.
#[tactic(auto, unfolding(crate::specs::Claims::object_claimed))]
fn said_object<'r>(depth: u8, atom: Filled<'_>, rest: &'r [u8]) -> Option<&'r [u8]>
    ensures { passed result ≡ object_claimed (item_expected depth) (item_of atom.entry) (object_of (item_of atom.entry).bytes) rest.now }
{
    filled(depth, atom.beside(object(atom.item)?), rest)
}

// + the molecule of the first atom's object, its parts, then the other's.
#[tactic(auto, unfolding(crate::specs::Claims::merged))]
pub fn merged<'r>(
    depth: u8,
    atom: Filled<'_>,
    other: Filled<'_>,
    rest: &'r [u8],
) -> Option<&'r [u8]>
    ensures value { passed result ≡ merged (item_expected depth) (item_expected depth) (item_of atom.entry) (item_of other.entry) rest.now }
    ensures atom_unchanged { (item_of atom.exit ≡ item_of atom.entry) × (item_of other.exit ≡ item_of other.entry) }
    ensures rest_unchanged { rest.exit.now ≡ rest.entry.now }
{
    let mut first = [Part::NONE; PARTS];
    let mut second = [Part::NONE; PARTS];
    let left = said_object(depth, atom, word(rest, b" (+ (mol ")?)?;
    let left = all_parts(depth, atom, parts(atom.item, &mut first), left)?;
    let left = all_parts(depth, other, parts(other.item, &mut second), left)?;
    word(left, b"))")
}

// + the arrow atom of an object and a part of its molecule.
#[tactic(auto, unfolding(crate::specs::Claims::projected))]
pub fn projected<'r>(
    depth: u8,
    object: Filled<'_>,
    part: Part<'_>,
    rest: &'r [u8],
) -> Option<&'r [u8]>
    ensures value { passed result ≡ projected (item_expected depth) (item_of object.entry) (shown part.entry) rest.now }
    ensures object_unchanged { (item_of object.exit ≡ item_of object.entry) × (shown part.exit ≡ shown part.entry) }
    ensures rest_unchanged { rest.exit.now ≡ rest.entry.now }
{
    let left = arrow_word(part.arrow, word(rest, b" (+ (")?)?;
    let left = filled(depth, object, word(left, b" ")?)?;
    let left = said(depth, object.beside(part.method), word(left, b" ")?)?;
    word(left, b")")
}
