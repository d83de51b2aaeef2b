// Arrow atoms and molecules: their objects, and the parts that say something of them.
ghost use Rattle.std.specs.Prelude.{◌≡◌};
ghost use Rattle.text.specs.Answers.{parsed, passed};
ghost use Rattle.clauses.specs.Entries.{items};
ghost use Rattle.clauses.specs.Parts.{arrow_head, molecule, object_of, next_part, parts, part_at, all_shown, maybe_shown, seen};

use crate::access::skip;
use crate::items::item;
use crate::shapes::next;
use logic::Arrow;
use scan::tables::one_of;
use scan::words::word;

// The most parts that a molecule has.
pub const PARTS: usize = 16;

// A part of a molecule, or what an arrow atom says of its object: the arrow, and the bytes from the method on. The object stands between them
// in an arrow atom, and from the method on the bytes are the same in both. A molecule's part is an item: the bytes from its bracket on.
#[derive(Clone, Copy, Debug, PartialEq, Eq)]
pub struct Part<'a> {
    pub arrow: Arrow,
    pub method: &'a [u8],
    pub item: &'a [u8],
}

impl Part<'_> {
    pub const NONE: Part<'static> = Part {
        arrow: Arrow::Sv,
        method: &[],
        item: &[],
    };
}

// The arrow of an arrow atom or a part, and the bytes after its word.
#[tactic(auto, unfolding(crate::specs::Parts::arrow_head, text::specs::Read::read_arrow))]
fn arrow(s: &[u8]) -> Option<(Arrow, &[u8])>
    ensures { parsed result ≡ arrow_head s.now }
{
    let s = word(s, b"(")?;
    let (arrow, s) = one_of(s)?;
    Some((arrow, word(s, b" ")?))
}

// The object of a molecule.
#[tactic(auto, unfolding(crate::specs::Parts::molecule))]
pub fn molecule(atom: &[u8]) -> Option<&[u8]>
    ensures value { passed result ≡ molecule atom.now }
    ensures atom_unchanged { atom.exit.now ≡ atom.entry.now }
{
    word(atom, b"(mol ")
}

// The object of a molecule or an arrow atom.
#[tactic(auto, unfolding(crate::specs::Parts::object_of, crate::specs::Parts::arrow_object, crate::specs::Shapes::first_or))]
pub fn object(atom: &[u8]) -> Option<&[u8]>
    ensures value { passed result ≡ object_of atom.now }
    ensures atom_unchanged { atom.exit.now ≡ atom.entry.now }
{
    if let Some(object) = molecule(atom) {
        return Some(object);
    }
    let (_, object) = arrow(atom)?;
    Some(object)
}

// The next part of a molecule, after a space, and the bytes after it.
#[tactic(auto, unfolding(crate::specs::Parts::next_part))]
fn next_part(s: &[u8]) -> Option<(Part<'_>, &[u8])>
    ensures { seen result ≡ next_part s.now }
{
    let item = word(s, b" ")?;
    let (arrow, method) = arrow(item)?;
    Some((
        Part {
            arrow,
            method,
            item,
        },
        skip(item)?,
    ))
}

// The parts after a space each, put into `found`, which has room for all that a molecule may have.
#[tactic(auto, using(crate::proofs::Listing::parting))]
fn listed<'a, 'f>(s: &'a [u8], found: &'f mut [Part<'a>; PARTS]) -> &'f [Part<'a>]
    ensures { all_shown result.now ≡ items next_part 16 s.now }
{
    let mut rest = s;
    for (n, place) in found.iter_mut().enumerate() {
        let Some((part, after)) = next_part(rest) else {
            return &found[..n];
        };
        *place = part;
        rest = after;
    }
    found
}

// The parts of a molecule, the one of an arrow atom, none of another atom, put into `found`.
#[tactic(auto, unfolding(crate::specs::Parts::parts, crate::specs::Parts::parts_or, crate::specs::Parts::arrow_part, crate::specs::Parts::one_part), using(crate::proofs::Listing::after_word, crate::proofs::Listing::one_found))]
pub fn parts<'a, 'f>(atom: &'a [u8], found: &'f mut [Part<'a>; PARTS]) -> &'f [Part<'a>]
    ensures value { all_shown result.now ≡ parts atom.now }
    ensures atom_unchanged { atom.exit.now ≡ atom.entry.now }
{
    if let Some(object) = molecule(atom) {
        return listed(skip(object).unwrap_or(&[]), found);
    }
    let Some((arrow, object)) = arrow(atom) else {
        return &[];
    };
    let Some(method) = next(object) else {
        return &[];
    };
    found[0] = Part {
        arrow,
        method,
        item: &[],
    };
    &found[..1]
}

// Part k of a molecule, from its object on.
#[tactic(auto, unfolding(crate::specs::Parts::part_at, crate::specs::Parts::made_at, crate::specs::Parts::made))]
pub fn part_at(object: &[u8], k: usize) -> Option<Part<'_>>
    ensures value { maybe_shown result ≡ part_at k object.now }
    ensures object_unchanged { object.exit.now ≡ object.entry.now }
{
    let item = item(skip(object)?, k)?;
    let (arrow, method) = arrow(item)?;
    Some(Part {
        arrow,
        method,
        item,
    })
}
