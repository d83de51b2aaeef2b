// Checks 9 and 10: the rule table, over what stands in the clauses from the literals at I and J on.
#![tactic(auto)]

ghost use Rattle.std.specs.Prelude.{◌≡◌};
ghost use Rattle.text.specs.Answers.{passed};
ghost use Rattle.rule_table.specs.Rows.{row_of, term_at, at_found, found_of, found_by, agrees_by};
ghost use Rattle.rule_table.specs.Rows.{resolved, factored, replaced, crossed, called, denying, joined, projected};
ghost use Rattle.filling.specs.Items.{item_of};

use agreement::agree::Pair;
use clauses::access::occurrence;
use clauses::parts::{Part, molecule, object, part_at};
use clauses::shapes::{
    argument, atom, denied, link, negative, next, positive, same_arrow, same_sign, scalar,
    signature, value,
};
use logic::{Link, Rule};
use rule_numbers::row;

// The term of the literal at I that a rewriting rule replaces: occurrence K, the second term of sub or mem, or the object, argument K or
// the term result of a signature.
#[derive(Clone, Copy, Debug, PartialEq, Eq)]
pub enum Target {
    Occurrence,
    Subclass,
    Member,
    Object,
    Argument,
    Result,
}

// What a rewriting rule asks: the term of the literal at I, and a link at J. Forward, the term agrees with the link's first term and the
// second takes its place; otherwise the other way round: a flag, for a direction has no value beside it.
#[derive(Clone, Copy, Debug, PartialEq, Eq)]
pub struct Rewriting {
    pub target: Target,
    pub link: Link,
    pub forward: bool,
}

// A row of the rule table: what a rule asks of its literals.
#[derive(Clone, Copy, Debug, PartialEq, Eq)]
pub enum Row {
    Reflexivity,
    Resolution,
    Factoring,
    Rewriting(Rewriting),
    Acyclicity,
    Scalarity,
    Elimination,
    Merging,
    Projection,
}

const ROWS: &[Row; 14] = &[
    Row::Reflexivity,
    Row::Resolution,
    Row::Factoring,
    Row::Rewriting(Rewriting {
        target: Target::Occurrence,
        link: Link::Eq,
        forward: true,
    }),
    Row::Acyclicity,
    Row::Rewriting(Rewriting {
        target: Target::Subclass,
        link: Link::Sub,
        forward: true,
    }),
    Row::Rewriting(Rewriting {
        target: Target::Member,
        link: Link::Sub,
        forward: true,
    }),
    Row::Rewriting(Rewriting {
        target: Target::Object,
        link: Link::Sub,
        forward: false,
    }),
    Row::Rewriting(Rewriting {
        target: Target::Argument,
        link: Link::Sub,
        forward: false,
    }),
    Row::Rewriting(Rewriting {
        target: Target::Result,
        link: Link::Sub,
        forward: true,
    }),
    Row::Scalarity,
    Row::Elimination,
    Row::Merging,
    Row::Projection,
];

// The rule's row.
#[tactic(auto, using(rule_numbers::proofs::Flags::carried))]
pub fn table_row(rule: Rule) -> Row
    ensures { result ≡ row_of rule }
{
    ROWS[row(rule)]
}

// What a step names in its parents, each term or atom by the bytes from where it begins: what has to agree, and what the new literal is
// made of.
#[derive(Clone, Copy, Debug, PartialEq, Eq)]
pub enum Found<'a> {
    // refl: no term has to agree.
    Nothing,
    // res, fac: the atom on the left has to fit into the one on the right.
    Fitting {
        left: &'a [u8],
        right: &'a [u8],
    },
    // par, tra, inc, inh, inp, out: a term of the literal at I, the side of the link at J that it agrees with, and the other side.
    Rewriting {
        literal: &'a [u8],
        term: &'a [u8],
        side: &'a [u8],
        other: &'a [u8],
    },
    // acy: P and Q of the one link, P' and Q' of the other.
    Crossing {
        left: &'a [u8],
        more: &'a [u8],
        right: &'a [u8],
        other: &'a [u8],
    },
    // sca: whether the arrows are the same, and object and result of the one atom, of the other. A flag, since arrows that differ are a
    // failed agreement (10) and no other shape (9): a variant of their own would ask for a new literal that no step reaches.
    Calling {
        same_arrow: bool,
        left: &'a [u8],
        value: &'a [u8],
        right: &'a [u8],
        other: &'a [u8],
    },
    // eli: no term has to agree.
    Denied,
    // mer: the two atoms, and their objects.
    Merging {
        left: &'a [u8],
        object: &'a [u8],
        right: &'a [u8],
        other: &'a [u8],
    },
    // pro: the object of the molecule, and the part.
    Projecting {
        object: &'a [u8],
        part: Part<'a>,
    },
}

// The term of the literal that a rewriting rule replaces.
#[tactic(auto, unfolding(crate::specs::Rows::term_at))]
fn term(target: Target, k: usize, literal: &[u8]) -> Option<&[u8]>
    ensures { passed result ≡ term_at target k literal.now }
{
    match target {
        Target::Occurrence => occurrence(literal, k),
        Target::Subclass => next(link(literal, Link::Sub)?),
        Target::Member => next(link(literal, Link::Mem)?),
        Target::Object => signature(literal),
        Target::Argument => argument(signature(literal)?, k),
        Target::Result => value(signature(literal)?),
    }
}

// res: - L at I, + L' at J. Here and below x and y are what stands from the literals at I and J on, told apart by their order alone: a
// struct would say no more.
#[tactic(auto, unfolding(crate::specs::Rows::resolved, crate::specs::Rows::behind))]
fn resolution<'a>(x: &'a [u8], y: &'a [u8]) -> Option<Found<'a>>
    ensures { found_of result ≡ resolved x.now y.now }
{
    Some(Found::Fitting {
        left: negative(x)?,
        right: positive(y)?,
    })
}

// fac: I, J differ, same sign. Both literals are of one clause, which ends with both.
#[tactic(auto, unfolding(crate::specs::Rows::factored, crate::specs::Rows::behind))]
fn factoring<'a>(x: &'a [u8], y: &'a [u8]) -> Option<Found<'a>>
    ensures { found_of result ≡ factored x.now y.now }
{
    if x.len() == y.len() || !same_sign(x, y) {
        return None;
    }
    Some(Found::Fitting {
        left: atom(x)?,
        right: atom(y)?,
    })
}

// par, tra, inc, inh, inp and out: a term of the literal at I, and a link at J, whose other side takes the term's place.
#[tactic(auto, unfolding(crate::specs::Rows::replaced, crate::specs::Rows::behind))]
fn replacement<'a>(asked: Rewriting, k: usize, x: &'a [u8], y: &'a [u8]) -> Option<Found<'a>>
    ensures { found_of result ≡ replaced asked k x.now y.now }
{
    let term = term(asked.target, k, x)?;
    let first = link(y, asked.link)?;
    let second = next(first)?;
    let (side, other) = if asked.forward {
        (first, second)
    } else {
        (second, first)
    };
    Some(Found::Rewriting {
        literal: x,
        term,
        side,
        other,
    })
}

// acy: + sub(P,Q), + sub(Q',P').
#[tactic(auto, unfolding(crate::specs::Rows::crossed, crate::specs::Rows::behind))]
fn acyclicity<'a>(x: &'a [u8], y: &'a [u8]) -> Option<Found<'a>>
    ensures { found_of result ≡ crossed x.now y.now }
{
    let left = link(x, Link::Sub)?;
    let more = next(left)?;
    let other = link(y, Link::Sub)?;
    let right = next(other)?;
    Some(Found::Crossing {
        left,
        more,
        right,
        other,
    })
}

// sca: two + sv or si atoms: their objects and their results.
#[tactic(auto, unfolding(crate::specs::Rows::called, crate::specs::Rows::behind))]
fn scalarity<'a>(x: &'a [u8], y: &'a [u8]) -> Option<Found<'a>>
    ensures { found_of result ≡ called x.now y.now }
{
    let left = scalar(x)?;
    let right = scalar(y)?;
    Some(Found::Calling {
        same_arrow: same_arrow(x, y),
        left,
        value: value(left)?,
        right,
        other: value(right)?,
    })
}

// eli: - obj(P) at I.
#[tactic(auto, unfolding(crate::specs::Rows::denying, crate::specs::Rows::behind))]
fn elimination<'a>(x: &'a [u8]) -> Option<Found<'a>>
    ensures { found_of result ≡ denying x.now }
{
    denied(x)?;
    Some(Found::Denied)
}

// mer: two + arrow atoms or molecules.
#[tactic(auto, unfolding(crate::specs::Rows::joined, crate::specs::Rows::behind))]
fn merging<'a>(x: &'a [u8], y: &'a [u8]) -> Option<Found<'a>>
    ensures { found_of result ≡ joined x.now y.now }
{
    let left = positive(x)?;
    let right = positive(y)?;
    Some(Found::Merging {
        left,
        object: object(left)?,
        right,
        other: object(right)?,
    })
}

// pro: a + molecule at I, and its part K.
#[tactic(auto, unfolding(crate::specs::Rows::projected, crate::specs::Rows::behind, crate::specs::Rows::with_part))]
fn projection<'a>(k: usize, x: &'a [u8]) -> Option<Found<'a>>
    ensures { found_of result ≡ projected k x.now }
{
    let object = molecule(positive(x)?)?;
    let part = part_at(object, k)?;
    Some(Found::Projecting { object, part })
}

// The second column: what the shape names in the literals at I and J, where there are such; x and y are what stands from there on.
#[tactic(auto, unfolding(crate::specs::Rows::found_by, crate::specs::Rows::behind))]
pub fn find<'a>(row: Row, k: usize, x: Option<&'a [u8]>, y: Option<&'a [u8]>) -> Option<Found<'a>>
    ensures value { found_of result ≡ found_by row k (passed x.entry) (passed y.entry) }
    ensures x_unchanged { (passed x.exit ≡ passed x.entry) × (passed y.exit ≡ passed y.entry) }
{
    match row {
        Row::Reflexivity => Some(Found::Nothing),
        Row::Resolution => resolution(x?, y?),
        Row::Factoring => factoring(x?, y?),
        Row::Rewriting(asked) => replacement(asked, k, x?, y?),
        Row::Acyclicity => acyclicity(x?, y?),
        Row::Scalarity => scalarity(x?, y?),
        Row::Elimination => elimination(x?),
        Row::Merging => merging(x?, y?),
        Row::Projection => projection(k, x?),
    }
}

impl<'a> Found<'a> {
    // The third column: the agreement of what was found in the clauses of the pair, filled.
    #[tactic(auto, unfolding(crate::specs::Rows::agrees_by))]
    pub fn agrees(&self, pair: Pair<'a>) -> bool
        ensures value { result ≡ agrees_by pair.entry.depth (item_of pair.entry.a) (item_of pair.entry.b) (at_found self.now) }
        ensures self_unchanged { self.exit.now ≡ self.entry.now }
        ensures pair_unchanged { (item_of pair.exit.a ≡ item_of pair.entry.a) × (item_of pair.exit.b ≡ item_of pair.entry.b) }
    {
        match *self {
            Found::Nothing | Found::Denied | Found::Projecting { .. } => true,
            Found::Fitting { left, right } => pair.beside(left, right).fits(),
            Found::Rewriting { term, side, .. } => pair.beside(term, side).agree(),
            Found::Crossing {
                left,
                more,
                right,
                other,
            } => pair.beside(left, right).agree() && pair.beside(more, other).agree(),
            Found::Calling {
                same_arrow,
                left,
                right,
                ..
            } => same_arrow && pair.beside(left, right).calls(),
            Found::Merging { object, other, .. } => pair.beside(object, other).agree(),
        }
    }
}
