// Whether filled items agree.
ghost use Rattle.std.specs.Prelude.{◌≡◌};
ghost use Rattle.text.specs.Answers.{passed};
ghost use Rattle.clauses.specs.Shapes.{next as next_of};
ghost use Rattle.filling.specs.Items.{item_of, beside};
ghost use Rattle.clauses.specs.Parts.{shown, all_shown};
ghost use Rattle.agreement.specs.Agrees.{Finds, agrees, onward, parts_agree, calls_agree, has_none, is_bare, is_covered, is_none};
ghost use Rattle.agreement.specs.Agrees.{result_covered, arguments_covered, is_item, no_result, whole, part_covered_by, part_covered, each_covered, parts_fit, is_fitting};

use crate::same::Lists;
use clauses::parts::{PARTS, Part, molecule, object, parts};
use clauses::shapes::{next, result};
use filling::compare::{Filled, item_depth, stands};
use scan::words::word;

// Whether the result of an arrow atom, from its object on, is none.
#[tactic(auto, unfolding(crate::specs::Agrees::has_none, text::specs::Access::stood))]
fn has_none(object: &[u8]) -> bool
    ensures { result ≡ has_none object.now }
{
    result(object).is_some_and(|end| word(end, b"none").is_some())
}

// Whether the word none stands here.
#[tactic(auto, unfolding(crate::specs::Agrees::is_none, text::specs::Access::stood))]
fn none(s: &[u8]) -> bool
    ensures { result ≡ is_none s.now }
{
    word(s, b"none").is_some()
}

// Whether an item begins here.
#[tactic(auto, unfolding(crate::specs::Agrees::is_item, text::specs::Access::stood))]
fn item(s: &[u8]) -> bool
    ensures { result ≡ is_item s.now }
{
    word(s, b"(").is_some()
}

// Whether the result of a part, from its method on, is none.
#[tactic(auto, unfolding(crate::specs::Agrees::no_result, crate::specs::Agrees::is_none, text::specs::Access::stood))]
fn no_result(method: &[u8]) -> bool
    ensures { result ≡ no_result method.now }
{
    next(method).and_then(next).is_some_and(none)
}

// A part with brackets of its own and a term for its result, which its equal alone covers.
#[tactic(auto, unfolding(crate::specs::Agrees::whole))]
fn whole(part: Part<'_>) -> bool
    ensures { result ≡ whole (shown part.entry) }
{
    item(part.item) && !no_result(part.method)
}

// Two items, each of a clause that is filled. Terms nest at most `depth` deep.
#[derive(Clone, Copy, Debug, PartialEq, Eq)]
pub struct Pair<'a> {
    pub depth: u8,
    pub a: Filled<'a>,
    pub b: Filled<'a>,
}

impl<'a> Pair<'a> {
    // Other items of the same two clauses, in their order: a struct of two would say no more.
    pub fn beside(self, a: &'a [u8], b: &'a [u8]) -> Self
        ensures depth { result.depth ≡ self.entry.depth }
        ensures items { (item_of result.a ≡ beside (item_of self.entry.a) a.now)
            × (item_of result.b ≡ beside (item_of self.entry.b) b.now) }
        ensures self_unchanged { (item_of self.exit.a ≡ item_of self.entry.a) × (item_of self.exit.b ≡ item_of self.entry.b) }
        ensures a_unchanged { (a.exit.now ≡ a.entry.now) × (b.exit.now ≡ b.entry.now) }
    {
        Pair {
            depth: self.depth,
            a: self.a.beside(a),
            b: self.b.beside(b),
        }
    }

    // The same, if there are both.
    #[tactic(auto, unfolding(crate::specs::Agrees::further))]
    fn further(self, a: Option<&'a [u8]>, b: Option<&'a [u8]>) -> Option<Self>
        ensures { Finds self.entry (passed a.entry) (passed b.entry) result }
    {
        Some(self.beside(a?, b?))
    }

    // The items after these two.
    fn next(self) -> Option<Self>
        ensures { Finds self.entry (next_of self.entry.a.item.now) (next_of self.entry.b.item.now) result }
    {
        self.further(next(self.a.item), next(self.b.item))
    }

    // The items after these two; no bytes where none stands there, as the definitions have it.
    #[tactic(auto, unfolding(crate::specs::Agrees::onward, clauses::specs::Entries::after))]
    fn onward(self) -> Self
        ensures depth { result.depth ≡ self.entry.depth }
        ensures items { (item_of result.a ≡ onward (item_of self.entry.a)) × (item_of result.b ≡ onward (item_of self.entry.b)) }
    {
        self.beside(
            next(self.a.item).unwrap_or(&[]),
            next(self.b.item).unwrap_or(&[]),
        )
    }

    // The two items are the same.
    #[tactic(auto, unfolding(crate::specs::Agrees::agrees_by, crate::specs::Agrees::met, filling::specs::Items::filled_in))]
    pub fn agree(self) -> bool
        ensures value { result ≡ agrees self.entry.depth (item_of self.entry.a) (item_of self.entry.b) }
        ensures self_unchanged { (item_of self.exit.a ≡ item_of self.entry.a) × (item_of self.exit.b ≡ item_of self.entry.b) }
    {
        let Pair { depth, a, b } = self;
        let deep = item_depth(depth);
        match (a.entries, b.entries) {
            (_, None) => stands(a, deep, b.item).is_some(),
            (None, _) => stands(b, deep, a.item).is_some(),
            (Some(first), Some(second)) => {
                let lists = Lists { first, second };
                lists.same(a.item, b.item, deep).is_some()
            }
        }
    }

    // Parts of arrow atoms, from their methods on, have the same method and arguments.
    // `calls` is this with one item more; a loop that counts to three would be no plainer, since it says less than two names.
    #[tactic(auto, unfolding(crate::specs::Agrees::parts_agree))]
    fn parts(self) -> bool
        ensures { result ≡ parts_agree self.entry.depth (item_of self.entry.a) (item_of self.entry.b) }
    {
        self.agree() && self.onward().agree()
    }

    // Arrow atoms, from their objects on, are alike but for their results.
    #[tactic(auto, unfolding(crate::specs::Agrees::calls_agree))]
    pub fn calls(self) -> bool
        ensures value { result ≡ calls_agree self.entry.depth (item_of self.entry.a) (item_of self.entry.b) }
        ensures self_unchanged { (item_of self.exit.a ≡ item_of self.entry.a) × (item_of self.exit.b ≡ item_of self.entry.b) }
    {
        self.agree() && self.onward().parts()
    }

    // The first atom has none and is otherwise the second.
    #[tactic(auto, unfolding(crate::specs::Agrees::is_bare))]
    fn bare(self) -> bool
        ensures { result ≡ is_bare self.entry.depth (item_of self.entry.a) (item_of self.entry.b) }
    {
        let head = &self.a.item[..self.a.item.len().min(4)];
        self.further(word(self.a.item, head), word(self.b.item, head))
            .is_some_and(|pair| has_none(pair.a.item) && pair.calls())
    }

    // The second atom covers the first.
    #[tactic(auto, unfolding(crate::specs::Agrees::is_covered))]
    fn covers(self) -> bool
        ensures { result ≡ is_covered self.entry.depth (item_of self.entry.a) (item_of self.entry.b) }
    {
        self.agree() || self.bare()
    }

    // From the results on: the first is none, or both are terms and the same.
    #[tactic(auto, unfolding(crate::specs::Agrees::result_covered, crate::specs::Agrees::is_none, text::specs::Access::stood))]
    fn result_covered(self) -> bool
        ensures { result ≡ result_covered (agrees self.entry.depth) (item_of self.entry.a) (item_of self.entry.b) }
    {
        none(self.a.item) || (!none(self.b.item) && self.agree())
    }

    // From the arguments on.
    #[tactic(auto, unfolding(crate::specs::Agrees::arguments_covered))]
    fn arguments_covered(self) -> bool
        ensures { result ≡ arguments_covered (agrees self.entry.depth) (item_of self.entry.a) (item_of self.entry.b) }
    {
        self.agree() && self.next().is_some_and(Pair::result_covered)
    }

    // The second part covers the first, which is compared as a whole or not.
    #[tactic(auto, unfolding(crate::specs::Agrees::part_covered_by, crate::specs::Agrees::same_arrow))]
    fn part_covered(self, whole: bool, part: Part<'a>, other: Part<'a>) -> bool
        ensures { result ≡ part_covered_by whole (agrees self.entry.depth) (item_of self.entry.a) (item_of self.entry.b) (shown part.entry) (shown other.entry) }
    {
        let methods = self.beside(part.method, other.method);
        if part.arrow != other.arrow || !methods.agree() {
            return false;
        }
        if whole && item(other.item) {
            return self.beside(part.item, other.item).agree();
        }
        methods.next().is_some_and(Pair::arguments_covered)
    }

    // Each of the parts is covered by some of the others.
    fn each_covered(self, parts: &[Part<'a>], others: &[Part<'a>]) -> bool
        ensures { result ≡ each_covered (part_covered (agrees self.entry.depth) (item_of self.entry.a) (item_of self.entry.b)) (all_shown parts.entry.now) (all_shown others.entry.now) }
    {
        let mut covered = true;
        'parts: for part in parts {
            let whole = whole(*part);
            let mut n = 0;
            loop {
                let Some(other) = others.get(n) else {
                    covered = false;
                    break 'parts;
                };
                if self.part_covered(whole, *part, *other) {
                    break;
                }
                n += 1;
            }
        }
        covered
    }

    // Atoms of which one is a molecule: the first fits into the second.
    #[tactic(auto, unfolding(crate::specs::Agrees::parts_fit))]
    fn parts_fit(self) -> bool
        ensures { result ≡ parts_fit (agrees self.entry.depth) (item_of self.entry.a) (item_of self.entry.b) }
    {
        let mut first = [Part::NONE; PARTS];
        let mut second = [Part::NONE; PARTS];
        self.further(object(self.a.item), object(self.b.item))
            .is_some_and(Pair::agree)
            && self.each_covered(
                parts(self.a.item, &mut first),
                parts(self.b.item, &mut second),
            )
    }

    // The first atom fits into the second. Where neither is a molecule, the second covers it.
    #[tactic(auto, unfolding(crate::specs::Agrees::is_fitting, text::specs::Access::stood))]
    pub fn fits(self) -> bool
        ensures value { result ≡ is_fitting self.entry.depth (item_of self.entry.a) (item_of self.entry.b) }
        ensures self_unchanged { (item_of self.exit.a ≡ item_of self.entry.a) × (item_of self.exit.b ≡ item_of self.entry.b) }
    {
        if molecule(self.a.item).is_some() || molecule(self.b.item).is_some() {
            return self.parts_fit();
        }
        self.covers()
    }
}
