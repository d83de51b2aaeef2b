// Atoms and literals.
ghost use Rattle.std.specs.Prelude.{◌≡◌, [], ◌∷◌};
ghost use Rattle.logic.specs.declared.Link.{Link};
ghost use Rattle.logic.specs.Syntax.{may_be_none};
ghost use Rattle.text.specs.Read.{read_arguments, read_result, read_link, read_object, read_part, read_method, read_kind, read_atom};
ghost use Rattle.text.specs.Read.{read_many, read_bracketed, read_molecule, read_literal};
ghost use Rattle.text.specs.Answers.{parsed, mapped};
ghost use Rattle.reader.specs.Summary.{of_result, of_part, of_atom, of_literal, bounds, terms_measure, parts_measure};

use crate::context::Context;
use crate::measures::{Bounds, Measure};
use logic::{Arrow, Link, Sign};
use scan::tables::one_of;
use scan::words::word;

// Whether the result may be the word none: a question about four of the arrows, and no comparison that a derive gives.
#[tactic(auto, unfolding(logic::specs::Syntax::may_be_none))]
pub fn may_be_none(arrow: Arrow) -> bool
    ensures { result ≡ may_be_none arrow }
{
    matches!(arrow, Arrow::Mv | Arrow::Mi | Arrow::St | Arrow::Mt)
}

impl<'t> Context<'t> {
    // The arguments in brackets, perhaps none.
    #[tactic(auto, using(crate::proofs::Lists::of_lists), unfolding(text::specs::Read::read_arguments, text::specs::Read::one_of))]
    fn arguments<'s>(self, s: &'s [u8]) -> Option<(Measure, &'s [u8])>
        ensures { parsed result ≡ mapped (terms_measure self.entry.table.now) (read_arguments self.entry.depth s.now) }
    {
        if let Some(s) = word(s, b"()") {
            return Some((Measure::empty(), s));
        }
        let s = word(s, b"(")?;
        let (first, s) = self.term(s)?;
        let (others, s) = self.terms(s)?;
        let all = Measure {
            count: others.count + 1,
            bounds: first.join(others.bounds),
        };
        Some((all, s))
    }

    // The result: a term, or the word none. Here and below the bytes come with an arrow: what is read, and by what. A struct would be made
    // for one call.
    #[tactic(auto, using(crate::proofs::Results::term_result))]
    fn result<'s>(self, s: &'s [u8], arrow: Arrow) -> Option<(Bounds, &'s [u8])>
        ensures { parsed result ≡ mapped (of_result (bounds self.entry.table.now)) (read_result self.entry.depth arrow s.now) }
    {
        let Some(s) = word(s, b"none") else {
            return self.term(s);
        };
        may_be_none(arrow).then_some((Bounds::nothing(), s))
    }

    // T U) after the word eq, mem or sub.
    #[tactic(auto, unfolding(text::specs::Read::read_link, crate::specs::Summary::of_atom))]
    fn linked<'s>(self, s: &'s [u8]) -> Option<(Bounds, &'s [u8])>
        ensures { (l : Link) → parsed result ≡ mapped (of_atom (bounds self.entry.table.now)) (read_link self.entry.depth l s.now) }
    {
        let s = word(s, b" ")?;
        let (left, s) = self.term(s)?;
        let s = word(s, b" ")?;
        let (right, s) = self.term(s)?;
        let s = word(s, b")")?;
        Some((left.join(right), s))
    }

    // T) after the word obj.
    #[tactic(auto, unfolding(text::specs::Read::read_object, crate::specs::Summary::of_atom))]
    fn object<'s>(self, s: &'s [u8]) -> Option<(Bounds, &'s [u8])>
        ensures { parsed result ≡ mapped (of_atom (bounds self.entry.table.now)) (read_object self.entry.depth s.now) }
    {
        let s = word(s, b" ")?;
        let (object, s) = self.term(s)?;
        let s = word(s, b")")?;
        Some((object, s))
    }

    // M (T ...) R), a part from its method on.
    #[tactic(auto, unfolding(text::specs::Read::read_part, crate::specs::Summary::of_part, logic::specs::Terms::count))]
    fn part<'s>(self, s: &'s [u8], arrow: Arrow) -> Option<(Bounds, &'s [u8])>
        ensures { parsed result ≡ mapped (of_part (bounds self.entry.table.now)) (read_part self.entry.depth arrow s.now) }
    {
        let (method, s) = self.term(s)?;
        let s = word(s, b" ")?;
        let (arguments, s) = self.arguments(s)?;
        let s = word(s, b" ")?;
        let (result, s) = self.result(s, arrow)?;
        let s = word(s, b")")?;
        let terms = method.join(arguments.bounds.join(result));
        Some((Bounds::arity(arguments.count).join(terms), s))
    }

    // O M (T ...) R) after the arrow's word.
    #[tactic(auto, unfolding(text::specs::Read::read_method, crate::specs::Summary::of_atom))]
    fn method<'s>(self, s: &'s [u8], arrow: Arrow) -> Option<(Bounds, &'s [u8])>
        ensures { parsed result ≡ mapped (of_atom (bounds self.entry.table.now)) (read_method self.entry.depth arrow s.now) }
    {
        let s = word(s, b" ")?;
        let (object, s) = self.term(s)?;
        let s = word(s, b" ")?;
        let (part, s) = self.part(s, arrow)?;
        Some((object.join(part), s))
    }

    // T21, a PART of a molecule: (ARROW M (T ...) R).
    #[tactic(auto, unfolding(text::specs::Read::read_bracketed, text::specs::Read::read_arrow))]
    fn bracketed<'s>(self, s: &'s [u8]) -> Option<(Bounds, &'s [u8])>
        ensures { parsed result ≡ mapped (of_part (bounds self.entry.table.now)) (read_bracketed self.entry.depth s.now) }
    {
        let s = word(s, b"(")?;
        let (arrow, s) = one_of(s)?;
        let s = word(s, b" ")?;
        self.part(s, arrow)
    }

    // Parts of a molecule, each after one space, up to the closing bracket.
    fn parts<'s>(self, s: &'s [u8]) -> Option<(Measure, &'s [u8])>
        ensures { parsed result ≡ mapped (parts_measure self.entry.table.now) (read_many [] ◌∷◌ (read_bracketed self.entry.depth) s.now) }
    {
        self.many(s, Context::bracketed)
    }

    // T21, T PART PART ...) after the word mol: with fewer than two parts it isn't a form.
    #[tactic(auto, using(crate::proofs::Molecules::molecule_splits, crate::proofs::Molecules::molecule_reads))]
    fn molecule<'s>(self, s: &'s [u8]) -> Option<(Bounds, &'s [u8])>
        ensures { parsed result ≡ mapped (of_atom (bounds self.entry.table.now)) (read_molecule self.entry.depth s.now) }
    {
        let s = word(s, b" ")?;
        let (object, s) = self.term(s)?;
        let (parts, s) = self.parts(s)?;
        let terms = object.join(parts.bounds);
        (parts.count >= 2).then_some((Bounds::molecule(parts.count).join(terms), s))
    }

    // The word of an atom decides what follows it.
    #[tactic(auto, using(crate::proofs::AtomKinds::an_object, crate::proofs::AtomKinds::a_molecule, crate::proofs::AtomKinds::an_arrow, crate::proofs::AtomKinds::no_kind))]
    fn shape<'s>(self, s: &'s [u8]) -> Option<(Bounds, &'s [u8])>
        ensures { parsed result ≡ mapped (of_atom (bounds self.entry.table.now)) (read_kind self.entry.depth s.now) }
    {
        if let Some((_, s)) = one_of::<Link>(s) {
            return self.linked(s);
        }
        if let Some(s) = word(s, b"obj") {
            return self.object(s);
        }
        if let Some(s) = word(s, b"mol") {
            return self.molecule(s);
        }
        let (arrow, s) = one_of(s)?;
        self.method(s, arrow)
    }

    // An atom. It goes as `clause` and `list` do, a word and what stands behind it: two calls of other readers, with nothing to share.
    #[tactic(auto, unfolding(text::specs::Read::read_atom))]
    fn atom<'s>(self, s: &'s [u8]) -> Option<(Bounds, &'s [u8])>
        ensures { parsed result ≡ mapped (of_atom (bounds self.entry.table.now)) (read_atom self.entry.depth s.now) }
    {
        let s = word(s, b"(")?;
        self.shape(s)
    }

    // A literal: its sign, and its atom.
    #[tactic(auto, unfolding(text::specs::Read::read_literal, text::specs::Read::read_sign, crate::specs::Summary::of_literal))]
    pub fn literal<'s>(self, s: &'s [u8]) -> Option<(Bounds, &'s [u8])>
        ensures { parsed result ≡ mapped (of_literal (bounds self.entry.table.now)) (read_literal self.entry.depth s.now) }
    {
        let s = word(s, b"(")?;
        let (_, s) = one_of::<Sign>(s)?;
        let s = word(s, b" ")?;
        let (atom, s) = self.atom(s)?;
        let s = word(s, b")")?;
        Some((atom, s))
    }
}
