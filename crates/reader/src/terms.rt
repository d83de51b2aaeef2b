// Terms, and lists of terms up to a closing bracket.
ghost use Rattle.std.specs.Prelude.{◌≡◌, ◌+◌, ◌≤◌, ◌<◌, ◌^◌, length, IfSome};
ghost use Rattle.logic.specs.Syntax.{app};
ghost use Rattle.text.specs.Read.{and_then, return, read_variable, read_applied, read_term, read_terms};
ghost use Rattle.text.specs.Answers.{parsed, mapped};
ghost use Rattle.reader.specs.Summary.{of_term, bounds, terms_measure};

use crate::context::Context;
use crate::measures::{Bounds, Measure};
use scan::numbers::number;
use scan::words::word;

impl<'t> Context<'t> {
    // N) after the word v: variable N. Inlined, as what reads a term is: a call would leave in memory what is read of every term.
    #[inline(always)]
    #[tactic(auto, unfolding(text::specs::Read::read_variable, crate::specs::Summary::of_term))]
    fn variable<'s>(self, s: &'s [u8]) -> Option<(Bounds, &'s [u8])>
        ensures { parsed result ≡ mapped (of_term (bounds self.entry.table.now)) (read_variable s.now) }
    {
        let (n, s) = number(s)?;
        let s = word(s, b")")?;
        Some((Bounds::below(n + 1), s))
    }

    // A term. Its heads are patterns, told apart by their second byte, where `word` would compare each as a whole (docs/DESIGN-PASS.md).
    #[inline(always)]
    #[cycle(terms)]
    #[tactic(auto, unfolding(text::specs::Read::read_term, text::specs::Read::one_of, text::specs::Read::strip))]
    pub fn term<'s>(self, s: &'s [u8]) -> Option<(Bounds, &'s [u8])>
        ensures { parsed result ≡ mapped (of_term (bounds self.entry.table.now)) (read_term self.entry.depth s.now) }
    {
        let inner = self.deeper()?;
        match s {
            [b'(', b'f', b' ', s @ ..] => inner.applied(s),
            [b'(', b'v', b' ', s @ ..] => self.variable(s),
            _ => None,
        }
    }

    // N TERM ...) after the word f: symbol N applied to the terms, which are mostly none.
    #[inline(always)]
    #[cycle(terms)]
    #[tactic(auto, using(crate::proofs::Lists::constant), unfolding(text::specs::Read::read_applied, crate::specs::Summary::of_term))]
    fn applied<'s>(self, s: &'s [u8]) -> Option<(Bounds, &'s [u8])>
        ensures { parsed result ≡ mapped (of_term (bounds self.entry.table.now)) (read_applied (read_term self.entry.depth) s.now) }
    {
        let (f, s) = number(s)?;
        if let Some(s) = word(s, b")") {
            return Some((Bounds::symbol(f, self.declares(f, 0)), s));
        }
        self.compound(f, s)
    }

    // TERM ...) after the number of a symbol, each term after one space. By itself, though inlined: the room for what comes back from `terms` is
    // made ready where its function begins, to which a constant does not come.
    #[inline(always)]
    #[cycle(terms)]
    #[tactic(auto, unfolding(crate::specs::Summary::of_term))]
    fn compound<'s>(self, f: usize, s: &'s [u8]) -> Option<(Bounds, &'s [u8])>
        requires { f + 1 < 2 ^ 64 }
        ensures { parsed result ≡ mapped (of_term (bounds self.entry.table.now)) (and_then (read_terms (read_term self.entry.depth) s.now) (λ ts. return (app f ts))) }
    {
        let (parts, s) = self.terms(s)?;
        let symbol = Bounds::symbol(f, self.declares(f, parts.count));
        Some((symbol.join(parts.bounds), s))
    }

    // Terms, each after one space, up to the closing bracket.
    #[cycle(terms)]
    pub fn terms<'s>(self, s: &'s [u8]) -> Option<(Measure, &'s [u8])>
        ensures value { parsed result ≡ mapped (terms_measure self.entry.table.now) (read_terms (read_term self.entry.depth) s.now) }
        ensures few { IfSome result (λ read. read.0.count + length read.1.now ≤ length s.now) }
    {
        self.many(s, Context::term)
    }
}
