// Clauses, and lists of terms after the word let.
ghost use Rattle.std.specs.Prelude.{◌≡◌, [], ◌∷◌};
ghost use Rattle.text.specs.Read.{read_many, read_literal, read_clause, read_let};
ghost use Rattle.text.specs.Answers.{parsed, mapped};
ghost use Rattle.reader.specs.Summary.{of_literal, bounds, terms_measure, clause_measure};

use crate::context::Context;
use crate::measures::Measure;
use scan::words::word;

impl<'t> Context<'t> {
    // Literals, each after one space, up to the closing bracket.
    fn literals<'s>(self, s: &'s [u8]) -> Option<(Measure, &'s [u8])>
        ensures { parsed result ≡ mapped (clause_measure self.entry.table.now) (read_many [] ◌∷◌ (read_literal self.entry.depth) s.now) }
    {
        self.many(s, Context::literal)
    }

    // A clause. It goes as `list` and `atom` do, a word and what stands behind it: two calls of other readers, with nothing to share.
    #[tactic(auto, unfolding(text::specs::Read::read_clause))]
    pub fn clause<'s>(self, s: &'s [u8]) -> Option<(Measure, &'s [u8])>
        ensures { parsed result ≡ mapped (clause_measure self.entry.table.now) (read_clause self.entry.depth s.now) }
    {
        let s = word(s, b"(or")?;
        self.literals(s)
    }

    // A list of terms after the word let. It goes as `clause` does, with nothing to share.
    #[tactic(auto, unfolding(text::specs::Read::read_let))]
    pub fn list<'s>(self, s: &'s [u8]) -> Option<(Measure, &'s [u8])>
        ensures { parsed result ≡ mapped (terms_measure self.entry.table.now) (read_let self.entry.depth s.now) }
    {
        let s = word(s, b"(let")?;
        self.terms(s)
    }
}
