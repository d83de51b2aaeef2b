// The tables of words of the text form.
ghost use Rattle.std.specs.Prelude.{◌≡◌, List};
ghost use Rattle.text.specs.Words.{sign_word, link_word, arrow_word, rule_word};
ghost use Rattle.text.specs.Read.{signs, links, arrow_table, rules, one_of, each, return};
ghost use Rattle.text.specs.Answers.{parsed};
ghost use Rattle.scan.specs.Tables.{Words, held, spelled};

use crate::words::word;
use logic::{Arrow, Link, Rule, Sign};

// The values of a table, each with a word of its own.
pub trait Named: Copy + 'static {
    ghost word_of: { Words Self };

    ghost all: { List Self };

    // The values and their words, in the order of the text form.
    fn table() -> &'static [(Self, &'static [u8])]
        ensures { held result.now ≡ spelled word_of all };
}

impl Named for Sign {
    ghost word_of = { sign_word };

    ghost all = { signs };

    fn table() -> &'static [(Self, &'static [u8])] {
        &[(Sign::Positive, b"+"), (Sign::Negative, b"-")]
    }
}

impl Named for Link {
    ghost word_of = { link_word };

    ghost all = { links };

    fn table() -> &'static [(Self, &'static [u8])] {
        &[(Link::Eq, b"eq"), (Link::Mem, b"mem"), (Link::Sub, b"sub")]
    }
}

impl Named for Arrow {
    ghost word_of = { arrow_word };

    ghost all = { arrow_table };

    fn table() -> &'static [(Self, &'static [u8])] {
        &[
            (Arrow::Sv, b"sv"),
            (Arrow::Si, b"si"),
            (Arrow::Mv, b"mv"),
            (Arrow::Mi, b"mi"),
            (Arrow::St, b"st"),
            (Arrow::Mt, b"mt"),
        ]
    }
}

impl Named for Rule {
    ghost word_of = { rule_word };

    ghost all = { rules };

    fn table() -> &'static [(Self, &'static [u8])] {
        &[
            (Rule::Refl, b"refl"),
            (Rule::Res, b"res"),
            (Rule::Fac, b"fac"),
            (Rule::Par, b"par"),
            (Rule::Acy, b"acy"),
            (Rule::Tra, b"tra"),
            (Rule::Inc, b"inc"),
            (Rule::Inh, b"inh"),
            (Rule::Inp, b"inp"),
            (Rule::Out, b"out"),
            (Rule::Sca, b"sca"),
            (Rule::Eli, b"eli"),
            (Rule::Mer, b"mer"),
            (Rule::Pro, b"pro"),
        ]
    }
}

// The value whose word s begins with, the first of the table that does, and the bytes after the word.
pub fn one_of<T: Named>(s: &[u8]) -> Option<(T, &[u8])>
    ensures value { parsed result ≡ one_of (each T.word_of return T.all) s.now }
    ensures s_unchanged { s.exit.now ≡ s.entry.now }
{
    for (value, name) in T::table() {
        if let Some(rest) = word(s, name) {
            return Some((*value, rest));
        }
    }
    None
}
