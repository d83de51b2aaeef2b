// Fixed words of the text form.
ghost use Rattle.std.specs.Prelude.{◌≡◌};
ghost use Rattle.text.specs.Read.{strip};
ghost use Rattle.text.specs.Answers.{passed};

// The bytes of an opening bracket, a letter and a space, with which a term begins.
pub const HEAD: usize = 3;

// The bytes after the word w, if s begins with it. As all that is open, it says in its contract that what it is lent is the same after:
// callers read that there (docs/DECISIONS.md).
#[tactic(auto, using(crate::proofs::Strips::strips))]
pub fn word<'a>(s: &'a [u8], w: &[u8]) -> Option<&'a [u8]>
    ensures value { passed result ≡ strip w.now s.now }
    ensures s_unchanged { (s.exit.now ≡ s.entry.now) × (w.exit.now ≡ w.entry.now) }
{
    s.strip_prefix(w)
}
