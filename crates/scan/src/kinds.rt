// The kinds of the byte values, by the ranges that they are. The reader asks for the kind where any byte of it will do, which is at digits.
// Elsewhere the form wants one byte, and the reader asks for that byte: one bracket of the two, one sign, the next letter of a word. A
// space and a line end are each the one byte of its kind.
ghost use Rattle.std.specs.Prelude.{◌≡◌};
ghost use Rattle.text.specs.Kinds.{kind_of};
ghost use Rattle.scan.specs.Kinds.{kind_number};

#[derive(Clone, Copy, Debug, PartialEq, Eq)]
pub enum Kind {
    Digit,
    SmallLetter,
    Bracket,
    Sign,
    Space,
    LineEnd,
    Other,
}

impl Kind {
    // The kind of a byte: a question and no conversion, for many bytes are of one kind.
    #[tactic(auto, unfolding(text::specs::Kinds::kind_of))]
    pub fn of(b: u8) -> Self
        ensures { kind_number result ≡ kind_of b }
    {
        if b.is_ascii_digit() {
            return Kind::Digit;
        }
        match b {
            b'a'..=b'z' => Kind::SmallLetter,
            b'(' | b')' => Kind::Bracket,
            b'+' | b'-' => Kind::Sign,
            b' ' => Kind::Space,
            b'\n' => Kind::LineEnd,
            _ => Kind::Other,
        }
    }
}
