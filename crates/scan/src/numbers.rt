// Numbers N.
ghost use Rattle.std.specs.Prelude.{◌≡◌, ◌≤◌, IfSome};
ghost use Rattle.text.specs.Form.{max_number};
ghost use Rattle.text.specs.Read.{goes_on, read_number, read_digits, digit as is_digit};
ghost use Rattle.text.specs.Answers.{parsed};

use crate::kinds::Kind;

// The largest number N.
const LARGEST: usize = 65535;

#[tactic(auto, using(text::proofs::KindBytes::kind_digit))]
fn digit(b: u8) -> bool
    ensures { result ≡ is_digit b }
{
    Kind::of(b) == Kind::Digit
}

// Whether a digit may follow n and make it `further`.
#[tactic(auto, unfolding(text::specs::Read::goes_on))]
fn goes_on(n: usize, further: usize) -> bool
    ensures { result ≡ goes_on n further }
{
    n > 0 && further <= LARGEST
}

// The digits after those read, whose value is `first`.
#[tactic(auto, unfolding(text::specs::Read::read_digits, text::specs::Read::digit, text::specs::Read::goes_on))]
fn digits(s: &[u8], first: usize) -> Option<(usize, &[u8])>
    requires { first ≤ max_number }
    ensures value { parsed result ≡ read_digits first s.now }
    ensures small { IfSome result (λ read. read.0 ≤ max_number) }
{
    let mut rest = s;
    let mut value = first;
    while let Some((b, after)) = rest.split_first() {
        if !digit(*b) {
            break;
        }
        let next = value * 10 + usize::from(*b - b'0');
        if !goes_on(value, next) {
            return None;
        }
        value = next;
        rest = after;
    }
    Some((value, rest))
}

// The number that s begins with, and the bytes after it.
#[inline(always)]
#[tactic(auto, unfolding(text::specs::Read::read_number, text::specs::Read::digit))]
pub fn number(s: &[u8]) -> Option<(usize, &[u8])>
    ensures value { parsed result ≡ read_number s.now }
    ensures small { IfSome result (λ read. read.0 ≤ max_number) }
    ensures s_unchanged { s.exit.now ≡ s.entry.now }
{
    let (b, after) = s.split_first()?;
    if !digit(*b) {
        return None;
    }
    digits(after, usize::from(*b - b'0'))
}
