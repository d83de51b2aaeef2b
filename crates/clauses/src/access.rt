// Passing an item, and finding an occurrence in it.
ghost use Rattle.std.specs.Prelude.{◌+◌, ◌<◌, ◌≡◌, length};
ghost use Rattle.clauses.specs.Nearer.{Nearer};
ghost use Rattle.clauses.specs.Entries.{itself, taken};
ghost use Rattle.text.specs.Answers.{passed};
ghost use Rattle.text.specs.Access.{skip_item, begins_term, to_occurrence};

use scan::counts::count;
use scan::words::word;

// Bytes that are looked at together.
const STRIDE: usize = 16;

// With fewer brackets open the end of an item may be near, and its bytes are looked at one by one.
const DEEP: usize = 3;

// What is left of an item, and the brackets that are open there besides the item's own.
#[derive(Clone, Copy, Debug, PartialEq, Eq)]
struct Inside<'a> {
    rest: &'a [u8],
    level: usize,
}

// A place at or before the end of the item, by steps of 16 bytes in which it cannot end.
#[tactic(auto, using(crate::proofs::Leaping::leap_over))]
fn leap(item: &[u8], level: usize) -> Inside<'_>
    requires { level + length item.now < 18446744073709551616 }
    ensures { Nearer item.now level result }
{
    let mut rest = item;
    let mut inner = level;
    // No iterator ends by what was counted.
    while inner >= DEEP {
        let Some((bytes, after)) = rest.split_first_chunk::<STRIDE>() else {
            break;
        };
        let closed = count(bytes, b')');
        if closed > inner {
            break;
        }
        inner = inner + count(bytes, b'(') - closed;
        rest = after;
    }
    Inside { rest, level: inner }
}

// The bytes after the item that s begins with.
#[tactic(auto, unfolding(text::specs::Access::skip_item, text::specs::Access::closing), using(crate::proofs::Passing::strip_within))]
pub fn skip(s: &[u8]) -> Option<&[u8]>
    ensures value { passed result ≡ skip_item s.now }
    ensures s_unchanged { s.exit.now ≡ s.entry.now }
{
    let mut rest = word(s, b"(")?;
    let mut level: usize = 0;
    while let Some((b, after)) = rest.split_first() {
        rest = after;
        if *b == b'(' {
            let inside = leap(rest, level + 1);
            rest = inside.rest;
            level = inside.level;
        } else if *b == b')' {
            if level == 0 {
                return Some(rest);
            }
            level -= 1;
        }
    }
    None
}

// The item that s begins with, and the bytes after it.
#[tactic(auto, unfolding(crate::specs::Entries::itself), using(crate::proofs::Passing::skip_within))]
pub fn split(s: &[u8]) -> Option<(&[u8], &[u8])>
    ensures value { taken result ≡ itself s.now }
    ensures s_unchanged { s.exit.now ≡ s.entry.now }
{
    let rest = skip(s)?;
    Some((&s[..s.len() - rest.len()], rest))
}

// Whether s begins with a term.
#[tactic(auto, unfolding(text::specs::Access::begins_term, text::specs::Access::stood))]
fn term(s: &[u8]) -> bool
    ensures { result ≡ begins_term s.now }
{
    word(s, b"(v ").is_some() || word(s, b"(f ").is_some()
}

// The bytes from term occurrence k of the item on that s begins with.
#[tactic(auto, unfolding(text::specs::Access::to_occurrence, text::specs::Access::seek), using(crate::proofs::Passing::strip_within))]
pub fn occurrence(s: &[u8], k: usize) -> Option<&[u8]>
    ensures value { passed result ≡ to_occurrence k s.now }
    ensures s_unchanged { s.exit.now ≡ s.entry.now }
{
    let mut rest = word(s, b"(")?;
    let mut left = k;
    let mut level: usize = 0;
    while let Some((b, after)) = rest.split_first() {
        if *b == b'(' {
            if term(rest) {
                if left == 0 {
                    return Some(rest);
                }
                left -= 1;
            }
            level += 1;
        } else if *b == b')' {
            level = level.checked_sub(1)?;
        }
        rest = after;
    }
    None
}
