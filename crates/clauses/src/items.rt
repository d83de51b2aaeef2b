// Items one after another.
ghost use Rattle.std.specs.Prelude.{◌≡◌};
ghost use Rattle.clauses.specs.Entries.{entries, next_entry, taken, texts};
ghost use Rattle.text.specs.Answers.{passed};
ghost use Rattle.text.specs.Access.{pass_item, to_item, opening, to_argument};

use crate::access::{skip, split};
use scan::words::word;

// The most entries that a list has.
pub const ENTRIES: usize = 32;

// The bytes after a space and an item.
#[tactic(auto, unfolding(text::specs::Access::pass_item))]
pub fn pass(s: &[u8]) -> Option<&[u8]>
    ensures value { passed result ≡ pass_item s.now }
    ensures s_unchanged { s.exit.now ≡ s.entry.now }
{
    skip(word(s, b" ")?)
}

// The bytes from item n on, of items that stand after a space each.
#[tactic(auto, unfolding(text::specs::Access::to_item), using(crate::proofs::Passing::item_later))]
pub fn item(s: &[u8], n: usize) -> Option<&[u8]>
    ensures value { passed result ≡ to_item n s.now }
    ensures s_unchanged { s.exit.now ≡ s.entry.now }
{
    let mut rest = s;
    for _ in 0..n {
        rest = pass(rest)?;
    }
    word(rest, b" ")
}

// The same bytes, if they begin with an item.
#[tactic(auto, unfolding(text::specs::Access::opening))]
pub(crate) fn begins(s: &[u8]) -> Option<&[u8]>
    ensures { passed result ≡ opening s.now }
{
    let (b, _) = s.split_first()?;
    (*b == b'(').then_some(s)
}

// The bytes from argument n on, of the bracket that s begins with.
#[tactic(auto, unfolding(text::specs::Access::to_argument))]
pub(crate) fn argument(s: &[u8], n: usize) -> Option<&[u8]>
    ensures { passed result ≡ to_argument n s.now }
{
    let first = word(s, b"(")?;
    match n.checked_sub(1) {
        None => begins(first),
        Some(others) => item(skip(first)?, others),
    }
}

// The entry after a space, and the bytes after it.
#[tactic(auto, unfolding(crate::specs::Entries::next_entry))]
fn next_entry(s: &[u8]) -> Option<(&[u8], &[u8])>
    ensures { taken result ≡ next_entry s.now }
{
    split(word(s, b" ")?)
}

// The entries of a list, put into `found`, which has room for all that a list may have.
#[tactic(auto, unfolding(crate::specs::Entries::entries), using(crate::proofs::Listing::listing))]
pub fn entries<'a, 'f>(list: &'a [u8], found: &'f mut [&'a [u8]; ENTRIES]) -> &'f [&'a [u8]]
    ensures value { texts result.now ≡ entries list.now }
    ensures list_unchanged { list.exit.now ≡ list.entry.now }
{
    let mut rest = word(list, b"(let").unwrap_or(&[]);
    for (n, place) in found.iter_mut().enumerate() {
        let Some((entry, after)) = next_entry(rest) else {
            return &found[..n];
        };
        *place = entry;
        rest = after;
    }
    found
}
