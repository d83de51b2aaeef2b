// Comparing a filled item with other bytes.
ghost use Rattle.std.specs.Prelude.{◌≡◌, ℕ, List, [], ◌∷◌, get_or, length};
ghost use Rattle.text.specs.Read.{Parsed, strip};
ghost use Rattle.text.specs.Answers.{parsed, passed};
ghost use Rattle.clauses.specs.Entries.{texts};
ghost use Rattle.filling.specs.Filled.{item_depth, hole_depth, read_index, fill_item, indexed, matches, along};
ghost use Rattle.clauses.specs.Entries.{itself};
ghost use Rattle.filling.specs.Items.{item_of, beside, listed, by_entries, filled, filler_of, instead_of, compared, Shorter};

use clauses::access::{skip, split};
use scan::numbers::number;
use scan::words::word;

// The brackets of a literal whose terms nest so deep: its own, its atom's, its part's, its arguments', and those of its terms.
pub fn item_depth(depth: u8) -> usize
    ensures { result ≡ item_depth depth }
{
    4 + usize::from(depth)
}

// Those of a literal with a term in place of one of its own.
pub fn hole_depth(depth: u8) -> usize
    ensures { result ≡ hole_depth depth }
{
    item_depth(depth) + usize::from(depth)
}

// An item at the front of a clause's bytes, and the entries of the list that fills the clause; None where the clause has no variables.
#[derive(Clone, Copy, Debug, PartialEq, Eq)]
pub struct Filled<'a> {
    pub item: &'a [u8],
    pub entries: Option<&'a [&'a [u8]]>,
}

impl<'a> Filled<'a> {
    // Another item of the same clause.
    pub fn beside(self, item: &'a [u8]) -> Self
        ensures value { item_of result ≡ beside (item_of self.entry) item.now }
        ensures self_unchanged { (item_of self.exit ≡ item_of self.entry) × (item.exit.now ≡ item.entry.now) }
    {
        Filled {
            item,
            entries: self.entries,
        }
    }

    // The entries that its clause asks for; none where it has no variables: each caller would turn an Option into that.
    pub fn listed(self) -> &'a [&'a [u8]]
        ensures value { texts result.now ≡ listed (item_of self.entry).entries }
        ensures self_unchanged { item_of self.exit ≡ item_of self.entry }
    {
        self.entries.unwrap_or(&[])
    }
}

// The item from which so many bytes are left to the end of its clause is replaced by one of another clause. It is told by their number, for
// `==` tells bytes and not where they stand.
#[derive(Clone, Copy, Debug, PartialEq, Eq)]
pub struct Replaced<'a> {
    pub hole: usize,
    pub new: Filled<'a>,
}

// What fills a clause: the entries of a list, and what takes the place of one of its items, if any.
#[derive(Clone, Copy, Debug, PartialEq, Eq)]
pub struct Filling<'a> {
    pub entries: &'a [&'a [u8]],
    pub replaced: Option<Replaced<'a>>,
}

impl<'a> Filling<'a> {
    // The entries alone.
    pub fn by(entries: &'a [&'a [u8]]) -> Self
        ensures value { filler_of result ≡ by_entries (texts entries.now) }
        ensures entries_unchanged { entries.exit.now ≡ entries.entry.now }
    {
        Filling {
            entries,
            replaced: None,
        }
    }

    // What takes the place of the item that stands here.
    fn instead(&self, item: &[u8]) -> Option<Filled<'a>>
        ensures { result ≡ instead_of self.now.replaced (length item.now) }
    {
        let replaced = self.replaced?;
        (replaced.hole == item.len()).then_some(replaced.new)
    }
}

// The bytes after this one, if the text begins with it. It is no word that is known, but a byte of the item, and `word` would have to be
// given a slice of it.
#[tactic(auto, unfolding(text::specs::Read::strip))]
pub fn past(text: &[u8], byte: u8) -> Option<&[u8]>
    ensures value { passed result ≡ strip (byte ∷ []) text.now }
    ensures text_unchanged { text.exit.now ≡ text.entry.now }
{
    let (b, rest) = text.split_first()?;
    (*b == byte).then_some(rest)
}

// A variable's number, after "(v ", and the bytes after the variable.
#[tactic(auto, unfolding(crate::specs::Filled::read_index))]
pub fn index(s: &[u8]) -> Option<(usize, &[u8])>
    ensures value { parsed result ≡ read_index s.now }
    ensures s_unchanged { s.exit.now ≡ s.entry.now }
{
    let (n, rest) = number(s)?;
    Some((n, word(rest, b")")?))
}

// Entry n of a list; past the last no bytes, as the definitions have it (`by_entries`): with an Option and `?` more would be refused.
pub fn entry<'e>(entries: &[&'e [u8]], n: usize) -> &'e [u8]
    ensures value { result.now ≡ get_or (texts entries.now) n [] }
    ensures entries_unchanged { entries.exit.now ≡ entries.entry.now }
{
    entries.get(n).copied().unwrap_or(&[])
}

// A variable, from its number on: its entry stands in the text.
#[tactic(auto, unfolding(crate::specs::Filled::indexed, crate::specs::Filled::matches, crate::specs::Items::by_entries))]
fn expect_entry<'a, 'b>(
    entries: &[&[u8]],
    s: &'a [u8],
    text: &'b [u8],
) -> Option<(&'a [u8], &'b [u8])>
    ensures { compared result ≡ matches (indexed (by_entries (texts entries.now)).entry s.now) text.now }
{
    let (n, rest) = index(s)?;
    Some((rest, word(text, entry(entries, n))?))
}

// Two insides byte by byte, nested items by `nested`, up to the closing bracket: what is left of both. They come and go in their order, and
// a struct of two would say no more.
pub fn along<'a, 'b, F>(a: &'a [u8], b: &'b [u8], nested: F) -> Option<(&'a [u8], &'b [u8])>
where
    F: for<'x, 'y> Fn(&'x [u8], &'y [u8]) -> Option<(&'x [u8], &'y [u8])>,
    requires callable { F.IsAlwaysCallable nested }
    requires shorter { (x y r : _) → F.post nested x y r → Shorter x.now r }
    ensures value { (item : List ℕ → List ℕ → Parsed (List ℕ)) →
        ((x y r : _) → F.post nested x y r → compared r ≡ item x.now y.now) →
        compared result ≡ along item (length a.now) a.now b.now }
    ensures a_unchanged { (a.exit.now ≡ a.entry.now) × (b.exit.now ≡ b.entry.now) }
{
    let mut rest = a;
    let mut left = b;
    while let Some((byte, after)) = rest.split_first() {
        if *byte == b'(' {
            (rest, left) = nested(rest, left)?;
        } else {
            rest = after;
            left = past(left, *byte)?;
            if *byte == b')' {
                return Some((rest, left));
            }
        }
    }
    None
}

// The item at the front of a clause's bytes, filled, stands in the text: what is left of both. Brackets nest at most `depth` deep.
#[tactic(auto, using(crate::proofs::Expecting::new_missing, crate::proofs::Expecting::hole_open, crate::proofs::Expecting::replaced, crate::proofs::Expecting::is_variable, crate::proofs::Expecting::no_bracket))]
pub fn expect<'a, 'b>(
    filling: &Filling<'_>,
    item: &'a [u8],
    depth: usize,
    text: &'b [u8],
) -> Option<(&'a [u8], &'b [u8])>
    ensures value { compared result ≡ matches (fill_item (filler_of filling.now) depth item.now) text.now }
    ensures filling_unchanged { filling.exit.now ≡ filling.entry.now }
    ensures item_unchanged { (item.exit.now ≡ item.entry.now) × (text.exit.now ≡ text.entry.now) }
{
    let inner = depth.checked_sub(1)?;
    if let Some(new) = filling.instead(item) {
        let (_, left) = expect(&Filling::by(new.listed()), new.item, inner, text)?;
        return Some((skip(item)?, left));
    }
    if let Some(variable) = word(item, b"(v ") {
        return expect_entry(filling.entries, variable, text);
    }
    let inside = word(item, b"(")?;
    let left = word(text, b"(")?;
    along(
        inside,
        left,
        |x, y|
            ensures { compared result ≡ matches (fill_item (filler_of filling.entry.now) inner x.now) y.now }
        { expect(filling, x, inner, y) },
    )
}

// The item, as it is, stands in the text: what is left of both.
#[tactic(auto, unfolding(clauses::specs::Entries::itself, crate::specs::Filled::matches))]
fn expect_bytes<'a, 'b>(item: &'a [u8], text: &'b [u8]) -> Option<(&'a [u8], &'b [u8])>
    ensures { compared result ≡ matches (itself item.now) text.now }
{
    let (bytes, rest) = split(item)?;
    Some((rest, word(text, bytes)?))
}

// The item, filled, stands in the text: what is left of both. A clause without variables is its own filled form.
#[tactic(auto, unfolding(crate::specs::Items::filled_in))]
pub fn stands<'a, 'b>(x: Filled<'a>, depth: usize, text: &'b [u8]) -> Option<(&'a [u8], &'b [u8])>
    ensures value { compared result ≡ matches (filled (item_of x.entry) depth) text.now }
    ensures x_unchanged { (item_of x.exit ≡ item_of x.entry) × (text.exit.now ≡ text.entry.now) }
{
    match x.entries {
        None => expect_bytes(x.item, text),
        Some(entries) => expect(&Filling::by(entries), x.item, depth, text),
    }
}
