// Comparing two filled items.
ghost use Rattle.std.specs.Prelude.{◌≡◌};
ghost use Rattle.clauses.specs.Entries.{texts};
ghost use Rattle.filling.specs.Filled.{fill_item, indexed, both, same_item};
ghost use Rattle.filling.specs.Items.{by_entries, compared};

use filling::compare::{Filling, along, entry, expect, index};
use scan::words::word;

// The lists that fill two clauses.
#[derive(Clone, Copy, Debug, PartialEq, Eq)]
pub struct Lists<'e> {
    pub first: &'e [&'e [u8]],
    pub second: &'e [&'e [u8]],
}

impl Lists<'_> {
    // A variable of the first clause, from its number on: its entry is the item of the second clause, filled. What is left of both. Here
    // and below the two come and go in their order, and a struct of two would say no more.
    #[tactic(auto, unfolding(filling::specs::Filled::both, filling::specs::Filled::nothing_left, filling::specs::Filled::indexed, filling::specs::Items::by_entries))]
    fn same_entry<'a, 'b>(
        self,
        a: &'a [u8],
        b: &'b [u8],
        depth: usize,
    ) -> Option<(&'a [u8], &'b [u8])>
        ensures { compared result ≡ both (indexed (by_entries (texts self.entry.first.now)).entry a.now)
            (fill_item (by_entries (texts self.entry.second.now)) depth b.now) }
    {
        let (n, rest) = index(a)?;
        let text = entry(self.first, n);
        let (after, left) = expect(&Filling::by(self.second), b, depth, text)?;
        left.is_empty().then_some((rest, after))
    }

    // The items of both clauses, each filled by its own list, are the same: what is left of both.
    #[tactic(auto, unfolding(filling::specs::Filled::turned, filling::specs::Filled::same_item))]
    pub fn same<'a, 'b>(
        self,
        a: &'a [u8],
        b: &'b [u8],
        depth: usize,
    ) -> Option<(&'a [u8], &'b [u8])>
        ensures { compared result ≡ same_item (by_entries (texts self.entry.first.now)) (by_entries (texts self.entry.second.now)) depth a.now b.now }
    {
        let inner = depth.checked_sub(1)?;
        if let Some(variable) = word(a, b"(v ") {
            return self.same_entry(variable, b, depth);
        }
        if let Some(variable) = word(b, b"(v ") {
            let turned = Lists {
                first: self.second,
                second: self.first,
            };
            let (left, rest) = turned.same_entry(variable, a, depth)?;
            return Some((rest, left));
        }
        let inside = word(a, b"(")?;
        let left = word(b, b"(")?;
        along(
            inside,
            left,
            |x, y|
                ensures { compared result ≡ same_item (by_entries (texts self.entry.first.now)) (by_entries (texts self.entry.second.now)) inner
                    x.now y.now }
            { self.same(x, y, inner) },
        )
    }
}
