// Lists of items.
ghost use Rattle.std.specs.Prelude.{◌≡◌, ◌+◌, ◌≤◌, length, IfSome};
ghost use Rattle.text.specs.Answers.{parsed};
ghost use Rattle.reader.specs.Listed.{Listed};

use crate::context::Context;
use crate::measures::{Bounds, Measure};
use scan::words::word;

impl<'t> Context<'t> {
    // Items, each after one space, up to the closing bracket. Inlined, so that each list has a loop of its own.
    #[inline(always)]
    pub(crate) fn many<'s, F>(self, s: &'s [u8], item: F) -> Option<(Measure, &'s [u8])>
    where
        F: for<'x> Fn(Context<'t>, &'x [u8]) -> Option<(Bounds, &'x [u8])>,
        requires callable { (x : _) → F.pre item self x }
        requires no_longer { (x r : _) → F.post item self x r → IfSome r (λ read. length read.1.now ≤ length x.now) }
        ensures value { (one all : _) → Listed one all → ((x r : _) → F.post item self.entry x r → parsed r ≡ one x.now) → parsed result ≡ all s.now }
        ensures few { IfSome result (λ read. read.0.count + length read.1.now ≤ length s.now) }
    {
        let mut parts = Measure::empty();
        let mut rest = s;
        while let Some(next) = word(rest, b" ") {
            let (part, after) = item(self, next)?;
            parts = parts.and(part);
            rest = after;
        }
        let rest = word(rest, b")")?;
        Some((parts, rest))
    }
}
