// One text or two as a whole: their size, their first line, and what stands from a place on.
#![tactic(auto)]

ghost use Rattle.std.specs.Prelude.{◌≤◌, ◌≡◌, length, drop};
ghost use Rattle.text.specs.Size.{line_count, line_end_count, first_line};
ghost use Rattle.text.specs.Split.{too_large};
ghost use Rattle.source.specs.Texts.{part_of};

use memchr::memchr;
use scan::counts::count;
use text::Figures;

const LINE_END: u8 = b'\n';

// The bytes of the first line; none, which are no form, where the text ends before the line does: what is no line is refused as an empty
// one is, so an Option would be turned into it.
#[tactic(auto, using(crate::proofs::Ends::first_ended, crate::proofs::Ends::first_unended))]
pub fn first_line(text: &[u8]) -> &[u8]
    ensures value { result.now ≡ first_line text.now }
    ensures text_unchanged { text.exit.now ≡ text.entry.now }
{
    match memchr(LINE_END, text) {
        Some(end) => &text[..end],
        None => &[],
    }
}

// How many line ends are in the text.
fn line_ends(text: &[u8]) -> usize
    ensures { result ≡ line_end_count text.now }
{
    count(text, LINE_END)
}

// The number of lines: the line ends, and one more for bytes after the last of them.
#[tactic(auto, using(crate::proofs::Ends::line_counts))]
fn lines(text: &[u8]) -> usize
    ensures { result ≡ line_count text.now }
{
    let ends = line_ends(text);
    match text.last() {
        None | Some(&LINE_END) => ends,
        Some(_) => ends + 1,
    }
}

// Check 1, by the figures given.
#[tactic(auto, unfolding(text::specs::Split::too_large))]
pub fn too_large(text: &[u8], figures: Figures) -> bool
    ensures value { result ≡ too_large figures text.now }
    ensures text_unchanged { text.exit.now ≡ text.entry.now }
{
    text.len() > figures.bytes || lines(text) > figures.lines
}

// The part of the text from `start` on; none past the end, as `drop` has it: each caller would turn an Option into that.
pub fn clause_part(text: &[u8], start: usize) -> &[u8]
    ensures value { result.now ≡ drop start text.now }
    ensures text_unchanged { text.exit.now ≡ text.entry.now }
{
    text.get(start..).unwrap_or(&[])
}

// A base and a job, which are read in a row.
#[derive(Clone, Copy, Debug, PartialEq, Eq)]
pub struct Texts<'a> {
    pub base: &'a [u8],
    pub job: &'a [u8],
}

impl<'a> Texts<'a> {
    // What stands from `at` on in the text that holds it.
    #[tactic(auto, unfolding(text::specs::Size::part_at))]
    pub fn part_at(self, at: usize) -> &'a [u8]
        ensures value { result.now ≡ part_of self.entry at }
        ensures self_unchanged { (self.exit.base.now ≡ self.entry.base.now) × (self.exit.job.now ≡ self.entry.job.now) }
    {
        if at < self.base.len() {
            clause_part(self.base, at)
        } else {
            clause_part(self.job, at - self.base.len())
        }
    }
}
