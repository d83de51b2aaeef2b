// The lines that answer a text.
#![tactic(auto)]

ghost use Rattle.std.specs.Prelude.{◌+◌, ◌*◌, ◌≤◌, ◌≡◌, [], ◌∷◌, ◌++◌, length, drop};
ghost use Rattle.text.specs.Words.{bytes};
ghost use Rattle.meaning.specs.Means.{named};
ghost use Rattle.writer.specs.Written.{Wrote};
ghost use Rattle.print.specs.Line.{spaced, word_line, verdict_line, written};

use meaning::{Answer, Verdict};
use text::LINES;
use writer::{put, put_number};

// Bytes enough for the longest answer: a line of at most 64 bytes, and one of a word and 1,024 numbers of at most four digits.
pub const ROOM: usize = 8192;

// Puts a space and n at the start of out, and answers how many bytes were put. A `write!` into a buffer promises nothing of the bytes that
// stand there then; `put` does.
#[tactic(auto, using(crate::proofs::Stores::spaced_one))]
fn put_spaced(n: usize, out: &mut [u8]) -> usize
    ensures wrote { Wrote (spaced (n ∷ [])) out.old result out.new }
    ensures at_most { length (spaced (n ∷ [])) ≤ 21 }
{
    let at = put(b" ", out);
    at + put_number(n, &mut out[at..])
}

// Puts numbers at the start of out, each after a space, and answers how many bytes were put.
fn put_numbers(numbers: &[usize], out: &mut [u8]) -> usize
    ensures wrote { Wrote (spaced numbers.now) out.old result out.new }
    ensures at_most { length (spaced numbers.now) ≤ 21 * length numbers.now }
{
    let mut end = 0;
    for &n in numbers {
        end += put_spaced(n, &mut out[end..]);
    }
    end
}

// Puts a word, numbers and a line end at the start of out, and answers how many bytes were put.
#[tactic(auto, using(crate::proofs::Stores::line_short))]
fn put_line(word: &[u8], numbers: &[usize], out: &mut [u8]) -> usize
    ensures wrote { Wrote (word_line word.now numbers.now) out.old result out.new }
    ensures at_most { length (word_line word.now numbers.now) ≤ length word.now + (21 * length numbers.now + 1) }
{
    let at = put(word, out);
    let last = at + put_numbers(numbers, &mut out[at..]);
    last + put(b"\n", &mut out[last..])
}

// Puts the verdict's line at the start of out, and answers how many bytes were put.
#[tactic(auto, using(crate::proofs::Stores::refuted_verdict, crate::proofs::Stores::open_verdict, crate::proofs::Stores::refused_verdict))]
fn put_verdict(v: Verdict, out: &mut [u8]) -> usize
    ensures wrote { Wrote (verdict_line v) out.old result out.new }
    ensures at_most { length (verdict_line v) ≤ 64 }
{
    match v {
        Verdict::Refuted { count, first } => put_line(b"refuted", &[count, first], out),
        Verdict::Open { count } => put_line(b"open", &[count], out),
        Verdict::Refused { check, line } => put_line(b"refused", &[check.number(), line], out),
    }
}

// Puts a space and a number for each mark at the start of out, and answers how many bytes were put. One loop for this and for `put_numbers`
// would go over any iterator, and could promise to put what that gives; but each call would have to prove what its iterator gives, which is
// more than a loop of its own.
fn put_marked(marks: &[bool; LINES], out: &mut [u8]) -> usize
    ensures { Wrote (spaced (named marks.now)) out.old result out.new }
{
    let mut end = 0;
    for (n, &mark) in marks.iter().enumerate() {
        if mark {
            end += put_spaced(n, &mut out[end..]);
        }
    }
    end
}

// Puts the line of the marked numbers at the start of out, and answers how many bytes were put. It is no case of `put_line`: a slice of the
// marked numbers would have to be made first, and a function over the middle part would share two calls.
fn put_rests(marks: &[bool; LINES], out: &mut [u8]) -> usize
    ensures { Wrote (word_line (bytes "rests") (named marks.now)) out.old result out.new }
{
    let at = put(b"rests", out);
    let end = at + put_marked(marks, &mut out[at..]);
    end + put(b"\n", &mut out[end..])
}

// Puts the lines of a verdict and of the marked numbers at the start of out, and answers how many bytes were put. Marks and buffer are what
// is written and where; a struct would be made for one call.
#[tactic(auto, using(crate::proofs::Stores::open_line, crate::proofs::Stores::refused_line, crate::proofs::Stores::lines_short))]
fn put_lines(v: Verdict, marks: &[bool; LINES], out: &mut [u8]) -> usize
    ensures wrote { Wrote (written v (named marks.now)) out.old result out.new }
    ensures at_most { length (written v (named marks.now)) ≤ 8192 }
{
    let at = put_verdict(v, out);
    match v {
        Verdict::Refuted { .. } => at + put_rests(marks, &mut out[at..]),
        Verdict::Open { .. } | Verdict::Refused { .. } => at,
    }
}

// Puts the lines of an answer at the start of out, and answers how many bytes they have.
pub fn lines(a: Answer, out: &mut [u8; ROOM]) -> usize
    ensures value { result ≡ length (written a.verdict (named a.rests)) }
    ensures out_after { out.new ≡ written a.verdict (named a.rests) ++ drop result out.old }
{
    put_lines(a.verdict, &a.rests, out)
}
