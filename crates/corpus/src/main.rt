// Prints the answer to each text of a stored corpus, and then to each base and job of stored pairs. A text is stored as its length, in four
// bytes, the lowest first, and then its bytes, at most 65,536; a pair is two texts, the base first.
#![tactic(auto)]

ghost use Rattle.std.specs.Prelude.{IfOk, IfSome};
ghost use Rattle.io.specs.Counts.{IsPrefixLen};

use console::{Reason, StreamError};
use meaning::Answer;
use print::ROOM;
use std::fmt;
use std::fmt::Display;
use std::fs::File;
use std::io::{Error, Read};

// Why the rest of a file is not answered.
#[derive(Clone, Copy, Debug)]
enum Failure {
    LengthCut,
    TextTooLong,
    TextCut,
    Stream(StreamError),
}

impl From<Error> for Failure {
    fn from(error: Error) -> Failure {
        Failure::Stream(error.into())
    }
}

impl Display for Failure {
    fn fmt<W: fmt::Write>(&self, f: &mut fmt::Formatter<W>) -> fmt::Result {
        match self {
            Failure::LengthCut => write!(f, "a length is cut short"),
            Failure::TextTooLong => write!(f, "a text is too long"),
            Failure::TextCut => write!(f, "a text is cut short"),
            Failure::Stream(error) => write!(f, "{error}"),
        }
    }
}

// Reads as many bytes as there are, up to the end of the file or to a failure, which counts as the end. The number is answered beside the
// buffer, as by `read_text`.
fn read_bytes<R: Read>(from: &mut R, bytes: &mut [u8]) -> usize
    ensures { IsPrefixLen result bytes.new }
{
    console::read_text(from, bytes).unwrap_or_else(|failed| failed.bytes)
}

// Reads a text's length, if the file has not ended.
fn read_length<R: Read>(from: &mut R) -> Result<Option<usize>, Failure> {
    let mut head = [0u8; 4];
    match read_bytes(from, &mut head) {
        4 => Ok(Some(u32::from_le_bytes(head) as usize)),
        0 => Ok(None),
        _ => Err(Failure::LengthCut),
    }
}

// Reads a text's length and then the text, and answers how many bytes it has, if there is one; the buffer is lent, as to `read_text`, for
// there is no heap.
fn read_next<R: Read>(from: &mut R, text: &mut [u8]) -> Result<Option<usize>, Failure>
    ensures { IfOk result (λ next. IfSome next (λ n. IsPrefixLen n text.new)) }
{
    let Some(n) = read_length(from)? else {
        return Ok(None);
    };
    if n > text.len() {
        return Err(Failure::TextTooLong);
    }
    if read_bytes(from, &mut text[..n]) < n {
        return Err(Failure::TextCut);
    }
    Ok(Some(n))
}

// The answer that `check` gives to the next text, if there is one.
fn next_answer<R: Read, F: FnOnce(&[u8]) -> Answer>(
    from: &mut R,
    check: F,
) -> Result<Option<Answer>, Failure>
    requires { F.IsAlwaysCallable check }
{
    let mut text = [0u8; 65536];
    let next = read_next(from, &mut text)?;
    Ok(next.map(|n| check(&text[..n])))
}

// The answer to the next text, if there is one.
fn next_text<R: Read>(from: &mut R) -> Result<Option<Answer>, Failure> {
    next_answer(from, verdict::check)
}

// The answer to the next pair, if there is one.
fn next_pair<R: Read>(from: &mut R) -> Result<Option<Answer>, Failure> {
    let mut base = [0u8; 65536];
    match read_next(from, &mut base)? {
        Some(n) => next_answer(from, |job| verdict::check_job(&base[..n], job)),
        None => Ok(None),
    }
}

fn print(rt: &HostRuntime, answer: Answer) -> Result<(), Failure> {
    let mut lines = [0u8; ROOM];
    console::print(&mut rt.stdout(), answer, &mut lines)?;
    Ok(())
}

// Prints each answer that `next` gives. A proved loop has to end, and nothing says that a file does, so the turns are counted.
fn print_all<R: Read, F: Fn(&mut R) -> Result<Option<Answer>, Failure>>(
    rt: &HostRuntime,
    from: &mut R,
    next: F,
) -> Result<(), Failure>
    requires { F.IsAlwaysCallable next }
{
    for _ in 0..u64::MAX {
        match next(from)? {
            Some(answer) => print(rt, answer)?,
            None => break,
        }
    }
    Ok(())
}

// Prints the answers to all that a file holds.
fn answer_file<F: Fn(&mut File) -> Result<Option<Answer>, Failure>>(
    rt: &HostRuntime,
    path: &str,
    next: F,
)
    requires { F.IsAlwaysCallable next }
{
    let mut errors = rt.stderr();
    match File::open(rt, path) {
        Ok(mut file) => {
            if let Err(failure) = print_all(rt, &mut file, next) {
                console::complain_of(&mut errors, b"corpus", failure);
            }
        }
        Err(error) => console::complain_of(&mut errors, path.as_bytes(), Reason(error)),
    }
}

fn main(rt: HostRuntime) {
    answer_file(&rt, "corpus.bin", next_text);
    answer_file(&rt, "pairs.bin", next_pair);
}
