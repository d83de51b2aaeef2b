// What the programs share: a text is read into a buffer, an answer is printed, and so are help, version and messages.
#![tactic(auto)]

ghost use Rattle.std.specs.Prelude.{◌≤◌, ◌<◌, ◌≡◌, ◌++◌, length, take, drop, IfOk, OnOk, IfErr, OnErr};
ghost use Rattle.std.specs.Fn.{FnOnceReturnsAt};
ghost use Rattle.std.specs.Io.KnownBytes.{Appends, Consumes, IsAtEnd, Keeps};
ghost use Rattle.io.specs.Counts.{IsPrefixLen};
ghost use Rattle.meaning.specs.Means.{named};
ghost use Rattle.print.specs.Line.{written};
ghost use Rattle.console.specs.Answered.{AnsweredBy};
ghost use Rattle.console.specs.Arguments.{request, told};
ghost use Rattle.console.specs.Reading.{bytes_read};

use meaning::Answer;
use print::ROOM;
use std::env::{Env, FillError};
use std::fmt::Display;
use std::io::{Error, Read, Write};
use std::str::from_utf8;
use std::{fmt, io};

// So many bytes are read at a time.
const CHUNK: usize = 4096;

// Bytes enough for the system's words about an error.
const MESSAGE: usize = 256;

// Why a read failed, and how many bytes had been read before.
#[derive(Clone, Copy, Debug)]
pub struct ReadError {
    pub bytes: usize,
    pub error: Error,
}

// Reads once, puts what was read at the start of out, and answers how many bytes that is, as std's `read` does. It goes by way of a chunk,
// for nothing is promised of the bytes of a buffer that was lent to `read`.
fn read_some<R: Read>(from: &mut R, out: &mut [u8]) -> io::Result<usize>
    ensures result_in_bounds { IfOk result (λ n. n ≤ length out.old) }
    ensures out_unchanged { IfOk result (λ n. drop n out.new ≡ drop n out.old) }
    ensures bytes { IfOk result (λ n. Consumes (R.remaining from.old) (R.remaining from.new) (take n out.new)) }
    ensures end { IfOk result (λ n. n ≡ 0 → 0 < length out.old → IsAtEnd (R.remaining from.new)) }
    ensures err { OnErr result ((out.new ≡ out.old) × Keeps (R.remaining from.old) (R.remaining from.new)) }
{
    let mut chunk = [0u8; CHUNK];
    let most = out.len().min(CHUNK);
    let n = from.read(&mut chunk[..most])?;
    out[..n].copy_from_slice(&chunk[..n]);
    Ok(n)
}

// Reads into text until it is full, the input ends or a read fails, which leaves room, and answers how many bytes it put there. The bytes
// behind those that were read are as they were. A buffer that has one byte more than a text may have is enough: where it is full the text
// has too many, which a check sees by its length, and nothing more is read. There is no heap for a text of its own; and the number is
// answered, as std's `read` does, for a slice handed back would keep the buffer lent, and the promises are on all of it.
pub fn read_text<R: Read>(from: &mut R, text: &mut [u8]) -> Result<usize, ReadError>
    ensures prefix_len { IsPrefixLen (bytes_read result) text.new }
    ensures text_len_unchanged { length text.new ≡ length text.old }
    ensures text_unchanged { drop (bytes_read result) text.new ≡ drop (bytes_read result) text.old }
    ensures upper_bound { IfErr result (λ e. e.bytes < length text.old) }
    ensures bytes { Consumes (R.remaining from.old) (R.remaining from.new) (take (bytes_read result) text.new) }
    ensures end { IfOk result (λ n. n < length text.old → IsAtEnd (R.remaining from.new)) }
{
    let mut at = 0;
    // Each read says how far the next begins, which no range does.
    while at < text.len() {
        match read_some(from, &mut text[at..]) {
            Ok(0) => return Ok(at),
            Ok(n) => at += n,
            Err(error) => return Err(ReadError { bytes: at, error }),
        }
    }
    Ok(at)
}

// Puts the lines of an answer at the start of out, and prints them.
pub fn print<W: Write>(to: &mut W, a: Answer, out: &mut [u8; ROOM]) -> io::Result<()>
    ensures out_after { out.new ≡ written a.verdict (named a.rests) ++ drop (length (written a.verdict (named a.rests))) out.old }
    ensures printed { OnOk result (Appends (W.contents to.old) (W.contents to.new) (written a.verdict (named a.rests))) }
{
    let n = print::lines(a, out);
    to.write_all(&out[..n])
}

// Why a text was not answered on the standard streams.
#[derive(Clone, Copy, Debug, PartialEq, Eq)]
pub enum StreamError {
    Input,
    Output,
}

impl From<ReadError> for StreamError {
    fn from(_: ReadError) -> StreamError {
        StreamError::Input
    }
}

// Where reading fails by a `ReadError`, what fails otherwise is a write.
impl From<Error> for StreamError {
    fn from(_: Error) -> StreamError {
        StreamError::Output
    }
}

impl Display for StreamError {
    fn fmt<W: fmt::Write>(&self, f: &mut fmt::Formatter<W>) -> fmt::Result {
        match self {
            StreamError::Input => write!(f, "standard input can't be read"),
            StreamError::Output => write!(f, "standard output can't be written"),
        }
    }
}

// Reads a text and prints the answer that `check` gives to it. The buffer has one byte more than a text may have.
pub fn answer<R: Read, W: Write, F: FnOnce(&[u8]) -> Answer>(
    from: &mut R,
    to: &mut W,
    check: F,
) -> Result<(), StreamError>
    requires { F.IsAlwaysCallable check }
    ensures { OnOk result (AnsweredBy (FnOnceReturnsAt F.FnOnce check) (R.remaining from.old) (R.remaining from.new) (W.contents to.old) (W.contents to.new)) }
{
    let mut text = [0u8; 65536];
    let n = read_text(from, &mut text)?;
    let mut lines = [0u8; ROOM];
    let a = check(&text[..n]);
    print(to, a, &mut lines)?;
    Ok(())
}

// Why a call failed, in the system's words and without its number.
#[derive(Clone, Copy, Debug)]
pub struct Reason(pub Error);

impl Display for Reason {
    fn fmt<W: fmt::Write>(&self, f: &mut fmt::Formatter<W>) -> fmt::Result {
        // There is no heap for a String; what `write!` leaves of the buffer tells how much it wrote.
        let mut message = [0u8; MESSAGE];
        let mut room: &mut [u8] = &mut message;
        let _ = write!(room, "{}", self.0);
        let written = MESSAGE.saturating_sub(room.len());
        let text = from_utf8(&message[..written]).unwrap_or("");
        let words = text
            .split_once(" (os error ")
            .map_or(text, |(words, _)| words);
        write!(f, "{words}")
    }
}

// Says on standard error what went wrong, behind the program's name. It stays beside `complain_of`, for bytes are no Display: not all of
// them are text, and what is not is printed as it is.
pub fn complain<E: Write>(errors: &mut E, name: &[u8], what: &[u8]) {
    let _ = errors.write_all(name);
    let _ = errors.write_all(b": ");
    let _ = errors.write_all(what);
    let _ = errors.write_all(b"\n");
}

// The same of what is no bytes but can be shown. Nothing can be promised of what a Display writes. As in `complain`, a part that can't be
// written is passed over, and the next one tried.
pub fn complain_of<E: Write, D: Display + Drop>(errors: &mut E, name: &[u8], what: D) {
    let _ = errors.write_all(name);
    let _ = errors.write_all(b": ");
    let _ = write!(errors, "{what}");
    let _ = errors.write_all(b"\n");
}

// Whether the program was given argument i, of which the first is its own name.
pub fn has_argument(rt: &impl Env, i: usize) -> bool {
    !matches!(rt.arg(i, &mut []), Err(FillError::NotPresent))
}

// What an argument may ask for.
#[derive(Clone, Copy, Debug, PartialEq, Eq)]
pub enum Request {
    Help,
    Version,
}

impl Request {
    // What the argument asks for, if it is one of the two words. No plainer as TryFrom: None is no error, but an argument that asks for
    // something else.
    pub fn of(argument: &[u8]) -> Option<Request>
        ensures value { result ≡ request argument.now }
        ensures argument_unchanged { argument.exit.now ≡ argument.entry.now }
    {
        if argument == b"--help".as_slice() {
            Some(Request::Help)
        } else if argument == b"--version".as_slice() {
            Some(Request::Version)
        } else {
            None
        }
    }

    // Prints what is asked for: the help, or the program's name and version.
    pub fn tell<W: Write>(self, to: &mut W, name: &[u8], help: &[u8]) -> Result<(), StreamError>
        ensures { OnOk result (Appends (W.contents to.old) (W.contents to.new) (told self name.now help.now)) }
    {
        match self {
            Request::Help => to.write_all(help)?,
            Request::Version => {
                to.write_all(name)?;
                to.write_all(b" 0.5\n")?;
            }
        }
        Ok(())
    }
}
