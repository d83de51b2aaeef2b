// Reads a base from the file that is named and a job from standard input, and prints the answer to the two.
#![tactic(auto)]

ghost use Rattle.std.specs.Prelude.{ℕ, List, IfOk, OnOk};
ghost use Rattle.io.specs.Counts.{IsPrefixLen};
ghost use Rattle.text.specs.Figures.{office};
ghost use Rattle.meaning.specs.Answer.{jointly};
ghost use Rattle.console.specs.Answered.{Answered};

use console::{Reason, Request, StreamError};
use std::env::Env;
use std::fs::File;
use std::io;
use std::io::{Error, Read, Write};
use std::str::from_utf8;

const NAME: &[u8] = b"fjob";

const HELP: &[u8] = b"usage: fjob BASE < JOB
Checks an F-logic derivation in two parts, the base in the file BASE and the job on standard input.
If the base alone is refused, the answer is its own. Otherwise it is that of the two in a row, with
lines and clauses counted through both. The answers are those of fcheck (fcheck --help).
  fjob --help     prints this
  fjob --version  prints the version
A base in a file of such a name is given with its folder, as ./--help.
";

// Why the program did not do what it was asked for.
#[derive(Clone, Copy, Debug)]
enum Failure<'a> {
    Usage,
    NameTooLong,
    NameNotText(&'a [u8]),
    Base(&'a str, Error),
    Stream(StreamError),
}

impl<'a> From<StreamError> for Failure<'a> {
    fn from(error: StreamError) -> Failure<'a> {
        Failure::Stream(error)
    }
}

// Reads the base, and answers how many bytes it has; the buffer is lent, as to `read_text`, for there is no heap.
fn read_base(rt: &HostRuntime, path: &str, base: &mut [u8]) -> io::Result<usize>
    ensures { IfOk result (λ n. IsPrefixLen n base.new) }
{
    let mut file = File::open(rt, path)?;
    console::read_text(&mut file, base).map_err(|failed| failed.error)
}

// Reads the job and prints the answer to the base and the job.
fn check_job<I: Read, O: Write>(base: &[u8], from: &mut I, to: &mut O) -> Result<(), StreamError>
    ensures { OnOk result ((job : List ℕ) × Answered (I.remaining from.old) (I.remaining from.new) (O.contents to.old) (O.contents to.new) job (jointly office base.now job)) }
{
    console::answer(from, to, |job| verdict::check_job(base, job))
}

// The base, and then the job. The buffer has one byte more than a text may have. Not inlined: what is told without a base needs no such
// buffer, and is told where the stack has no room for one.
#[inline(never)]
fn check_over<'a>(rt: &HostRuntime, path: &'a str) -> Result<(), Failure<'a>> {
    let mut base = [0u8; 65536];
    let n = read_base(rt, path, &mut base).map_err(|error| Failure::Base(path, error))?;
    check_job(&base[..n], &mut rt.stdin(), &mut rt.stdout())?;
    Ok(())
}

// The answer to the argument. A path is UTF-8.
fn answer<'a>(rt: &HostRuntime, argument: &'a [u8]) -> Result<(), Failure<'a>> {
    match Request::of(argument) {
        Some(request) => Ok(request.tell(&mut rt.stdout(), NAME, HELP)?),
        None => check_over(
            rt,
            from_utf8(argument).map_err(|_| Failure::NameNotText(argument))?,
        ),
    }
}

// The first argument is the program's name, the second the base's. A name that is too long for a path is no file's.
fn run<'a>(rt: &HostRuntime, argument: &'a mut [u8]) -> Result<(), Failure<'a>> {
    if !console::has_argument(rt, 1) || console::has_argument(rt, 2) {
        return Err(Failure::Usage);
    }
    let n = rt.arg(1, argument).map_err(|_| Failure::NameTooLong)?;
    answer(rt, &argument[..n])
}

// Says on standard error why there is no answer. It is no Display, for a name that is not UTF-8 is printed as the bytes that it is.
fn report(rt: &HostRuntime, failure: Failure) {
    let mut errors = rt.stderr();
    match failure {
        Failure::Usage => console::complain(
            &mut errors,
            NAME,
            b"the base's file is the only argument, and the job is read from standard input (fjob --help)",
        ),
        Failure::NameTooLong => console::complain(&mut errors, NAME, b"BASE: File name too long"),
        Failure::NameNotText(name) => {
            let _ = errors.write_all(b"fjob: ");
            console::complain(&mut errors, name, b"the name of the file is not UTF-8");
        }
        Failure::Base(path, error) => {
            let _ = errors.write_all(b"fjob: ");
            console::complain_of(&mut errors, path.as_bytes(), Reason(error));
        }
        Failure::Stream(error) => console::complain_of(&mut errors, NAME, error),
    }
}

fn main(rt: HostRuntime) {
    let mut argument = [0u8; 4096];
    if let Err(failure) = run(&rt, &mut argument) {
        report(&rt, failure);
    }
}
