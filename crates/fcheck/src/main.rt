// Reads a text from standard input and prints the answer to it.
#![tactic(auto)]

ghost use Rattle.std.specs.Prelude.{ℕ, List, OnOk};
ghost use Rattle.console.specs.Answered.{Answered};

use console::{Request, StreamError};
use std::env::{Env, FillError};
use std::fmt;
use std::fmt::Display;
use std::io::{Read, Write};

const NAME: &[u8] = b"fcheck";

const HELP: &[u8] = b"usage: fcheck < TEXT
Checks the F-logic derivation on standard input and prints the answer:
  refuted COUNT FIRST  every step holds, and of COUNT clauses FIRST is the first empty one
  rests NUMBER ..      behind it, the inputs on which the refutation rests
  open COUNT           every step holds, and none of COUNT clauses is empty
  refused NUMBER LINE  LINE is the first line that fails a check, and NUMBER the check
  fcheck --help        prints this
  fcheck --version     prints the version
";

// Why the program did not do what it was asked for.
#[derive(Clone, Copy, Debug, PartialEq, Eq)]
enum Failure {
    Stream(StreamError),
    Usage,
}

impl From<StreamError> for Failure {
    fn from(error: StreamError) -> Failure {
        Failure::Stream(error)
    }
}

impl Display for Failure {
    fn fmt<W: fmt::Write>(&self, f: &mut fmt::Formatter<W>) -> fmt::Result {
        match self {
            Failure::Stream(error) => write!(f, "{error}"),
            Failure::Usage => write!(
                f,
                "the text is read from standard input, and there is no argument but --help and --version"
            ),
        }
    }
}

// Reads a text and prints the answer to it.
fn check_text<I: Read, O: Write>(from: &mut I, to: &mut O) -> Result<(), StreamError>
    ensures { OnOk result ((text : List ℕ) × Answered (I.remaining from.old) (I.remaining from.new) (O.contents to.old) (O.contents to.new) text text) }
{
    console::answer(from, to, verdict::check)
}

fn check_input(rt: &HostRuntime) -> Result<(), Failure> {
    check_text(&mut rt.stdin(), &mut rt.stdout())?;
    Ok(())
}

// Prints the help or the version, if the argument asks for one of them, and there are no others.
fn answer(rt: &HostRuntime, argument: &[u8]) -> Result<(), Failure> {
    let request = Request::of(argument).ok_or(Failure::Usage)?;
    Ok(request.tell(&mut rt.stdout(), NAME, HELP)?)
}

// The first argument is the program's name.
fn run(rt: &HostRuntime) -> Result<(), Failure> {
    let mut argument = [0u8; 4096];
    match rt.arg(1, &mut argument) {
        Err(FillError::NotPresent) => check_input(rt),
        Ok(n) if !console::has_argument(rt, 2) => answer(rt, &argument[..n]),
        _ => Err(Failure::Usage),
    }
}

fn main(rt: HostRuntime) {
    if let Err(failure) = run(&rt) {
        console::complain_of(&mut rt.stderr(), NAME, failure);
    }
}
