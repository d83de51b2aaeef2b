// The answer to a text, or to a base and a job: the lines are read and judged one after the other, and where none fails the clauses are
// counted.
#![tactic(auto)]

ghost use Rattle.std.specs.Prelude.{◌+◌, ◌≤◌, ◌<◌, min, ◌≡◌, false, []};
ghost use Rattle.text.specs.Figures.{office, UpToOffice};
ghost use Rattle.state.specs.ReadLine.{added_by, with_added};
ghost use Rattle.state.specs.Represents.{Adds};
ghost use Rattle.step.specs.Step.{parents_at};
ghost use Rattle.meaning.specs.Checks.{too_large};
ghost use Rattle.meaning.specs.Means.{Means, named};
ghost use Rattle.meaning.specs.Answer.{verdict, rests, jointly};
ghost use Rattle.meaning.specs.Guarantee.{Guarantee};
ghost use Rattle.meaning.specs.Job.{JobMeans, JobGuarantee};
ghost use Rattle.verdict.specs.Running.{Answers, StopsAt, AheadFailing, next_at, held_with};

use descent::{Held, Parents};
use logic::Check;
use meaning::{Answer, Verdict};
use outcome::finish;
use reader::forms::LineAt;
use source::{Texts, first_line, too_large};
use state::{Added, HeldState, adds};
use step::{Before, parents};
use text::{BYTES, DEPTH, Figures, LINES};

// What is read of a base and a job: what is answered, the verdict with the marks of the inputs or by itself, the state after the lines that
// passed, and how far they reach: the place of the line that failed.
#[derive(Drop)]
pub struct JobRead<A> {
    pub answer: A,
    pub state: HeldState,
    pub at: usize,
}

// How far two texts reach: one byte further than a text may, where they are longer.
fn reach(base: usize, job: usize) -> usize
    requires { base ≤ office.bytes }
    ensures { result ≡ base + min job (office.bytes + 1) }
{
    base + job.min(BYTES + 1)
}

// The line that begins at `at`, after so many lines, and how many bytes it is with its line end; or the refusal, if it fails, or if what is
// asked before it fails, where the base ends and the job begins.
#[tactic(auto, unfolding(crate::specs::Running::next_at, crate::specs::Running::told))]
fn next_line(
    before: Before<'_>,
    figures: Figures,
    at: usize,
    lines: usize,
) -> Result<(LineAt, usize), Verdict>
    requires { lines ≤ office.lines }
    ensures value { result ≡ next_at figures before.entry.texts.base.now before.entry.texts.job.now before.entry.state.now before.entry.held.now at lines }
    ensures first_failing { AheadFailing figures before.entry.texts.base.now before.entry.texts.job.now before.entry.state.now before.entry.held.now at lines }
{
    before
        .seam(figures, at, lines)
        .map_err(|check| Verdict::Refused { check, line: 0 })?;
    let bytes = first_line(before.texts.part_at(at));
    let line = before
        .checked(figures.depth, bytes)
        .map_err(|check| Verdict::Refused {
            check,
            line: lines + 1,
        })?;
    Ok((line, bytes.len() + 1))
}

// Holds what a line adds, besides its place, for clause n, if it has a clause; the parents that its step uses are given.
#[tactic(auto, unfolding(crate::specs::Running::held_with))]
fn hold(held: &mut [Held; LINES], n: usize, used: Parents, added: Added)
    requires { n < office.lines }
    ensures { held.new ≡ held_with held.old n used added }
{
    if let Added::Clause {
        literals,
        width,
        ..
    } = added
    {
        held[n] = Held {
            literals,
            width,
            parents: used,
        };
    }
}

// The lines of the base and then those of the job, one after the other, up to the first that fails. The state is handed on and comes back
// after each line; beside it the loop holds of each clause the parents that it uses, its number of literals and its width. The inputs on
// which a refutation rests are marked in rests, where nothing is marked before.
fn read_on(texts: Texts<'_>, figures: Figures, rests: &mut [bool; LINES]) -> JobRead<Verdict>
    requires { (too_large figures texts.base.now ≡ false) × UpToOffice figures × (named rests.old ≡ []) }
    ensures answers { Answers figures texts.entry.base.now texts.entry.job.now result.answer (named rests.new) }
    ensures stops_at { StopsAt figures texts.entry.base.now texts.entry.job.now result.state result.at }
{
    let whole = reach(texts.base.len(), texts.job.len());
    let mut state = HeldState::fresh();
    // Beside the state, whose form is asked for, and not moved with it.
    let mut held = [Held::NONE; LINES];
    let mut at = 0;
    let mut lines = 0;
    // No `for`: each turn says how far the next begins.
    while at < whole {
        let before = Before {
            texts,
            state: &state,
            held: &held,
        };
        match next_line(before, figures, at, lines) {
            Ok((line, length)) => {
                let added = adds(at, state.inputs, &line);
                hold(&mut held, state.clauses, parents(&line), added);
                match added {
                    Added::Symbol(count) => state = state.with_symbol(count),
                    Added::Clause { start, inputs, .. } => state = state.with_clause(start, inputs),
                }
                at += length;
                lines += 1;
            }
            Err(answer) => return JobRead { answer, state, at },
        }
    }
    let answer = finish(&state, &held, rests);
    JobRead { answer, state, at }
}

// The verdict on a base and a job: check 1 of the base, and then the lines. The inputs on which a refutation rests are marked in rests,
// where nothing is marked before.
fn verdict_on(texts: Texts<'_>, figures: Figures, rests: &mut [bool; LINES]) -> JobRead<Verdict>
    requires { UpToOffice figures × (named rests.old ≡ []) }
    ensures answers { Answers figures texts.entry.base.now texts.entry.job.now result.answer (named rests.new) }
    ensures stops_at { StopsAt figures texts.entry.base.now texts.entry.job.now result.state result.at }
{
    if !too_large(texts.base, figures) {
        return read_on(texts, figures, rests);
    }
    JobRead {
        answer: Verdict::Refused {
            check: Check::Size,
            line: 0,
        },
        state: HeldState::fresh(),
        at: 0,
    }
}

// One reading of a base and a job, which callers hand in this order, as C does: the answer, the state after the lines before the one that
// fails, and the place of that line; where no line fails, the state after all of them, and the place where they end.
pub fn read_job<'a>(base: &'a [u8], job: &'a [u8]) -> JobRead<Answer>
    ensures verdict_value { result.answer.verdict ≡ verdict office (jointly office base.now job.now) }
    ensures rests_value { named result.answer.rests ≡ rests office (jointly office base.now job.now) }
    ensures stops_at { StopsAt office base.now job.now result.state result.at }
    ensures base_unchanged { (base.exit.now ≡ base.entry.now) × (job.exit.now ≡ job.entry.now) }
{
    let figures = Figures {
        bytes: BYTES,
        lines: LINES,
        depth: DEPTH,
    };
    let mut rests = [false; LINES];
    let read = verdict_on(Texts { base, job }, figures, &mut rests);
    JobRead {
        answer: Answer {
            verdict: read.answer,
            rests,
        },
        state: read.state,
        at: read.at,
    }
}

// The answer to a base and a job, and what it means: that of the base, if it is refused, and otherwise that of the two in a row.
pub fn check_job<'a>(base: &'a [u8], job: &'a [u8]) -> Answer
    ensures verdict_value { result.verdict ≡ verdict office (jointly office base.now job.now) }
    ensures rests_value { named result.rests ≡ rests office (jointly office base.now job.now) }
    ensures job_means { JobMeans office base.now job.now result.verdict (named result.rests) }
    ensures job_guarantee { JobGuarantee office base.now job.now result.verdict (named result.rests) }
    ensures base_unchanged { (base.exit.now ≡ base.entry.now) × (job.exit.now ≡ job.entry.now) }
{
    read_job(base, job).answer
}

// The answer to a text, and what it means: a base with no job.
pub fn check(text: &[u8]) -> Answer
    ensures verdict_value { result.verdict ≡ verdict office text.now }
    ensures rests_value { named result.rests ≡ rests office text.now }
    ensures means { Means office text.now result.verdict (named result.rests) }
    ensures guarantee { Guarantee office text.now result.verdict (named result.rests) }
    ensures text_unchanged { text.exit.now ≡ text.entry.now }
{
    check_job(text, &[])
}
