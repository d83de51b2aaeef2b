// `check` and `check_job` for callers in C and Rust: an answer as three numbers and bytes.
#![tactic(auto)]

ghost use Rattle.std.specs.Prelude.{◌≡◌, length};
ghost use Rattle.text.specs.Figures.{office};
ghost use Rattle.meaning.specs.Means.{named};
ghost use Rattle.meaning.specs.Answer.{verdict, rests as rests_of, jointly};
ghost use Rattle.capi.specs.Numbered.{word_number, first_number, second_number, flag, flags};

use meaning::Verdict;
use text::LINES;

// The C interface takes numbers: the verdict's word, its first number and its second.
#[tactic(auto, unfolding(crate::specs::Numbered::word_number))]
fn word(v: Verdict) -> u32
    ensures { result ≡ word_number v }
{
    match v {
        Verdict::Refused { .. } => 0,
        Verdict::Open { .. } => 1,
        Verdict::Refuted { .. } => 2,
    }
}

#[tactic(auto, unfolding(crate::specs::Numbered::first_number, meaning::specs::Means::numbers))]
fn first_number(v: Verdict) -> usize
    ensures { result ≡ first_number v }
{
    match v {
        Verdict::Refused { check, .. } => check.number(),
        Verdict::Open { count } | Verdict::Refuted { count, .. } => count,
    }
}

#[tactic(auto, unfolding(crate::specs::Numbered::second_number, meaning::specs::Means::numbers))]
fn second_number(v: Verdict) -> usize
    ensures { result ≡ second_number v }
{
    match v {
        Verdict::Refused { line, .. } => line,
        Verdict::Open { .. } => 0,
        Verdict::Refuted { first, .. } => first,
    }
}

// Writes each byte of out: byte n is 1 where n is marked, and 0 otherwise. The marks are read by number. Tried: after a loop over a zip
// of `iter_mut` nothing is known of the bytes that it wrote, and with `marks.map(u8::from)` (i) of bench/ misses its goal.
fn put_flags(marks: &[bool; LINES], out: &mut [u8])
    ensures { out.new ≡ flags (length out.old) (named marks.now) }
{
    let (told, past) = out.split_at_mut(out.len().min(LINES));
    for (n, byte) in told.iter_mut().enumerate() {
        *byte = u8::from(marks[n]);
    }
    past.fill(0);
}

// The answer to a base and a job: answers the verdict's word, 0 refused, 1 open, 2 refuted, and leaves its numbers in first and second,
// 0 in second where it has one number. Byte n of rests becomes 1 where the refutation rests on input n, and 0 otherwise. The parameters are
// those of the C interface.
#[unsafe(no_mangle)]
pub extern "C" fn fcheck_check_job<'a>(
    base: &'a [u8],
    job: &'a [u8],
    first: &mut usize,
    second: &mut usize,
    rests: &mut [u8],
) -> u32
    ensures value { result ≡ word_number (verdict office (jointly office base.now job.now)) }
    ensures first_after { first.new ≡ first_number (verdict office (jointly office base.now job.now)) }
    ensures second_after { second.new ≡ second_number (verdict office (jointly office base.now job.now)) }
    ensures rests_after { rests.new ≡ flags (length rests.old)
        (rests_of office (jointly office base.now job.now)) }
    ensures base_unchanged { (base.exit.now ≡ base.entry.now) × (job.exit.now ≡ job.entry.now) }
{
    let answer = verdict::check_job(base, job);
    *first = first_number(answer.verdict);
    *second = second_number(answer.verdict);
    put_flags(&answer.rests, rests);
    word(answer.verdict)
}

// The answer to a text, in the same way: a base with no job.
#[tactic(auto, using(meaning::proofs::Jobs::jointly_nothing))]
#[unsafe(no_mangle)]
pub extern "C" fn fcheck_check(
    text: &[u8],
    first: &mut usize,
    second: &mut usize,
    rests: &mut [u8],
) -> u32
    ensures value { result ≡ word_number (verdict office text.now) }
    ensures first_after { first.new ≡ first_number (verdict office text.now) }
    ensures second_after { second.new ≡ second_number (verdict office text.now) }
    ensures rests_after { rests.new ≡ flags (length rests.old) (rests_of office text.now) }
    ensures text_unchanged { text.exit.now ≡ text.entry.now }
{
    fcheck_check_job(text, &[], first, second, rests)
}
