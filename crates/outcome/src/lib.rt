// Where all lines have passed: the answer, by the state and what is held of the clauses.
#![tactic(auto)]

ghost use Rattle.std.specs.Prelude.{◌≡◌};
ghost use Rattle.outcome.specs.Ends.{first_without, ends_as, marks_as};

use descent::Held;
use logic::Check;
use meaning::Verdict;
use state::HeldState;
use text::LINES;

// The number of the first empty clause, of so many, if one is empty.
#[tactic(auto, unfolding(crate::specs::Ends::first_without))]
fn first_empty(held: &[Held], clauses: usize) -> Option<usize>
    ensures { result ≡ first_without held.now clauses }
{
    held.iter()
        .take(clauses)
        .position(|clause| clause.literals == 0)
}

// The verdict, by the state and what is held of the clauses. The inputs on which a refutation rests are marked in rests, which stays as it
// is where none is found.
#[tactic(auto, unfolding(crate::specs::Ends::accepted_with, crate::specs::Ends::ends_as, crate::specs::Ends::marks_with, crate::specs::Ends::marks_as))]
pub fn finish(state: &HeldState, held: &[Held; LINES], rests: &mut [bool; LINES]) -> Verdict
    ensures value { result ≡ ends_as state.now held.now }
    ensures rests_after { rests.new ≡ marks_as state.now held.now rests.old }
    ensures state_unchanged { (state.exit.now ≡ state.entry.now) × (held.exit.now ≡ held.entry.now) }
{
    if !state.has_constant() {
        return Verdict::Refused {
            check: Check::Constant,
            line: 0,
        };
    }
    let count = state.clauses;
    let Some(first) = first_empty(held, count) else {
        return Verdict::Open { count };
    };
    *rests = descent::rests(held, state.inputs, first);
    Verdict::Refuted { count, first }
}
