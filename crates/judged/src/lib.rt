// The trials of `velejume::judge`: builders' answers, against stated verdicts and against a judging from an exhaustive solver.
#![tactic(auto)]

mod examples;
mod held;
mod kinds;

use report::lines::Tally;

// What the lines begin with.
const CALL: &str = "answer ";

pub fn run(all: &mut Tally) {
    examples::run(CALL, all);
    kinds::run(CALL, all);
}
