// The trials of `velejume::phase_margins`: the examples, both sides of the limits, and generated blocks, with runs on both sides of what is
// needed, against what is stated and against the exhaustive solver.
#![tactic(auto)]

mod examples;
mod held;
mod limits;

use cases::random::Chance;
use fields::word;
use held::{AMPLE_RUN, against_search};
use report::chance::some_rooms;
use report::kinds::of_each_kind;
use report::lines::Tally;

// What the lines begin with.
const CALL: &str = "margins ";

// A run that is exact, one short, empty, of any length or ample.
fn some_run(block: &[u8], chance: &mut Chance) -> usize {
    let need = 2 * word(block, 5);
    match chance.below(8) {
        0 => need,
        1 => need.saturating_sub(1),
        2 => 0,
        3 => chance.below(60),
        _ => AMPLE_RUN,
    }
}

pub fn run(all: &mut Tally) {
    examples::run(CALL, all);
    limits::run(CALL, all);
    of_each_kind(CALL, all, |block, chance, tally| {
        let rooms = some_rooms(block, chance);
        let run = some_run(block, chance);
        against_search(block, rooms, run, tally);
    });
}
