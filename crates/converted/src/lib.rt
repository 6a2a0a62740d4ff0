// The trials of `velejume::convert`: blocks whose outcome is stated, and generated blocks against a converter from document 02's words.
#![tactic(auto)]

mod held;
mod limits;

use cases::random::Chance;
use exhaustive::converter::convert;
use exhaustive::refusals::Numbers;
use held::against_converter;
use report::kinds::of_each_kind;
use report::lines::Tally;

// What the lines begin with.
const CALL: &str = "convert ";

// A room that is exact, one short, of any size, none or ample.
fn some_room(block: &[u8], chance: &mut Chance) -> usize {
    let need = Numbers::from(convert(block, 0, &mut [])).second;
    match chance.below(8) {
        0 => need,
        1 => need.saturating_sub(1),
        2 => chance.below(60),
        3 => 0,
        _ => 8192,
    }
}

pub fn run(all: &mut Tally) {
    limits::run(CALL, all);
    of_each_kind(CALL, all, |block, chance, tally| {
        let room = some_room(block, chance);
        against_converter(block, room, tally);
    });
}
