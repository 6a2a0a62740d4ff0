// The trials of `velejume::phase` and `velejume::phase_heterozygous`: the examples, both sides of the limits, and generated blocks, against
// what is stated and against an exhaustive solver that shares nothing with the column method.
#![tactic(auto)]

mod examples;
mod held;
mod limits;

use exhaustive::charge::Mode;
use report::chance::some_rooms;
use report::kinds::of_each_kind;
use report::lines::Tally;

// What the lines of a mode begin with.
fn called(mode: Mode) -> &'static str {
    match mode {
        Mode::General => "",
        Mode::Heterozygous => "all-heterozygous ",
    }
}

// The generated blocks are the same, in the same rooms, in both modes.
fn in_mode(mode: Mode, all: &mut Tally) {
    let call = called(mode);
    examples::run(call, mode, all);
    limits::run(call, mode, all);
    of_each_kind(call, all, |block, chance, tally| {
        let rooms = some_rooms(block, chance);
        held::against_search(block, mode, rooms, tally);
    });
}

pub fn run(all: &mut Tally) {
    in_mode(Mode::General, all);
    in_mode(Mode::Heterozygous, all);
}
