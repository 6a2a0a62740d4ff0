// P1 to P9 of document 01 and others like them, in both modes and in each version that has them, against what is stated and against the
// exhaustive solver.
use crate::held::{against_search, against_stated};
use cases::examples;
use cases::stated::{general, heterozygous};
use exhaustive::charge::Mode;
use exhaustive::rooms::Rooms;
use report::lines::Tally;

pub fn run(call: &str, mode: Mode, all: &mut Tally) {
    let mut tally = all.fresh();
    examples::each(|example, block| {
        let stated = match mode {
            Mode::General => general(example),
            Mode::Heterozygous => heterozygous(example),
        };
        against_stated(block, mode, stated, &mut tally);
        against_search(block, mode, Rooms::ample(), &mut tally);
    });
    tally.line(call, "examples", all);
}
