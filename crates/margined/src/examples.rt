// P1 to P9 of document 01 and others like them, in each version that has them, with a run that is ample, exact, one short and empty.
use crate::held::{against_numbers, against_search, against_stated};
use cases::examples;
use cases::examples::Example;
use exhaustive::refusals::Numbers;
use exhaustive::rooms::Rooms;
use fields::word;
use report::lines::Tally;

// The margins, worked out by hand from the sides of document 01 or of a search outside: haplotype 1's, haplotype 2's.
fn margins(example: Example) -> &'static [u32] {
    match example {
        Example::P1 => &[9, 3, 5, 0],
        Example::P2 => &[9, 5, 2, 5, 5, 5],
        Example::P3 => &[0, 0],
        Example::P4 => &[7, 0],
        Example::P5 => &[5, 5],
        Example::P6 => &[6, 0],
        Example::P7 => &[0, 0],
        Example::P8 => &[4, 0, 0, 0],
        Example::OtherCost => &[9, 9, 5, 9, 9, 5],
        Example::OtherSides => &[1, 1, 4, 4],
        Example::OtherFlips => &[9, 0, 9, 0],
        Example::P9 => &[7, 0],
        Example::Heavy => &[2304, 768, 1280, 0],
    }
}

fn hold(example: Example, block: &[u8], tally: &mut Tally) {
    let ample = Rooms::ample();
    let need = 2 * word(block, 5);
    let short = Numbers::new(13, need);
    against_stated(block, margins(example), tally);
    against_search(block, ample, need, tally);
    against_numbers(block, ample, need.saturating_sub(1), short, tally);
    against_numbers(block, ample, 0, short, tally);
}

pub fn run(call: &str, all: &mut Tally) {
    let mut tally = all.fresh();
    examples::each(|example, block| hold(example, block, &mut tally));
    tally.line(call, "examples", all);
}
