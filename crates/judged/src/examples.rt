// Answers to P1 with stated verdicts, one for each.
use crate::held::against_stated;
use cases::examples::{P1_VERSION_1, P1_VERSION_2};
use exhaustive::refusals::Numbers;
use report::lines::Tally;

// An answer, with its verdict and the second number of that.
type Judged = (&'static [u8], usize, usize);

const ANSWERS: [Judged; 8] = [
    // Ours is of cost 1, with sides 1000 and haplotypes 10 and 0-.
    (
        b"\x02\x00\x00\x00\x14\x00\x00\x00\x01\x00\x00\x00\x01\x00\x04\x00\x02\x01\x00\x00\x00\x01\x00\x00\x02",
        57,
        0,
    ),
    // What is ill formed: version 1, m = 1, side 2.
    (
        b"\x01\x00\x00\x00\x14\x00\x00\x00\x01\x00\x00\x00\x01\x00\x04\x00\x02\x01\x00\x00\x00\x01\x00\x00\x02",
        50,
        0,
    ),
    (
        b"\x02\x00\x00\x00\x12\x00\x00\x00\x01\x00\x00\x00\x01\x00\x04\x00\x01\x01\x00\x00\x00\x01\x00",
        51,
        0,
    ),
    (
        b"\x02\x00\x00\x00\x14\x00\x00\x00\x01\x00\x00\x00\x01\x00\x04\x00\x02\x01\x00\x00\x02\x01\x00\x00\x02",
        52,
        0,
    ),
    // What claims otherwise: a `-` for 1, cost 2, all reads on side 0 with what that costs, and the sides exchanged.
    (
        b"\x02\x00\x00\x00\x14\x00\x00\x00\x01\x00\x00\x00\x01\x00\x04\x00\x02\x01\x00\x00\x00\x02\x00\x00\x02",
        53,
        0,
    ),
    (
        b"\x02\x00\x00\x00\x14\x00\x00\x00\x02\x00\x00\x00\x01\x00\x04\x00\x02\x01\x00\x00\x00\x01\x00\x00\x02",
        54,
        0,
    ),
    (
        b"\x02\x00\x00\x00\x14\x00\x00\x00\x06\x00\x00\x00\x02\x00\x04\x00\x02\x00\x00\x00\x00\x01\x00\x02\x02",
        55,
        1,
    ),
    (
        b"\x02\x00\x00\x00\x14\x00\x00\x00\x01\x00\x00\x00\x01\x00\x04\x00\x02\x00\x01\x01\x01\x00\x02\x01\x00",
        56,
        0,
    ),
];

fn answers(block: &[u8], tally: &mut Tally) {
    for (answer, number, second) in &ANSWERS {
        against_stated(block, answer, Numbers::new(*number, *second), tally);
    }
}

// P1 in both versions.
pub fn run(call: &str, all: &mut Tally) {
    let mut tally = all.fresh();
    answers(&P1_VERSION_1, &mut tally);
    answers(&P1_VERSION_2, &mut tally);
    tally.line(call, "to P1", all);
}
