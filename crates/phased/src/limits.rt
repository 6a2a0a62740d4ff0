// Both sides of every limit, in both modes and versions: the numbers are those of documents 01 and 02, what the rooms hold is the
// exhaustive solver's.
use crate::held::{against_numbers, against_stated};
use cases::alike::{Alike, gapped, heaviest, same};
use cases::generate::Shape;
use cases::stated::Stated;
use exhaustive::charge::Mode;
use exhaustive::refusals::Numbers;
use exhaustive::rooms::Rooms;
use report::lines::Tally;

// Reads that are all alike, the rooms that are lent, and both numbers.
#[derive(Clone, Copy)]
struct Limit {
    alike: Alike,
    rooms: Rooms,
    expected: Numbers,
}

impl Limit {
    fn new(alike: Alike, rooms: Rooms, number: usize, second: usize) -> Limit {
        Limit {
            alike,
            rooms,
            expected: Numbers::new(number, second),
        }
    }

    fn hold(&self, shape: Shape, mode: Mode, tally: &mut Tally) {
        let block = self.alike.block(shape);
        against_numbers(block.as_slice(), mode, self.rooms, self.expected, tally);
    }
}

fn limits() -> [Limit; 17] {
    let ample = Rooms::ample();
    let four = Alike::new(3, 4, 0, 3);
    [
        // At most 1,024 columns and reads.
        Limit::new(Alike::new(1024, 0, 0, 0), ample, 0, 0),
        Limit::new(Alike::new(1024, 3, 512, 512), ample, 0, 0),
        Limit::new(Alike::new(1025, 0, 0, 0), ample, 4, 0),
        Limit::new(Alike::new(0, 0, 0, 0), ample, 4, 0),
        Limit::new(Alike::new(1, 1025, 0, 0), ample, 4, 0),
        // Up to the last column.
        Limit::new(Alike::new(5, 1, 4, 1), ample, 0, 0),
        Limit::new(Alike::new(5, 1, 5, 1), ample, 6, 0),
        Limit::new(Alike::new(5, 2, 4, 2), ample, 6, 0),
        // At most 12 active reads.
        Limit::new(Alike::new(2, 12, 0, 2), ample, 0, 0),
        Limit::new(Alike::new(2, 13, 1, 1), ample, 9, 1),
        // As many work entries as `phase` lends.
        Limit::new(Alike::new(128, 8, 0, 128), ample, 0, 0),
        Limit::new(Alike::new(129, 8, 0, 129), ample, 10, 16512),
        // Each room exact, one short, none.
        Limit::new(four, Rooms::lent(24, 27), 0, 0),
        Limit::new(four, Rooms::lent(23, 27), 10, 24),
        Limit::new(four, Rooms::lent(24, 26), 11, 27),
        Limit::new(four, Rooms::lent(0, 0), 10, 24),
        Limit::new(four, Rooms::lent(24, 0), 11, 27),
    ]
}

fn in_version(version: usize, mode: Mode, tally: &mut Tally) {
    let shape = same(version);
    for limit in &limits() {
        limit.hold(shape, mode, tally);
    }
    for (reads, expected) in [(11, Numbers::new(0, 0)), (12, Numbers::new(9, 1))] {
        let block = gapped(shape, reads);
        against_numbers(block.as_slice(), mode, Rooms::ample(), expected, tally);
    }
}

// 1,024 reads without a cell at one column, more than the exhaustive solver has rows for: every side is 0, and a column without entries has
// no letter.
fn most_reads(mode: Mode, tally: &mut Tally) {
    let block = Alike::new(1, 1024, 0, 0).block(same(1));
    let mut marks = [b'0'; 1026];
    marks[1024] = b'-';
    marks[1025] = b'-';
    let stated = Stated::new(&marks, 0, 0, &[0]);
    against_stated(block.as_slice(), mode, stated, tally);
}

// Blocks in ample rooms: each with its number, or 0 with cost 0.
fn numbers(blocks: &[(&[u8], usize)], mode: Mode, tally: &mut Tally) {
    for (block, number) in blocks {
        against_numbers(block, mode, Rooms::ample(), Numbers::new(*number, 0), tally);
    }
}

// A header alone, of m = 1 and n = 0, in each version and those beside them; and without its last byte.
const HEADERS: [(&[u8], usize); 6] = [
    (b"\x00\x00\x00\x00\x04\x00\x01\x00\x00", 2),
    (b"\x01\x00\x00\x00\x04\x00\x01\x00\x00", 0),
    (b"\x02\x00\x00\x00\x04\x00\x01\x00\x00", 0),
    (b"\x03\x00\x00\x00\x04\x00\x01\x00\x00", 2),
    (b"\x01\x00\x00\x00\x03\x00\x01\x00", 1),
    (b"\x02\x00\x00\x00\x03\x00\x01\x00", 1),
];

// One read of version 2. L is 5, the odd length of one cell; 4, the length of one cell of version 1; 3 and 1.
const LENGTHS: [(&[u8], usize); 4] = [
    (
        b"\x02\x00\x00\x00\x0b\x00\x01\x00\x01\x00\x05\x00\x00\x00\x01\x00",
        0,
    ),
    (
        b"\x02\x00\x00\x00\x0a\x00\x01\x00\x01\x00\x04\x00\x00\x00\x01",
        5,
    ),
    (
        b"\x02\x00\x00\x00\x09\x00\x01\x00\x01\x00\x03\x00\x00\x00",
        5,
    ),
    (b"\x02\x00\x00\x00\x08\x00\x01\x00\x01\x00\x01\x00\x00", 5),
];

// Empty reads of version 2: one at column 7. What comes before 38: one that lacks a byte, and a read at a wrong column before one. And
// version 1, at column 7.
const EMPTIES: [(&[u8], usize); 4] = [
    (b"\x02\x00\x00\x00\x08\x00\x01\x00\x01\x00\x02\x00\x07", 38),
    (b"\x02\x00\x00\x00\x07\x00\x01\x00\x01\x00\x02\x00", 5),
    (
        b"\x02\x00\x00\x00\x0f\x00\x01\x00\x02\x00\x05\x00\x01\x00\x00\x01\x00\x02\x00\x00",
        6,
    ),
    (b"\x01\x00\x00\x00\x08\x00\x01\x00\x01\x00\x02\x00\x07", 6),
];

// One read of version 2 with three cells, a hole between the ends: without weight, of weight 1, of weight 256.
const HOLES: [(&[u8], usize); 3] = [
    (
        b"\x02\x00\x00\x00\x11\x00\x03\x00\x01\x00\x0b\x00\x00\x00\x00\x01\x02\x00\x00\x01\x01\x00",
        0,
    ),
    (
        b"\x02\x00\x00\x00\x11\x00\x03\x00\x01\x00\x0b\x00\x00\x00\x00\x01\x02\x00\x01\x01\x01\x00",
        7,
    ),
    (
        b"\x02\x00\x00\x00\x11\x00\x03\x00\x01\x00\x0b\x00\x00\x00\x00\x01\x02\x01\x00\x01\x01\x00",
        7,
    ),
];

// More empty reads of version 2: 1,024, and one behind a sound read.
fn empties(mode: Mode, tally: &mut Tally) {
    Limit::new(Alike::new(1, 1024, 0, 0), Rooms::ample(), 38, 0).hold(same(2), mode, tally);
    let second =
        b"\x02\x00\x00\x00\x0f\x00\x01\x00\x02\x00\x05\x00\x00\x00\x00\x01\x00\x02\x00\x00";
    against_numbers(second, mode, Rooms::ample(), Numbers::new(38, 1), tally);
}

// 65,535 in every entry: the most active reads, and as many columns of four reads as a block here has room for. The costs are from a search
// outside.
fn weights(mode: Mode, tally: &mut Tally) {
    let cost = match mode {
        Mode::General => 33095175,
        Mode::Heterozygous => 55246005,
    };
    let ample = Rooms::ample();
    Limit::new(Alike::new(8, 12, 0, 8), ample, 0, 1834980).hold(heaviest(), mode, tally);
    Limit::new(Alike::new(680, 4, 0, 680), ample, 0, cost).hold(heaviest(), mode, tally);
}

pub fn run(call: &str, mode: Mode, all: &mut Tally) {
    let mut tally = all.fresh();
    numbers(&HEADERS, mode, &mut tally);
    numbers(&LENGTHS, mode, &mut tally);
    numbers(&EMPTIES, mode, &mut tally);
    empties(mode, &mut tally);
    numbers(&HOLES, mode, &mut tally);
    most_reads(mode, &mut tally);
    in_version(1, mode, &mut tally);
    in_version(2, mode, &mut tally);
    weights(mode, &mut tally);
    tally.line(call, "limits", all);
}
