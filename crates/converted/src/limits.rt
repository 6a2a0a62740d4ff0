// Blocks whose outcome is stated, with rooms on both sides of what is needed.
use crate::held::against_numbers;
use cases::alike::{Alike, same};
use exhaustive::converter::converted;
use exhaustive::refusals::Numbers;
use report::lines::Tally;
use report::same::same_items;

// A block that needs so many bytes: in a room of just these, of one less, and in none.
fn around(block: &[u8], bytes: usize, tally: &mut Tally) {
    let short = Numbers::new(39, bytes);
    against_numbers(block, bytes, Numbers::new(0, 0), tally);
    against_numbers(block, bytes.saturating_sub(1), short, tally);
    against_numbers(block, 0, short, tally);
}

// A block that becomes the stated bytes, by the converter of `exhaustive` and so by the other.
fn becomes(block: &[u8], bytes: &[u8], tally: &mut Tally) {
    same_items("output byte", converted(block).as_slice(), bytes, tally);
    around(block, bytes.len(), tally);
}

// P9; 0:0 . 1:255 / c = 0 / . . 1:7 / c = 0; and nothing but c = 0 / c = 0 in three columns.
fn examples(tally: &mut Tally) {
    let p9 = b"\x01\x00\x00\x00\x0e\x00\x01\x00\x02\x00\x02\x00\x00\x00\x04\x00\x00\x00\x07";
    let new_p9 = b"\x02\x00\x00\x00\x0b\x00\x01\x00\x01\x00\x05\x00\x00\x00\x00\x07";
    becomes(p9, new_p9, tally);
    let between = b"\x01\x00\x00\x00\x1c\x00\x03\x00\x04\
        \x00\x08\x00\x00\x00\x00\x02\x00\x01\xff\
        \x00\x02\x00\x00\
        \x00\x04\x00\x02\x01\x07\
        \x00\x02\x00\x00";
    let new_between = b"\x02\x00\x00\x00\x18\x00\x03\x00\x02\
        \x00\x0b\x00\x00\x00\x00\x00\x02\x00\x00\x01\x00\xff\
        \x00\x05\x00\x02\x01\x00\x07";
    becomes(between, new_between, tally);
    let empty = b"\x01\x00\x00\x00\x0c\x00\x03\x00\x02\x00\x02\x00\x00\x00\x02\x00\x00";
    becomes(empty, b"\x02\x00\x00\x00\x04\x00\x03\x00\x00", tally);
}

// In no room, since nothing is asked of the room before the block has passed: eight bytes; version 2, sound, then with a wrong length
// field; a wrong length field; the second read empty at column 7. Each with both numbers.
const REFUSED: [(&[u8], usize, usize); 5] = [
    (b"\x02\x00\x00\x00\x03\x00\x01\x00", 1, 0),
    (b"\x02\x00\x00\x00\x04\x00\x01\x00\x00", 2, 0),
    (b"\x02\x00\x00\x00\x05\x00\x01\x00\x00", 2, 0),
    (b"\x01\x00\x00\x00\x05\x00\x01\x00\x00", 3, 0),
    (
        b"\x01\x00\x00\x00\x0e\x00\x01\x00\x02\x00\x04\x00\x00\x00\x01\x00\x02\x00\x07",
        6,
        1,
    ),
];

fn refusals(tally: &mut Tally) {
    for (block, number, second) in &REFUSED {
        against_numbers(block, 0, Numbers::new(*number, *second), tally);
    }
}

// n reads of c cells from column 0 on, and how many bytes the new block needs: the most reads, none kept, then all, which are more active
// reads than are solved; the most cells of a read; as many bytes as a block here has room for.
fn sizes(tally: &mut Tally) {
    for (m, n, c, bytes) in [
        (1, 1024, 0, 9),
        (1, 1024, 1, 7177),
        (1024, 1, 1024, 3085),
        (680, 4, 680, 8185),
    ] {
        let block = Alike::new(m, n, 0, c).block(same(1));
        around(block.as_slice(), bytes, tally);
    }
}

pub fn run(call: &str, all: &mut Tally) {
    let mut tally = all.fresh();
    examples(&mut tally);
    refusals(&mut tally);
    sizes(&mut tally);
    tally.line(call, "limits", all);
}
