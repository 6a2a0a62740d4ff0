// The matrices of P1 to P9 of document 01, and three where the modes differ, as blocks of a version.
ghost use Rattle.std.specs.Prelude.{◌≤◌};

use fields::{Bytes, low};

// P1 to P8; three where the modes differ, in the cost and in `-`, in the sides, and in the flips alone; and those that only one version
// has, P9 and P1 256 times as heavy.
#[derive(Clone, Copy)]
pub enum Example {
    P1,
    P2,
    P3,
    P4,
    P5,
    P6,
    P7,
    P8,
    OtherCost,
    OtherSides,
    OtherFlips,
    P9,
    Heavy,
}

const EXAMPLES: [Example; 13] = [
    Example::P1,
    Example::P2,
    Example::P3,
    Example::P4,
    Example::P5,
    Example::P6,
    Example::P7,
    Example::P8,
    Example::OtherCost,
    Example::OtherSides,
    Example::OtherFlips,
    Example::P9,
    Example::Heavy,
];

// P1 as the 37 bytes of document 01, a read a line.
pub const P1_VERSION_1: [u8; 37] = *b"\x01\x00\x00\x00\x20\x00\x02\x00\x04\
    \x00\x04\x00\x00\x00\x05\
    \x00\x06\x00\x00\x01\x03\x00\x02\
    \x00\x06\x00\x00\x01\x06\x01\x01\
    \x00\x04\x00\x01\x00\x02";

// P1 in version 2.
pub const P1_VERSION_2: [u8; 43] = *b"\x02\x00\x00\x00\x26\x00\x02\x00\x04\
    \x00\x05\x00\x00\x00\x00\x05\
    \x00\x08\x00\x00\x01\x00\x03\x00\x00\x02\
    \x00\x08\x00\x00\x01\x00\x06\x01\x00\x01\
    \x00\x05\x00\x01\x00\x00\x02";

// P1 with its weights in the higher of two bytes, so 256 times as heavy.
const P1_HEAVY: [u8; 43] = *b"\x02\x00\x00\x00\x26\x00\x02\x00\x04\
    \x00\x05\x00\x00\x00\x05\x00\
    \x00\x08\x00\x00\x01\x03\x00\x00\x02\x00\
    \x00\x08\x00\x00\x01\x06\x00\x01\x01\x00\
    \x00\x05\x00\x01\x00\x02\x00";

// The value of a digit of the text.
fn digit(cell: &[u8], at: usize) -> u8 {
    cell.get(at).map_or(0, |d| d.saturating_sub(b'0'))
}

// A read from the first column on: cells as `0:5`, a hole as `2:0`, blanks between.
fn push_row(bytes: &mut Bytes, version: usize, text: &str) {
    let at = bytes.len();
    bytes.push_word(0);
    bytes.push_word(0);
    for cell in text.as_bytes().chunks(4) {
        bytes.push_cell(version, digit(cell, 0), usize::from(digit(cell, 2)));
    }
    bytes.put_length(at);
}

// A block of m columns, a text for each read.
fn of_rows(version: usize, m: usize, rows: &[&str]) -> Bytes {
    let mut bytes = Bytes::of_header(version, m, rows.len());
    for row in rows {
        push_row(&mut bytes, version, row);
    }
    bytes.put_size();
    bytes
}

fn of_bytes(block: &[u8]) -> Bytes {
    let mut bytes = Bytes::new();
    bytes.push_all(block);
    bytes
}

// P1: 0:5 . / 1:3 0:2 / 1:6 1:1 / . 0:2
fn p1(version: usize) -> Bytes {
    if version == 2 {
        of_bytes(&P1_VERSION_2)
    } else {
        of_bytes(&P1_VERSION_1)
    }
}

impl Example {
    // Whether a version has the example.
    fn stands_in(self, version: usize) -> bool {
        match self {
            Example::P9 => version == 1,
            Example::Heavy => version == 2,
            _ => true,
        }
    }

    fn block(self, version: usize) -> Bytes {
        match self {
            Example::P1 => p1(version),
            Example::P2 => of_rows(version, 3, &["0:4 2:0 1:3", "0:5 0:5 0:5", "1:5 1:5 1:5"]),
            Example::P3 => of_rows(version, 1, &[]),
            Example::P4 => of_rows(version, 1, &["0:7"]),
            Example::P5 => of_rows(version, 1, &["0:5", "1:5"]),
            Example::P6 => of_rows(version, 1, &["0:3", "0:3"]),
            Example::P7 => of_rows(version, 1, &["0:0", "1:0"]),
            Example::P8 => of_rows(version, 2, &["1:4"]),
            Example::OtherCost => of_rows(version, 3, &["0:9 0:9 0:5", "1:9 1:9 0:5"]),
            Example::OtherSides => of_rows(version, 2, &["0:1 1:1", "1:4 1:4"]),
            Example::OtherFlips => of_rows(version, 2, &["0:9 0:0", "1:9 1:0"]),
            Example::P9 => of_rows(version, 1, &["", "0:7"]),
            Example::Heavy => of_bytes(&P1_HEAVY),
        }
    }
}

// Every example in each version that has it.
pub fn each<F: FnMut(Example, &[u8])>(mut try_one: F)
    requires { F.IsAlwaysCallable try_one }
{
    for version in 1..=2 {
        for example in EXAMPLES {
            if example.stands_in(version) {
                try_one(example, example.block(version).as_slice());
            }
        }
    }
}
