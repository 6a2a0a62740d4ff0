// What is stated of the examples, in each mode. In the general mode the costs, flips, sides and letters of P1 to P9 and the tables of P1
// and P2 are those of document 01, with `-` for the letter of a tie; the others are from a search outside.
use crate::examples::Example;

// Sides and haplotypes, the cost, the flips, and the entries of the table.
#[derive(Clone, Copy)]
pub struct Stated<'a> {
    pub marks: &'a [u8],
    pub cost: usize,
    pub flips: usize,
    pub entries: &'a [u32],
}

impl<'a> Stated<'a> {
    pub fn new(marks: &'a [u8], cost: usize, flips: usize, entries: &'a [u32]) -> Stated<'a> {
        Stated {
            marks,
            cost,
            flips,
            entries,
        }
    }
}

pub fn general(example: Example) -> Stated<'static> {
    match example {
        Example::P1 => Stated::new(b"1000 10 0-", 1, 1, &[5, 3, 0, 5, 1, 3, 1, 4]),
        Example::P2 => Stated::new(
            b"001 000 111",
            3,
            1,
            &[5, 4, 0, 5, 10, 4, 0, 10, 15, 4, 3, 15],
        ),
        Example::P3 => Stated::new(b"- -", 0, 0, &[0]),
        Example::P4 => Stated::new(b"0 0 -", 0, 0, &[0]),
        Example::P5 => Stated::new(b"01 0 1", 0, 0, &[5, 0]),
        Example::P6 => Stated::new(b"00 0 -", 0, 0, &[0, 0]),
        Example::P7 => Stated::new(b"00 - -", 0, 1, &[0, 0]),
        Example::P8 => Stated::new(b"0 1- --", 0, 0, &[0, 0]),
        Example::OtherCost => Stated::new(b"01 000 110", 0, 0, &[9, 0, 18, 0, 18, 0]),
        Example::OtherSides => Stated::new(b"01 01 11", 0, 0, &[1, 0, 1, 0]),
        Example::OtherFlips => Stated::new(b"01 0- 1-", 0, 1, &[9, 0, 9, 0]),
        Example::P9 => Stated::new(b"00 0 -", 0, 0, &[0]),
        Example::Heavy => Stated::new(
            b"1000 10 0-",
            256,
            1,
            &[1280, 768, 0, 1280, 256, 768, 256, 1024],
        ),
    }
}

pub fn heterozygous(example: Example) -> Stated<'static> {
    match example {
        Example::P1 => Stated::new(b"1000 10 01", 1, 1, &[5, 3, 0, 6, 1, 3, 2, 5]),
        Example::P2 => Stated::new(
            b"001 000 111",
            3,
            1,
            &[5, 4, 0, 5, 10, 4, 0, 10, 15, 4, 3, 15],
        ),
        Example::P3 => Stated::new(b"- -", 0, 0, &[0]),
        Example::P4 => Stated::new(b"0 0 1", 0, 0, &[0]),
        Example::P5 => Stated::new(b"01 0 1", 0, 0, &[5, 0]),
        Example::P6 => Stated::new(b"00 0 1", 0, 0, &[0, 3]),
        Example::P7 => Stated::new(b"00 - -", 0, 1, &[0, 0]),
        Example::P8 => Stated::new(b"0 1- 0-", 0, 0, &[0, 0]),
        Example::OtherCost => Stated::new(b"01 00- 11-", 5, 1, &[9, 0, 18, 0, 18, 5]),
        Example::OtherSides => Stated::new(b"00 11 00", 1, 1, &[1, 0, 1, 1]),
        Example::OtherFlips => Stated::new(b"01 0- 1-", 0, 2, &[9, 0, 9, 0]),
        Example::P9 => Stated::new(b"00 0 1", 0, 0, &[0]),
        Example::Heavy => Stated::new(
            b"1000 10 01",
            256,
            1,
            &[1280, 768, 0, 1536, 256, 768, 512, 1280],
        ),
    }
}
