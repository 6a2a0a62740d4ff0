// One division at one column: the sums of weights, the charge, the letters and the flips, each from the entries themselves.
ghost use Rattle.std.specs.Prelude.{◌<◌};

use crate::matrix::{Entry, Row};
use std::cmp::Ordering;

// In the all-heterozygous mode the two sides have different letters at every column, in the general mode any.
#[derive(Clone, Copy)]
pub enum Mode {
    General,
    Heterozygous,
}

// The side of each row.
pub type Sides = [u8; 16];

// The other side or letter.
fn other(x: u8) -> u8 {
    if x == 0 { 1 } else { 0 }
}

// Column j of the rows, divided into sides.
#[derive(Clone, Copy)]
pub struct Column<'a> {
    pub rows: &'a [Row],
    pub sides: &'a Sides,
    pub mode: Mode,
    pub j: usize,
    ghost inside: { j < 1024 },
}

impl Column<'_> {
    // What is counted of the entries of a side with this letter, summed. No sum comes near the end of its type.
    fn sum<F: Fn(Entry) -> u32>(&self, side: u8, letter: u8, count: F) -> u32
        requires { F.IsAlwaysCallable count }
    {
        let mut total: u32 = 0;
        for (row, stands) in self.rows.iter().zip(self.sides) {
            if let Some(entry) = row.entries[self.j] {
                if *stands == side && entry.letter == letter {
                    total = total.wrapping_add(count(entry));
                }
            }
        }
        total
    }

    // The weights of a side's entries with this letter.
    fn weight(&self, side: u8, letter: u8) -> u32 {
        self.sum(side, letter, |entry| u32::from(entry.weight))
    }

    // What a letter of a side costs: W0 or W1, the weight of the side's entries with the other letter. In the all-heterozygous mode the
    // other side has the other letter then, and what that costs is added.
    fn letter_cost(&self, side: u8, letter: u8) -> u32 {
        let own = self.weight(side, other(letter));
        match self.mode {
            Mode::General => own,
            Mode::Heterozygous => own.wrapping_add(self.weight(other(side), letter)),
        }
    }

    // The lesser of the two sums that a side's letter is chosen from.
    fn side_charge(&self, side: u8) -> u32 {
        self.letter_cost(side, 0).min(self.letter_cost(side, 1))
    }

    // In the all-heterozygous mode the sums of either side are those of both.
    pub fn charge(&self) -> u32 {
        match self.mode {
            Mode::General => self.side_charge(0).wrapping_add(self.side_charge(1)),
            Mode::Heterozygous => self.side_charge(0),
        }
    }

    // The letter of a side: 0 or 1, whichever costs less, and 2, printed `-`, if they cost the same.
    pub fn letter(&self, side: u8) -> u8 {
        match self.letter_cost(side, 0).cmp(&self.letter_cost(side, 1)) {
            Ordering::Less => 0,
            Ordering::Greater => 1,
            Ordering::Equal => 2,
        }
    }

    // How far the two sums of a side are apart, each from the side's own entries.
    pub fn margin(&self, side: u8) -> u32 {
        self.weight(side, 0).abs_diff(self.weight(side, 1))
    }

    // The letter that flips are counted against: `-` is 1, but on side 1 of the all-heterozygous mode the complement of side 0's 1.
    fn counted(&self, side: u8, letter: u8) -> u8 {
        match self.mode {
            _ if letter < 2 => letter,
            Mode::General => 1,
            Mode::Heterozygous => other(side),
        }
    }

    // The entries of a side that differ from its letter, whatever their weight.
    pub fn flips(&self, side: u8, letter: u8) -> u32 {
        self.sum(side, other(self.counted(side, letter)), |_| 1)
    }
}
