// A builder's answer, judged as document 02 says, straight from the bytes of the block and of the answer: the first verdict that applies.
// The least cost, our answer and the table are the exhaustive solver's.
use crate::marks::Marks;
use exhaustive::charge::Mode;
use exhaustive::reads::{Read, Reads};
use exhaustive::refusals::{Numbers, Refusal};
use exhaustive::rooms::{Held, Rooms};
use exhaustive::solver::solve;
use fields::{byte, four, word};

// The verdicts, from 50 on. Too dear is an answer above the least cost.
#[derive(Clone, Copy)]
pub enum Verdict {
    IllFormed,
    OtherCounts,
    NoMark,
    FalseDash,
    FalseCost,
    TooDear { least: usize },
    Optimal,
    Ours,
}

impl From<Verdict> for Numbers {
    fn from(verdict: Verdict) -> Numbers {
        match verdict {
            Verdict::IllFormed => Numbers::new(50, 0),
            Verdict::OtherCounts => Numbers::new(51, 0),
            Verdict::NoMark => Numbers::new(52, 0),
            Verdict::FalseDash => Numbers::new(53, 0),
            Verdict::FalseCost => Numbers::new(54, 0),
            Verdict::TooDear { least } => Numbers::new(55, least),
            Verdict::Optimal => Numbers::new(56, 0),
            Verdict::Ours => Numbers::new(57, 0),
        }
    }
}

// An answer to a block.
#[derive(Clone, Copy)]
pub struct Answer<'a> {
    block: &'a [u8],
    bytes: &'a [u8],
    marks: Marks,
}

// The weight of a read's entry at column j if it has this letter, otherwise 0.
fn weight_of(read: Read<'_>, j: usize, letter: usize) -> usize {
    match j.checked_sub(read.first_column()) {
        Some(i) if i < read.cells() && read.letter(i) == letter => read.weight(i),
        _ => 0,
    }
}

impl<'a> Answer<'a> {
    pub fn new(block: &'a [u8], bytes: &'a [u8]) -> Answer<'a> {
        Answer {
            block,
            bytes,
            marks: Marks::of(block),
        }
    }

    // The weights of a side's entries with this letter at column j, summed; the sides are the answer's.
    pub fn weight(&self, side: usize, j: usize, letter: usize) -> usize {
        Reads::of(self.block)
            .filter(|read| byte(self.bytes, self.marks.side(read.number)) == side)
            .fold(
                0,
                |total: usize, read| total.wrapping_add(weight_of(read, j, letter)),
            )
    }

    // A side's letter at column j.
    fn letter(&self, side: usize, j: usize) -> usize {
        byte(self.bytes, self.marks.letter(side, j))
    }

    // The weight of a side's entries at column j that disagree with its letter. A `-` costs either sum: that of 1 is taken.
    fn side_cost(&self, side: usize, j: usize) -> usize {
        let disagrees = if self.letter(side, j) == 0 { 1 } else { 0 };
        self.weight(side, j, disagrees)
    }

    // The weight of all entries that disagree.
    pub fn cost(&self) -> usize {
        (0..self.marks.m).fold(0, |total: usize, j| {
            total
                .wrapping_add(self.side_cost(0, j))
                .wrapping_add(self.side_cost(1, j))
        })
    }

    // A `-` where the side's sums differ.
    fn false_dash(&self, side: usize, j: usize) -> bool {
        self.letter(side, j) == 2 && self.weight(side, j, 0) != self.weight(side, j, 1)
    }

    // Under 17 bytes, another version, or a length field that does not fit the bytes or the answer's own n and m.
    fn is_ill_formed(&self) -> bool {
        if self.bytes.len() < 17 || byte(self.bytes, 0) != 2 {
            return true;
        }
        let length = four(self.bytes, 1);
        let counted = 12 + word(self.bytes, 13) + 2 * word(self.bytes, 15);
        length != self.bytes.len() - 5 || length != counted
    }

    // Whether one of so many bytes from a place on is above the most.
    fn is_above(&self, from: usize, count: usize, most: u8) -> bool {
        self.bytes
            .iter()
            .skip(from)
            .take(count)
            .any(|mark| *mark > most)
    }

    // The verdicts 50 to 52.
    fn check_form(&self) -> Result<(), Verdict> {
        if self.is_ill_formed() {
            return Err(Verdict::IllFormed);
        }
        let Marks { n, m, .. } = self.marks;
        if word(self.bytes, 13) != n || word(self.bytes, 15) != m {
            return Err(Verdict::OtherCounts);
        }
        if self.is_above(17, n, 1) || self.is_above(self.marks.letters(), 2 * m, 2) {
            return Err(Verdict::NoMark);
        }
        Ok(())
    }

    // The verdicts 53 and 54.
    fn check_claims(&self) -> Result<(), Verdict> {
        if (0..self.marks.m).any(|j| self.false_dash(0, j) || self.false_dash(1, j)) {
            return Err(Verdict::FalseDash);
        }
        if self.cost() != four(self.bytes, 5) {
            return Err(Verdict::FalseCost);
        }
        Ok(())
    }

    // The verdicts 50 to 55, with the least cost.
    fn check(&self, least: usize) -> Result<(), Verdict> {
        self.check_form()?;
        self.check_claims()?;
        if four(self.bytes, 5) > least {
            return Err(Verdict::TooDear { least });
        }
        Ok(())
    }

    // Whether sides and letters are ours.
    fn has_marks(&self, ours: &[u8]) -> bool {
        let pairs = self.bytes.iter().zip(ours);
        let mut marks = pairs.skip(17).take(self.marks.count());
        marks.all(|(mark, own)| mark == own)
    }

    // The verdict, where the block is accepted, with the least cost and our answer.
    fn verdict(&self, least: usize, ours: &[u8]) -> Verdict {
        match self.check(least) {
            Err(verdict) => verdict,
            Ok(()) if self.has_marks(ours) => Verdict::Ours,
            Ok(()) => Verdict::Optimal,
        }
    }
}

fn judged(block: &[u8], answer: &[u8], rooms: Rooms, held: &mut Held) -> Result<Verdict, Refusal> {
    let least = solve(block, Mode::General, rooms, held)?;
    Ok(Answer::new(block, answer).verdict(least, &held.out))
}

// Both numbers for rooms of these sizes, and the table in the work room if the block is accepted.
pub fn judging(block: &[u8], answer: &[u8], rooms: Rooms, held: &mut Held) -> Numbers {
    match judged(block, answer, rooms, held) {
        Ok(verdict) => Numbers::from(verdict),
        Err(refusal) => Numbers::from(refusal),
    }
}
