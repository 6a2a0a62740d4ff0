// What a builder may answer to a block: ours, another honest answer, or a false one.
ghost use Rattle.std.specs.Prelude.{◌≤◌};

use crate::marks::Marks;
use crate::verdicts::Answer;
use cases::damage::{alter_byte, alter_word, cut, longer};
use cases::random::Chance;
use exhaustive::charge::Mode;
use exhaustive::rooms::{Held, Rooms};
use exhaustive::solver::solve;
use fields::{Bytes, low};
use std::cmp::Ordering;

// Sound answers, and those that state another cost, flip count or mark.
#[derive(Clone, Copy)]
pub enum Kind {
    Ours,
    Flips,
    Exchanged,
    Side,
    Division,
    Letter,
    Ties,
    Cost,
    Dash,
    Mark,
    Counts,
    Byte,
    Cut,
    Behind,
}

// A number below the limit; 0 if there is none.
fn pick(chance: &mut Chance, limit: usize) -> usize
    ensures { result ≤ limit }
{
    if limit == 0 { 0 } else { chance.below(limit) }
}

// The exhaustive solver's answer, of so many bytes; zeros where the block is refused.
fn ours(block: &[u8], size: usize) -> Bytes
    requires { size ≤ 8192 }
{
    let mut held = Held::new();
    let mut bytes = Bytes::new();
    if solve(block, Mode::General, Rooms::ample(), &mut held).is_ok() {
        bytes.push_all(&held.out[..size.min(4096)]);
    }
    bytes.resize(size);
    bytes
}

// An answer to a block.
#[derive(Drop)]
struct Builder<'a> {
    block: &'a [u8],
    marks: Marks,
    bytes: Bytes,
}

impl Builder<'_> {
    fn exchange_side(&mut self, r: usize) {
        let at = self.marks.side(r);
        let other = if self.bytes.byte(at) == 0 { 1 } else { 0 };
        self.bytes.put(at, other);
    }

    fn exchange_sides(&mut self) {
        for r in 0..self.marks.n {
            self.exchange_side(r);
        }
    }

    fn exchange_letters(&mut self) {
        for j in 0..self.marks.m {
            let one = self.marks.letter(0, j);
            let two = self.marks.letter(1, j);
            self.bytes.swap(one, two);
        }
    }

    // Any sides.
    fn put_sides(&mut self, chance: &mut Chance) {
        for r in 0..self.marks.n {
            let at = self.marks.side(r);
            self.bytes.put(at, low(chance.below(2)));
        }
    }

    // The letter that costs a side the least at column j, `-` at a tie.
    fn best(&self, side: usize, j: usize) -> u8 {
        let answer = Answer::new(self.block, self.bytes.room());
        match answer.weight(side, j, 1).cmp(&answer.weight(side, j, 0)) {
            Ordering::Less => 0,
            Ordering::Greater => 1,
            Ordering::Equal => 2,
        }
    }

    fn put_best(&mut self, side: usize, j: usize) {
        let place = self.marks.letter(side, j);
        let letter = self.best(side, j);
        self.bytes.put(place, letter);
    }

    // What the sides and letters cost, as the stated cost.
    fn put_cost(&mut self) {
        let cost = Answer::new(self.block, self.bytes.room()).cost();
        self.bytes.put_four(5, cost);
    }

    // The best letters and the cost of the sides that the answer has.
    fn complete(&mut self) {
        for j in 0..self.marks.m {
            self.put_best(0, j);
            self.put_best(1, j);
        }
        self.put_cost();
    }

    // Where one of the letters stands.
    fn some_letter(&self, chance: &mut Chance) -> usize {
        let letter = pick(chance, 2 * self.marks.m);
        self.marks.letters().wrapping_add(letter)
    }

    // Each `-` may become a letter.
    fn put_ties(&mut self, chance: &mut Chance) {
        for at in self.marks.letters()..self.marks.size() {
            if self.bytes.byte(at) == 2 {
                self.bytes.put(at, low(chance.below(3)));
            }
        }
    }

    // Counts about these, and the length that fits them.
    fn put_counts(&mut self, chance: &mut Chance) {
        let reads = pick(chance, self.marks.n + 2);
        let columns = pick(chance, self.marks.m + 2);
        self.bytes.put_word(13, reads);
        self.bytes.put_word(15, columns);
        self.bytes.resize((17 + reads + 2 * columns).min(8192));
        self.bytes.put_size();
    }

    // One of the sides or letters.
    fn alter_mark(&mut self, chance: &mut Chance) {
        let mark = pick(chance, self.marks.count());
        alter_byte(&mut self.bytes, mark.wrapping_add(17), chance);
    }

    // What makes our answer one of another kind.
    fn alter(&mut self, kind: Kind, chance: &mut Chance) {
        match kind {
            Kind::Ours => {}
            Kind::Flips => alter_word(&mut self.bytes, 11, chance),
            Kind::Exchanged => {
                self.exchange_sides();
                self.exchange_letters();
            }
            Kind::Side => {
                if self.marks.n > 0 {
                    self.exchange_side(chance.below(self.marks.n));
                }
                self.complete();
            }
            Kind::Division => {
                self.put_sides(chance);
                self.complete();
            }
            Kind::Letter => {
                let at = self.some_letter(chance);
                self.bytes.put(at, low(chance.below(2)));
                self.put_cost();
            }
            Kind::Ties => self.put_ties(chance),
            Kind::Cost => alter_word(&mut self.bytes, 5 + 2 * chance.below(2), chance),
            Kind::Dash => {
                let at = self.some_letter(chance);
                self.bytes.put(at, 2);
            }
            Kind::Mark => self.alter_mark(chance),
            Kind::Counts => self.put_counts(chance),
            Kind::Byte => {
                let at = pick(chance, self.bytes.len());
                alter_byte(&mut self.bytes, at, chance);
            }
            Kind::Cut => cut(&mut self.bytes, chance),
            Kind::Behind => longer(&mut self.bytes, chance),
        }
    }
}

// An answer of a kind to a block.
pub fn build(block: &[u8], kind: Kind, chance: &mut Chance) -> Bytes {
    let marks = Marks::of(block);
    let mut builder = Builder {
        block,
        marks,
        bytes: ours(block, marks.size().min(8192)),
    };
    builder.alter(kind, chance);
    builder.bytes
}
