// A builder's answer whose counts are those of the reads: the checks 53 and 54, and its letters.
ghost use Rattle.std.specs.Prelude.{◌≡◌, ℕ, Bool, ◌<◌};
ghost use Rattle.meaning.specs.Numbers.{any_to};
ghost use Rattle.meaning.specs.Division.{Side};
ghost use Rattle.meaning.specs.Letters.{disagreement};
ghost use Rattle.meaning.specs.Judge.{stated_division, stated_haplotypes, false_dash, wrong_cost};
ghost use Rattle.layout.specs.Matrices.{matrix_of};
ghost use Rattle.stated.specs.Stated.{Sized, StatedTally, StandsAt, Stands, either_side, other_letters};

use crate::{ColumnAt, SideAt};
use layout::Reads;

// The answer, the reads, and the reads' tally for the answer's sides.
#[derive(Clone, Copy)]
pub struct Stated<'a> {
    pub reads: Reads<'a>,
    pub tally: &'a [u32],
    pub answer: &'a [u8],
    ghost tallied: { StatedTally (matrix_of reads) answer.now tally.now },
    ghost sized: { Sized answer.now reads.shape.m reads.shape.n },
}

impl<'a> Stated<'a> {
    // What the builder's answer has at column j.
    fn column_at(&self, j: usize) -> ColumnAt
        requires { j < self.now.reads.shape.m }
        ensures { Stands (matrix_of self.now.reads) self.now.answer.now j result }
    {
        let s = letters::sums(self.tally, j);
        let a = 17 + self.reads.shape.n;
        let b = a + self.reads.shape.m;
        let x = self.answer[a + j];
        let y = self.answer[b + j];
        ColumnAt {
            first: SideAt {
                w0: s[0][0],
                w1: s[0][1],
                letter: x,
            },
            second: SideAt {
                w0: s[1][0],
                w1: s[1][1],
                letter: y,
            },
        }
    }

    // Whether a test passes on one of the two sides of some column.
    fn any_side<F: Fn(SideAt) -> bool>(&self, test: F) -> bool
        requires { F.IsAlwaysCallable test }
        ensures { (passes : ℕ → Side → Bool)
            → ((j : ℕ) (s : Side) (x : SideAt) (r : Bool) → StandsAt (matrix_of self.now.reads) self.now.answer.now j s x
            → F.post test x r → r ≡ passes j s)
            → result ≡ any_to self.now.reads.shape.m (either_side passes) }
    {
        for j in 0..self.reads.shape.m {
            let c = self.column_at(j);
            if test(c.first) {
                return true;
            }
            if test(c.second) {
                return true;
            }
        }
        false
    }

    // 53: a `-` where that side's sums differ.
    pub fn false_dash(&self) -> bool
        ensures { result ≡ false_dash (matrix_of self.now.reads) self.now.answer.now }
    {
        self.any_side(|x| x.dash())
    }

    // The weight of the entries that disagree with the builder's haplotypes.
    fn weight(&self) -> u32
        ensures { result ≡ disagreement (matrix_of self.now.reads)
            (stated_division self.now.answer.now) (stated_haplotypes self.now.answer.now) }
    {
        let mut total: u32 = 0;
        for j in 0..self.reads.shape.m {
            let c = self.column_at(j);
            total += c.first.against() + c.second.against();
        }
        total
    }

    // 54: the stated cost is not that weight.
    pub fn wrong_cost(&self) -> bool
        ensures { result ≡ wrong_cost (matrix_of self.now.reads) self.now.answer.now }
    {
        layout::long_at(self.answer, 5) != self.weight() as usize
    }

    // Some letter is not the one reported for the builder's sides.
    pub fn other_letters(&self) -> bool
        ensures { result ≡ other_letters (matrix_of self.now.reads) self.now.answer.now }
    {
        self.any_side(|x| x.other_letter())
    }
}
