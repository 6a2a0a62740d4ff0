// Where an answer has its sides and letters, its marks: a side for each read, then a letter for each column of either haplotype.
ghost use Rattle.std.specs.Prelude.{◌≤◌};

use fields::word;

// The marks of an answer to n reads of m columns.
#[derive(Clone, Copy)]
pub struct Marks {
    pub n: usize,
    pub m: usize,
    ghost few_reads: { n ≤ 65535 },
    ghost few_columns: { m ≤ 65535 },
}

impl Marks {
    pub fn of(block: &[u8]) -> Marks {
        Marks {
            n: word(block, 7),
            m: word(block, 5),
        }
    }

    pub fn count(self) -> usize
        ensures { result ≤ 196605 }
    {
        self.n + 2 * self.m
    }

    // The bytes of the answer.
    pub fn size(self) -> usize {
        17 + self.count()
    }

    // Where the letters start.
    pub fn letters(self) -> usize
        ensures { result ≤ 65552 }
    {
        17 + self.n
    }

    // Where a read has its side.
    pub fn side(self, r: usize) -> usize {
        r.wrapping_add(17)
    }

    // Where a side has its letter at column j.
    pub fn letter(self, side: usize, j: usize) -> usize {
        if side == 0 {
            self.letters().wrapping_add(j)
        } else {
            (self.letters() + self.m).wrapping_add(j)
        }
    }
}
