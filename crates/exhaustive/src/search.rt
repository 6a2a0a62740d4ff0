// All divisions of all n reads, one after the other in closing order: the least sum for every table entry that a division agrees with,
// and the first of the cheapest divisions.
ghost use Rattle.std.specs.Prelude.{◌≤◌, length};

use crate::charge::{Column, Mode, Sides};
use crate::matrix::Row;
use crate::rooms::Table;

// The first of the cheapest divisions.
#[derive(Clone, Copy)]
pub struct Best {
    pub sides: Sides,
    pub cost: u32,
}

// The rows and m columns that are searched in a mode, T table entries a column.
#[derive(Clone, Copy)]
pub struct Search<'a> {
    pub rows: &'a [Row],
    pub m: usize,
    pub t: usize,
    pub mode: Mode,
    ghost few_rows: { length rows.now ≤ 16 },
    ghost few_columns: { m ≤ 1024 },
}

// The entry itself; what would lie behind the room goes to the entry that is never lent, and shows there.
fn spot(at: usize) -> usize
    ensures { result ≤ 16384 }
{
    at.min(16384)
}

// The division at a place in closing order: the first row's side is the highest of n binary digits.
fn divide(place: usize, n: usize) -> Sides
    requires { n ≤ 16 }
{
    let mut sides = [0; 16];
    for i in 0..n {
        sides[n - 1 - i] = ((place >> i) % 2) as u8;
    }
    sides
}

impl Search<'_> {
    // The entry that the sides agree with at column j; none where the first active row is on side 1. Rows stand in closing order: the
    // first active one is a0, and the digits of the others are 1, 2, 4, ..
    fn entry(&self, sides: &Sides, j: usize) -> Option<usize> {
        let mut k: usize = 0;
        let mut digit: usize = 0;
        for (row, side) in self.rows.iter().zip(sides) {
            if row.columns.contains(&j) {
                if *side == 1 {
                    if digit == 0 {
                        return None;
                    }
                    k = k.wrapping_add(digit);
                }
                digit = digit.wrapping_mul(2).max(1);
            }
        }
        Some(k)
    }

    // One division: its charges column by column, their sums kept in the table where they are the least; and its cost.
    fn follow(&self, sides: &Sides, table: &mut Table) -> u32 {
        let mut total: u32 = 0;
        let mut from: usize = 0;
        for j in 0..self.m {
            let column = Column {
                rows: self.rows,
                sides,
                mode: self.mode,
                j,
            };
            total = total.wrapping_add(column.charge());
            if let Some(k) = self.entry(sides, j) {
                let at = spot(from.wrapping_add(k));
                table[at] = table[at].min(total);
            }
            from = from.wrapping_add(self.t);
        }
        total
    }

    // All 2^n divisions in closing order, and the first of the cheapest.
    pub fn walk(&self, table: &mut Table) -> Best {
        let n = self.rows.len();
        let mut best = Best {
            sides: [0; 16],
            cost: u32::MAX,
        };
        for place in 0..1usize << n {
            let sides = divide(place, n);
            let cost = self.follow(&sides, table);
            if cost < best.cost {
                best = Best { sides, cost };
            }
        }
        best
    }
}
