// The exhaustive solver, from the definitions of documents 01 and 02: refusals, table, answer block and margins.
ghost use Rattle.std.specs.Prelude.{◌<◌, ◌≤◌};

use crate::charge::{Column, Mode};
use crate::matrix::{Row, height, rows};
use crate::output::{Output, put_head};
use crate::refusals::{Refusal, check};
use crate::rooms::{Held, Rooms, Table, UNWRITTEN};
use crate::search::{Best, Search};
use fields::{put, word};

// m, n, T and what both rooms need, for a block that passes the checks 1 to 9.
#[derive(Clone, Copy)]
pub struct Sizes {
    m: usize,
    n: usize,
    t: usize,
    pub work: usize,
    pub out: usize,
    ghost few_columns: { m ≤ 1024 },
    ghost few_reads: { n ≤ 16 },
}

// The check 9, for a block that passes 1 to 8: at most 12 active reads at a column. A is the most, so T is 2^11 at most.
fn measure_sound(block: &[u8], m: usize, n: usize) -> Result<Sizes, Refusal>
    requires { (m ≤ 1024) × (n ≤ 16) }
{
    if let Some(j) = (0..m).find(|j| height(block, *j) > 12) {
        return Err(Refusal::Crowded(j));
    }
    let most = (0..m).map(|j| height(block, j)).max().unwrap_or(0);
    let t = 1usize << most.saturating_sub(1).min(11);
    Ok(Sizes {
        m,
        n,
        t,
        work: m.wrapping_mul(t),
        out: 17 + n + 2 * m,
    })
}

// The checks 1 to 9. A block with more reads than this solver has rows for shows as a difference.
pub fn measure(block: &[u8]) -> Result<Sizes, Refusal> {
    check(block)?;
    let m = word(block, 5);
    let n = word(block, 7);
    if m > 1024 {
        return Err(Refusal::Unsolved(m));
    }
    if n > 16 {
        return Err(Refusal::Unsolved(n));
    }
    measure_sound(block, m, n)
}

impl Sizes {
    // The checks 10 and 11.
    fn fit(self, rooms: Rooms) -> Result<Sizes, Refusal> {
        if rooms.work < self.work {
            return Err(Refusal::Work(self.work));
        }
        if rooms.out < self.out {
            return Err(Refusal::Output(self.out));
        }
        Ok(self)
    }
}

// A block's rows, divided at the least cost in a mode.
#[derive(Drop)]
struct Solved {
    rows: [Row; 16],
    sizes: Sizes,
    mode: Mode,
    best: Best,
}

impl Solved {
    fn column(&self, j: usize) -> Column<'_>
        requires { j < 1024 }
    {
        Column {
            rows: &self.rows[..self.sizes.n],
            sides: &self.best.sides,
            mode: self.mode,
            j,
        }
    }

    // The letters of both haplotypes, into the answer block; and the number of flips.
    fn put_letters(&self, answer: &mut Output) -> usize {
        let Sizes { m, n, .. } = self.sizes;
        let mut flips: u32 = 0;
        for j in 0..m {
            let column = self.column(j);
            let one = column.letter(0);
            let two = column.letter(1);
            put(answer, 17 + n + j, one);
            put(answer, 17 + n + m + j, two);
            flips = flips.wrapping_add(column.flips(0, one).wrapping_add(column.flips(1, two)));
        }
        flips as usize
    }

    // The answer block, the sides by read number.
    fn put_answer(&self, answer: &mut Output) {
        let Sizes { m, n, .. } = self.sizes;
        let flips = self.put_letters(answer);
        for (row, side) in self.rows[..n].iter().zip(&self.best.sides) {
            put(answer, row.read.wrapping_add(17), *side);
        }
        put_head(answer, self.best.cost as usize, flips, n, m);
    }

    // The margins of haplotype 1, then those of haplotype 2.
    fn put_margins(&self, margins: &mut Table) {
        let m = self.sizes.m;
        for j in 0..m {
            margins[j] = self.column(j).margin(0);
            margins[m + j] = self.column(j).margin(1);
        }
    }
}

// An entry that no division agrees with is none of its column's 2^(p - 1), and 0.
fn clear_rest(table: &mut Table, count: usize) {
    for entry in table.iter_mut().take(count) {
        if *entry >= UNWRITTEN {
            *entry = 0;
        }
    }
}

// A block that is accepted: the table and the answer block, from the front of each room, and its best division.
fn accept(block: &[u8], sizes: Sizes, mode: Mode, held: &mut Held) -> Solved {
    let rows = rows(block, sizes.n);
    let search = Search {
        rows: &rows[..sizes.n],
        m: sizes.m,
        t: sizes.t,
        mode,
    };
    let best = search.walk(&mut held.work);
    clear_rest(&mut held.work, sizes.work);
    let solved = Solved {
        rows,
        sizes,
        mode,
        best,
    };
    solved.put_answer(&mut held.out);
    solved
}

// Solves a block in a mode, for rooms of these sizes: the cost, and on acceptance the table and the answer block from the front of each
// room.
pub fn solve(block: &[u8], mode: Mode, rooms: Rooms, held: &mut Held) -> Result<usize, Refusal> {
    let sizes = measure(block)?.fit(rooms)?;
    Ok(accept(block, sizes, mode, held).best.cost as usize)
}

// The same in the general mode with a run of so many numbers, which gets the margins from its front.
pub fn solve_margins(
    block: &[u8],
    rooms: Rooms,
    run: usize,
    held: &mut Held,
    margins: &mut Table,
) -> Result<usize, Refusal> {
    let sizes = measure(block)?.fit(rooms)?;
    let need = 2 * sizes.m;
    if run < need {
        return Err(Refusal::Run(need));
    }
    let solved = accept(block, sizes, Mode::General, held);
    solved.put_margins(margins);
    Ok(solved.best.cost as usize)
}
