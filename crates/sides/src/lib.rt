// The table of reads that are ready, and the sides of all reads: the way back through it, from its last column to its first.
#![tactic(auto)]

ghost use Rattle.std.specs.Prelude.{◌≡◌, ℕ, ◌*◌, ◌≤◌, ◌<◌, length, get_or};
ghost use Rattle.meaning.specs.Numbers.{bit};
ghost use Rattle.meaning.specs.Active.{entries};
ghost use Rattle.meaning.specs.Answer.{sides_of, division_of};
ghost use Rattle.layout.specs.Matrices.{matrix_of};
ghost use Rattle.sides.specs.Ways.{column_entries, table_least, back_at, table_division};

use layout::Listed;

// The reads, and a work room in which column j owns the `t` entries from j * `t`: `t` is T. What the entries hold is left open.
#[derive(Clone, Copy)]
pub struct Table<'a> {
    pub listed: Listed<'a>,
    pub t: usize,
    pub work: &'a [u32],
    ghost entries_are: { t ≡ entries (matrix_of listed.reads) },
    ghost room: { listed.reads.shape.m * t ≤ length work.now },
}

impl<'a> Table<'a> {
    // The entries of column j that stand for divisions: the rest of its T lie behind them.
    fn column_entries(&self, j: usize) -> &[u32]
        requires { j < self.now.listed.reads.shape.m }
        ensures { result.now ≡ column_entries (matrix_of self.now.listed.reads) self.now.work.now j }
    {
        let p = self.listed.active_reads(j).len();
        let from = j * self.t;
        let to = from + plain::entries(p);
        &self.work[from..to]
    }

    // One column of the way back: the reads that close at column j get the first sides in closing order that have the least entry.
    fn back_at(&self, j: usize, sides: &mut [u8])
        requires j_lt_m { j < self.now.listed.reads.shape.m }
        requires n_in_bounds { self.now.listed.reads.shape.n ≤ length sides.old }
        requires by_index { (r : ℕ) → get_or sides.old r 0 ≤ 1 }
        ensures { (r : ℕ) → get_or sides.new r 0
            ≡ bit (back_at (matrix_of self.now.listed.reads) self.now.work.now j (division_of sides.old) r) }
    {
        let list = self.listed.active_reads(j);
        let s = back::going_on(list, self.listed.places, j);
        back::settle(self.column_entries(j), list, s, sides);
    }

    // The way back through all columns, from all reads on side 0.
    fn way_back(&self, sides: &mut [u8])
        requires n_value { self.now.listed.reads.shape.n ≡ length sides.old }
        requires by_index { (r : ℕ) → get_or sides.old r 0 ≡ 0 }
        ensures { sides.new
            ≡ sides_of (matrix_of self.now.listed.reads) (table_division (matrix_of self.now.listed.reads) self.now.work.now) }
    {
        for j in (0..self.listed.reads.shape.m).rev() {
            self.back_at(j, sides);
        }
    }

    // The least entry of the last column.
    pub fn least_last(&self) -> u32
        ensures { result ≡ table_least (matrix_of self.now.listed.reads) self.now.work.now }
    {
        back::least_from(self.column_entries(self.listed.reads.shape.m - 1), 0, 1)
    }

    // The sides of all reads, by the way back.
    pub fn write_sides(&self, sides: &mut [u8])
        requires { self.now.listed.reads.shape.n ≡ length sides.old }
        ensures { sides.new
            ≡ sides_of (matrix_of self.now.listed.reads) (table_division (matrix_of self.now.listed.reads) self.now.work.now) }
    {
        sides.fill(0);
        self.way_back(sides);
    }
}
