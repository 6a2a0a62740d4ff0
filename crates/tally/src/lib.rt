// The tally of the reads' cells for sides: one pass over the reads. `letters` reads each column's sums, letters and flips off it.
#![tactic(auto)]

ghost use Rattle.std.specs.Prelude.{◌≡◌, false, ℕ, ◌+◌, ◌*◌, ◌-◌, ◌/◌, ◌≤◌, ◌<◌, length, get_or};
ghost use Rattle.meaning.specs.Block.{cell_at};
ghost use Rattle.meaning.specs.Division.{Side};
ghost use Rattle.meaning.specs.Charge.{Letter};
ghost use Rattle.meaning.specs.Refusals.{bad_cell};
ghost use Rattle.layout.specs.Matrices.{matrix_of};
ghost use Rattle.layout.specs.Lists.{Thin};
ghost use Rattle.layout.specs.Places.{read_from};
ghost use Rattle.sums.specs.Sums.{side_of};
ghost use Rattle.tally.specs.Tally.{unit, place, Tallied, ReadAdded};

// What a cell adds to its tally: one entry and its weight. A hole has no weight, and adds nothing. No branch, for the loop below is hot.
fn added(letter: usize, weight: u32) -> u32
    requires { (letter ≤ 2) × (weight ≤ 65535) }
    ensures { result ≡ weight + (1 - letter / 2) * unit }
{
    weight + ((1 - letter / 2) as u32) * 1048576
}

// The cells of one read, from column `from` to the column before `to`. The tally is flat, four numbers a column: its run is the one in which
// columns take over.
fn tally_read(
    shape: layout::Shape,
    cells: &[u8],
    from: usize,
    to: usize,
    side: usize,
    tally: &mut [u32],
)
    requires columns { (from ≤ to) × (length cells.now ≡ shape.size * (to - from))
        × (4 * to ≤ length tally.old) × (side ≤ 1) }
    requires sound { (i : ℕ) → i < to - from → bad_cell (cell_at shape.size cells.now i) ≡ false }
    requires room { (j : ℕ) (s : Side) (l : Letter) → get_or tally.old (place j s l) 0 ≤ 2000000000 }
    ensures { ReadAdded (read_from shape.size from (to - from) cells.now) (side_of side)
        tally.old tally.new }
{
    let mut at = 4 * from + 2 * side;
    for i in 0..to - from {
        let cell = shape.size * i;
        let letter = usize::from(cells[cell]);
        let weight = shape.weight_at(cells, cell);
        let k = at + letter % 2;
        tally[k] += added(letter, weight);
        at += 4;
    }
}

// Side 1 or side 0 by its byte.
fn side_of(b: u8) -> usize
    ensures { (result ≤ 1) × (side_of result ≡ side_of b) }
{
    usize::from(b == 1)
}

// The cells of all reads, each on its side; no column has more than 12. The tally is cleared first.
pub fn tally(placed: &layout::Placed, sides: &[u8], tally: &mut [u32])
    requires thin { Thin (matrix_of placed.now.reads) }
    requires room { (placed.now.reads.shape.n ≤ length sides.now)
        × (4 * placed.now.reads.shape.m ≤ length tally.old) }
    ensures { Tallied (matrix_of placed.now.reads) sides.now tally.new }
{
    tally.fill(0);
    let shape = placed.reads.shape;
    for r in 0..shape.n {
        let place = placed.places[r];
        let s = place.start as usize;
        let f = place.first as usize;
        let t = place.end as usize;
        let e = s + shape.size * (t - f);
        // A read's cells are a part of the block, as document 01 asks.
        let cells = &placed.reads.bytes[s..e];
        tally_read(shape, cells, f, t, side_of(sides[r]), tally);
    }
}
