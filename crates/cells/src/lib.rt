// What a column's active reads bring to its pass.
#![tactic(auto)]

ghost use Rattle.std.specs.Prelude.{◌≡◌, false, [], ℕ, ◌+◌, ◌-◌, ◌*◌, ◌≤◌, ◌<◌, length, get_or};
ghost use Rattle.meaning.specs.Block.{cell_at};
ghost use Rattle.meaning.specs.Active.{read, at};
ghost use Rattle.meaning.specs.Charge.{Letter};
ghost use Rattle.meaning.specs.Refusals.{bad_cell};
ghost use Rattle.layout.specs.Matrices.{matrix_of};
ghost use Rattle.layout.specs.Places.{first_at};
ghost use Rattle.fold.specs.Turn.{starts_before, shared_to, turn_at};
ghost use Rattle.sums.specs.Sums.{pair_at, pair_of, LightPairs};
ghost use Rattle.cells.specs.Laid.{Laid};

// What cell i costs where letter 0 is written, and where letter 1 is: neither above 65,535.
fn weights(shape: layout::Shape, cells: &[u8], i: usize) -> [u32; 2]
    requires { (shape.size * i + shape.size ≤ length cells.now) × (bad_cell (cell_at shape.size cells.now i) ≡ false) }
    ensures value { result ≡ pair_of (cell_at shape.size cells.now i) }
    ensures l_bound { (l : Letter) → pair_at result l ≤ 65535 }
{
    let at = shape.size * i;
    let letter = u32::from(cells[at]);
    let x = shape.weight_at(cells, at);
    let y = x * (letter % 2);
    [y, x - y]
}

// What the active reads of column j, a list of them in closing order, bring to its pass: their weights there, and the masks by which they turn
// the folded index. Gives how many of them are shared with the column before.
pub fn prepare(
    placed: &layout::Placed,
    list: &[u16],
    j: usize,
    w: &mut [[u32; 2]; 12],
    turn: &mut [usize; 12],
) -> usize
    requires { Laid placed.now list.now j }
    ensures value { result ≡ shared_to (starts_before (first_at placed.now.places.now) list.now j) (length list.now) }
    ensures by_index { (i : ℕ) → i < length list.now
        → get_or w.new i [] ≡ pair_of (at (read (matrix_of placed.now.reads) (get_or list.now i 0)) j) }
    ensures light_pairs { LightPairs w.new (length list.now) 65535 }
    ensures by_index_2 { (i : ℕ) → i < length list.now
        → get_or turn.new i 0 ≡ turn_at (starts_before (first_at placed.now.places.now) list.now j) (length list.now) i }
{
    let shape = placed.reads.shape;
    let bytes = placed.reads.bytes;
    let places = placed.places;
    let mut seen: usize = 0;
    let mut head: usize = 0;
    for (i, read) in list.iter().enumerate() {
        let r = usize::from(*read);
        let place = places[r];
        let a = place.start as usize;
        let f = place.first as usize;
        let e = a + shape.size * (place.end as usize - f);
        // its cells begin at its first column
        let x = weights(shape, &bytes[a..e], j - f);
        w[i] = x;
        let b = usize::from(f < j);
        turn[i] = fold::own(seen, b);
        head = fold::lead(seen, head, i);
        seen += b;
    }
    // the others are told from the first shared read: it turns all digits
    turn[head] = plain::entries(seen) - 1;
    seen
}
