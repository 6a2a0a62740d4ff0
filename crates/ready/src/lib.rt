// From lawful reads to their table: where each read lies, the checks 9 and 10, each column's list, the table.
#![tactic(auto)]

ghost use Rattle.std.specs.Prelude.{◌≡◌, ◌*◌, ◌≤◌, min, length};
ghost use Rattle.meaning.specs.Active.{used};
ghost use Rattle.meaning.specs.Letters.{charge_in, mode_of};
ghost use Rattle.meaning.specs.Table.{table};
ghost use Rattle.meaning.specs.Call.{over};
ghost use Rattle.layout.specs.Matrices.{matrix_of};
ghost use Rattle.layout.specs.Lists.{Unlisted};
ghost use Rattle.layout.specs.Ready.{Ready};
ghost use Rattle.ready.specs.Piling.{Piling, ThinColumns, ColumnsFound, TableSized};

use layout::{Column, Listed, Place, Placed, Reads};
use refusal::Refusal;

// Where the reads lie; then check 9, the first column that has more than 12 active reads, or T.
fn piled(reads: &Reads, places: &mut [Place], lists: &mut [Column]) -> Result<usize, Refusal>
    requires n_in_bounds { (reads.now.shape.n ≤ length places.old) × (reads.now.shape.m ≤ length lists.old) }
    requires unlisted { Unlisted lists.old }
    ensures piling { Piling reads.now.shape reads.now.bytes.now places.new lists.new }
    ensures columns_found { ColumnsFound (matrix_of reads.now) result }
{
    let shape = reads.shape;
    reads::places(reads, places);
    pile::heights(places, shape.n, lists);
    match pile::tallest(lists, shape.m) {
        Ok(most) => Ok(plain::entries(most)),
        Err(j) => Err(Refusal::Crowded(j as u32)),
    }
}

// Where the reads lie; then the checks 9 and 10 with so many entries of work room, or T.
pub fn sized(
    reads: &Reads,
    places: &mut [Place],
    lists: &mut [Column],
    entries: usize,
) -> Result<usize, Refusal>
    requires n_in_bounds { (reads.now.shape.n ≤ length places.old) × (reads.now.shape.m ≤ length lists.old) }
    requires unlisted { Unlisted lists.old }
    ensures piling { Piling reads.now.shape reads.now.bytes.now places.new lists.new }
    ensures table_sized { TableSized (matrix_of reads.now) entries result }
{
    let t = piled(reads, places, lists)?;
    let need = reads.shape.m * t;
    if entries < need {
        return Err(Refusal::Work(need as u32));
    }
    Ok(t)
}

// The columns' lists, and the table of the mode. `t` is T; `taken` is room for what a column takes over.
pub fn tabled(
    placed: &Placed,
    lists: &mut [Column],
    t: usize,
    heterozygous: bool,
    taken: &mut [u32],
    work: &mut [u32],
)
    requires lists_room { placed.now.reads.shape.m ≤ length lists.old }
    requires thin_columns { ThinColumns (matrix_of placed.now.reads) t }
    requires n_in_bounds { (used (min placed.now.reads.shape.n 12) ≤ length taken.old)
        × (placed.now.reads.shape.m * t ≤ length work.old) }
    ensures ready { Ready placed.now.reads.shape placed.now.reads.bytes.now placed.now.places.now lists.new }
    ensures work_after { work.new ≡ over (table (charge_in (mode_of heterozygous)) (matrix_of placed.now.reads)) work.old }
{
    let reads = placed.reads;
    let places = placed.places;
    pile::lists(places, reads.shape.n, reads.shape.m, lists);
    let listed = Listed {
        reads,
        places,
        lists,
    };
    table::fill_table(&listed, t, heterozygous, taken, work);
}
