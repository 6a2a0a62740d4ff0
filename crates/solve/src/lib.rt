// The solver: the checks 9, 10 and 11, the table, the answer block.
#![tactic(auto)]

ghost use Rattle.std.specs.Prelude.{◌≡◌, ◌*◌, ◌≤◌, min, length};
ghost use Rattle.meaning.specs.Active.{used};
ghost use Rattle.meaning.specs.Letters.{mode_of};
ghost use Rattle.meaning.specs.Call.{call_on};
ghost use Rattle.layout.specs.Matrices.{matrix_of};
ghost use Rattle.ready.specs.Piling.{ThinColumns};
ghost use Rattle.solve.specs.Rooms.{Rooms};
ghost use Rattle.solve.specs.Outcomes.{result_of};

use layout::{Column, Listed, Place, Placed, Reads};
use refusal::Refusal;
use sides::Table;

// The check 11, then the table, the answer and its cost. `t` is T.
fn answered(
    placed: &Placed,
    lists: &mut [Column],
    t: usize,
    heterozygous: bool,
    scratch: &mut [u32],
    work: &mut [u32],
    out: &mut [u8],
) -> Result<u32, Refusal>
    requires lists_room { placed.now.reads.shape.m ≤ length lists.old }
    requires thin_columns { ThinColumns (matrix_of placed.now.reads) t }
    requires n_in_bounds { (used (min placed.now.reads.shape.n 12) ≤ length scratch.old)
        × (4 * placed.now.reads.shape.m ≤ length scratch.old) × (placed.now.reads.shape.m * t ≤ length work.old) }
    ensures { result_of result work.new out.new
        ≡ call_on (mode_of heterozygous) (matrix_of placed.now.reads) work.old out.old }
{
    let shape = placed.reads.shape;
    let size = 17 + shape.n + 2 * shape.m;
    if out.len() < size {
        return Err(Refusal::Output(size as u32));
    }
    ready::tabled(placed, lists, t, heterozygous, scratch, work);
    let listed = Listed {
        reads: placed.reads,
        places: placed.places,
        lists,
    };
    let table = Table { listed, t, work };
    let cost = written::write_answer(&table, heterozygous, scratch, out);
    Ok(cost)
}

// Solves reads that pass the checks 5 to 8, in the mode of the flag: 9 with the column, 10 or 11 with the size needed, or the cost. The last
// three runs are room to work in; no struct holds them, since the first two are soon read by all, in `Listed`, while the third is written.
pub fn solve(
    reads: &Reads,
    heterozygous: bool,
    work: &mut [u32],
    out: &mut [u8],
    places: &mut [Place],
    lists: &mut [Column],
    scratch: &mut [u32],
) -> Result<u32, Refusal>
    requires { Rooms reads.now.shape places.old lists.old scratch.old }
    ensures { result_of result work.new out.new
        ≡ call_on (mode_of heterozygous) (matrix_of reads.now) work.old out.old }
{
    let t = ready::sized(reads, places, lists, work.len())?;
    let placed = Placed {
        reads: *reads,
        places,
    };
    answered(&placed, lists, t, heterozygous, scratch, work, out)
}
