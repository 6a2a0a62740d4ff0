// Judging: the refusals 9 and 10 of reads, then, with their table filled, the verdict on a builder's answer.
#![tactic(auto)]

ghost use Rattle.std.specs.Prelude.{◌≡◌, ◌*◌, ◌≤◌, min, length, Ok};
ghost use Rattle.meaning.specs.Active.{used};
ghost use Rattle.meaning.specs.Judge.{judging_on};
ghost use Rattle.layout.specs.Matrices.{matrix_of};
ghost use Rattle.ready.specs.Piling.{ThinColumns};
ghost use Rattle.solve.specs.Rooms.{Rooms};
ghost use Rattle.verdict.specs.Verdicts.{judged_of};

use layout::{Column, Listed, Place, Placed, Reads};
use refusal::Refusal;
use sides::Table;
use verdict::Verdict;

// The table, and the verdict by it. `t` is T.
fn judged(
    placed: &Placed,
    lists: &mut [Column],
    t: usize,
    scratch: &mut [u32],
    work: &mut [u32],
    answer: &[u8],
    sides: &mut [u8],
) -> Verdict
    requires lists_room { placed.now.reads.shape.m ≤ length lists.old }
    requires thin_columns { ThinColumns (matrix_of placed.now.reads) t }
    requires n_in_bounds { (used (min placed.now.reads.shape.n 12) ≤ length scratch.old)
        × (4 * placed.now.reads.shape.m ≤ length scratch.old) × (placed.now.reads.shape.n ≤ length sides.old)
        × (placed.now.reads.shape.m * t ≤ length work.old) }
    ensures { judged_of (Ok result) work.new ≡ judging_on (matrix_of placed.now.reads) answer.now work.old }
{
    let shape = placed.reads.shape;
    ready::tabled(placed, lists, t, false, scratch, work);
    let listed = Listed {
        reads: placed.reads,
        places: placed.places,
        lists,
    };
    let table = Table { listed, t, work };
    let e = 4 * shape.m;
    verdict::judged(&table, &mut scratch[..e], answer, &mut sides[..shape.n])
}

// Judges an answer to reads that pass the checks 5 to 8: 9 with the column, 10 with the size needed, or the verdict. The last four runs are
// room to work in.
pub fn judge(
    reads: &Reads,
    answer: &[u8],
    work: &mut [u32],
    places: &mut [Place],
    lists: &mut [Column],
    scratch: &mut [u32],
    sides: &mut [u8],
) -> Result<Verdict, Refusal>
    requires { Rooms reads.now.shape places.old lists.old scratch.old × (reads.now.shape.n ≤ length sides.old) }
    ensures { judged_of result work.new ≡ judging_on (matrix_of reads.now) answer.now work.old }
{
    let t = ready::sized(reads, places, lists, work.len())?;
    let placed = Placed {
        reads: *reads,
        places,
    };
    let v = judged(&placed, lists, t, scratch, work, answer, sides);
    Ok(v)
}
