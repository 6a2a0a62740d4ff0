// The solver that gives the margins too: the checks 9, 10, 11 and 13, then what the solver writes, then the margins of its division.
#![tactic(auto)]

ghost use Rattle.std.specs.Prelude.{◌≡◌, ◌≢◌, List, ℕ, ◌+◌, ◌*◌, ◌≤◌, ◌<◌, length};
ghost use Rattle.meaning.specs.Block.{Matrix};
ghost use Rattle.meaning.specs.Answer.{division_of};
ghost use Rattle.meaning.specs.Call.{over};
ghost use Rattle.meaning.specs.Margins.{margins_of, margin_call_on};
ghost use Rattle.layout.specs.Matrices.{matrix_of};
ghost use Rattle.layout.specs.Lists.{Thin};
ghost use Rattle.tally.specs.Tally.{Tallied};
ghost use Rattle.written.specs.Output.{division_in};
ghost use Rattle.solve.specs.Rooms.{Rooms};
ghost use Rattle.refusal.specs.declared.Refusal.TheVariants.{Output, Margins};
ghost use Rattle.margins.specs.Outcomes.{result_of};

use layout::{Column, Place, Placed, Reads};
use refusal::Refusal;

// The margins of m columns, read off a tally: haplotype 1's first.
fn write_margins(m: usize, tally: &[u32], margins: &mut [u32])
    requires { (4 * m ≤ length tally.now) × (2 * m ≤ length margins.old) × (m ≤ 1024) }
    ensures { (M : Matrix) (sides : List ℕ) → Tallied M sides tally.now → m ≡ M.columns
        → margins.new ≡ over (margins_of M (division_of sides)) margins.old }
{
    for j in 0..m {
        let x = letters::letters_at(tally, j, false);
        margins[j] = x.margins.first;
        margins[m + j] = x.margins.second;
    }
}

// The margins of the division whose sides stand in the output. The last two runs are room to work in.
fn margined(reads: &Reads, out: &[u8], margins: &mut [u32], places: &mut [Place], tally: &mut [u32])
    requires thin { Thin (matrix_of reads.now) }
    requires n_in_bounds { (17 + reads.now.shape.n ≤ length out.now) × (2 * reads.now.shape.m ≤ length margins.old) }
    requires n_in_bounds_2 { (reads.now.shape.n ≤ length places.old) × (4 * reads.now.shape.m ≤ length tally.old) }
    ensures { margins.new
        ≡ over (margins_of (matrix_of reads.now) (division_in reads.now.shape.n out.now)) margins.old }
{
    reads::places(reads, places);
    let placed = Placed {
        reads: *reads,
        places,
    };
    let e = 17 + reads.shape.n;
    tally::tally(&placed, &out[17..e], tally);
    write_margins(reads.shape.m, tally, margins);
}

// What is told of a run too short, by what the solver tells of an output too short: 11 stays where the output is too small, and becomes 13
// where it is not.
fn short_run(refusal: Refusal, out: usize, need: u32) -> Refusal
    ensures output { (size : ℕ) → refusal ≡ Output size
        → (out < size → result ≡ refusal) × (size ≤ out → result ≡ Margins need) }
    ensures other { ((size : ℕ) → refusal ≢ Output size) → result ≡ refusal }
{
    match refusal {
        Refusal::Output(size) => {
            if out < size as usize {
                refusal
            } else {
                Refusal::Margins(need)
            }
        }
        _ => refusal,
    }
}

// A run too short for the margins: 9, 10 or 11 where one of them applies, otherwise 13. An output of one byte lets the solver write nothing.
fn refused(
    reads: &Reads,
    out: &[u8],
    work: &mut [u32],
    places: &mut [Place],
    lists: &mut [Column],
    scratch: &mut [u32],
) -> Result<u32, Refusal>
    requires { Rooms reads.now.shape places.old lists.old scratch.old }
    ensures { (margins : List ℕ) → length margins < 2 * reads.now.shape.m → result_of result work.new out.now margins
        ≡ margin_call_on (matrix_of reads.now) work.old out.now margins }
{
    let mut none = [0u8; 1];
    let need = (2 * reads.shape.m) as u32;
    match solve::solve(reads, false, work, &mut none, places, lists, scratch) {
        Ok(cost) => Ok(cost),
        Err(refusal) => Err(short_run(refusal, out.len(), need)),
    }
}

// Solves reads that pass the checks 5 to 8, in the general mode, and gives the margins: 9 with the column, 10, 11 or 13 with the size needed,
// or the cost. The last three runs are room to work in.
pub fn solve(
    reads: &Reads,
    work: &mut [u32],
    out: &mut [u8],
    margins: &mut [u32],
    places: &mut [Place],
    lists: &mut [Column],
    scratch: &mut [u32],
) -> Result<u32, Refusal>
    requires { Rooms reads.now.shape places.old lists.old scratch.old }
    ensures { result_of result work.new out.new margins.new
        ≡ margin_call_on (matrix_of reads.now) work.old out.old margins.old }
{
    if margins.len() < 2 * reads.shape.m {
        return refused(reads, out, work, places, lists, scratch);
    }
    let cost = solve::solve(reads, false, work, out, places, lists, scratch)?;
    let f = 4 * reads.shape.m;
    margined(reads, out, margins, places, &mut scratch[..f]);
    Ok(cost)
}
