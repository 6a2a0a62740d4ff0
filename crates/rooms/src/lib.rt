// The solver, with margins too, and the judge with room to work in: local arrays, as large as the reads need.
#![tactic(auto)]

ghost use Rattle.std.specs.Prelude.{◌≡◌, true, ◌≤◌};
ghost use Rattle.meaning.specs.Letters.{mode_of};
ghost use Rattle.meaning.specs.Call.{call_on};
ghost use Rattle.meaning.specs.Judge.{judging_on};
ghost use Rattle.meaning.specs.Margins.{margin_call_on};
ghost use Rattle.layout.specs.Matrices.{matrix_of};
ghost use Rattle.rooms.specs.New.{New};
ghost use Rattle.solve.specs.Outcomes.{result_of};
ghost use Rattle.verdict.specs.Verdicts.{judged_of};
ghost use Rattle.margins.specs.Outcomes as with_margins;
ghost use Rattle.solve.specs.Rooms.{Rooms};

use layout::{Column, NO_READS, NOWHERE, Place, Reads, Shape};
use refusal::Refusal;
use verdict::Verdict;

// Whether there are at most 32 columns and 7 reads: setting up room for more would take longer than solving them.
fn few(shape: Shape) -> bool
    ensures { result ≡ true → (shape.m ≤ 32) × (shape.n ≤ 7) }
{
    shape.m <= 32 && shape.n <= 7
}

// Calls with new room of three sizes. The closure is lent, so that what it leaves behind its own references is known.
fn lend<const READS: usize, const COLUMNS: usize, const SCRATCH: usize, T, F>(call: &mut F) -> T
where
    F: FnMut(&mut [Place], &mut [Column], &mut [u32]) -> T,
    requires sizes { (READS ≤ 65536) × (COLUMNS ≤ 65536) × (SCRATCH ≤ 65536) }
    requires callable { (p : _) → (l : _) → (s : _) → New READS COLUMNS SCRATCH p.now l.now s.now → F.pre call.old p l s }
    ensures { (p : _) × (l : _) × (s : _) × (p' : _) × (l' : _) × (s' : _) × F.step call.old p l s result p' l' s' call.new
        × New READS COLUMNS SCRATCH p.now l.now s.now }
{
    let mut places = [NOWHERE; READS];
    let mut lists = [NO_READS; COLUMNS];
    let mut scratch = [0u32; SCRATCH];
    call(&mut places, &mut lists, &mut scratch)
}

// Calls with as much room as reads of this shape need.
fn with_room<T, F>(shape: Shape, call: &mut F) -> T
where
    F: FnMut(&mut [Place], &mut [Column], &mut [u32]) -> T,
    requires { (p : _) → (l : _) → (s : _) → Rooms shape p.now l.now s.now → F.pre call.old p l s }
    ensures { (p : _) × (l : _) × (s : _) × (p' : _) × (l' : _) × (s' : _) × F.step call.old p l s result p' l' s' call.new
        × Rooms shape p.now l.now s.now }
{
    if few(shape) {
        return lend::<7, 32, 128, T, F>(call);
    }
    lend::<1024, 1024, 4096, T, F>(call)
}

// The solver with as much room as the reads need.
pub fn solved(
    reads: &Reads,
    heterozygous: bool,
    work: &mut [u32],
    out: &mut [u8],
) -> Result<u32, Refusal>
    ensures { result_of result work.new out.new
        ≡ call_on (mode_of heterozygous) (matrix_of reads.now) work.old out.old }
{
    let mut call = |places: &mut [Place], lists: &mut [Column], scratch: &mut [u32]| {
        solve::solve(reads, heterozygous, work, out, places, lists, scratch)
    };
    with_room(reads.shape, &mut call)
}

// The solver that gives the margins too, with as much room as the reads need.
pub fn margined(
    reads: &Reads,
    work: &mut [u32],
    out: &mut [u8],
    margins: &mut [u32],
) -> Result<u32, Refusal>
    ensures { with_margins.result_of result work.new out.new margins.new
        ≡ margin_call_on (matrix_of reads.now) work.old out.old margins.old }
{
    let mut call = |places: &mut [Place], lists: &mut [Column], scratch: &mut [u32]| {
        margins::solve(reads, work, out, margins, places, lists, scratch)
    };
    with_room(reads.shape, &mut call)
}

// Judges an answer to any block.
pub fn judgement(reads: &Reads, answer: &[u8], work: &mut [u32]) -> Result<Verdict, Refusal>
    ensures { judged_of result work.new ≡ judging_on (matrix_of reads.now) answer.now work.old }
{
    let mut sides = [0u8; 1024];
    let mut call = |places: &mut [Place], lists: &mut [Column], scratch: &mut [u32]| {
        judging::judge(reads, answer, work, places, lists, scratch, &mut sides)
    };
    with_room(reads.shape, &mut call)
}
