// The public calls. None asks anything of its caller: every block of bytes, with rooms of every size, gets an answer or a refusal.
#![tactic(auto)]

ghost use Rattle.std.specs.Prelude.{◌≡◌};
ghost use Rattle.meaning.specs.Block.{latest};
ghost use Rattle.meaning.specs.Letters.{mode_of};
ghost use Rattle.meaning.specs.Call.{call_with, call, heterozygous_call};
ghost use Rattle.meaning.specs.Margins.{margin_call};
ghost use Rattle.meaning.specs.Judge.{judging};
ghost use Rattle.meaning.specs.Convert.{converting};
ghost use Rattle.refusal.specs.Numbers.{refusal_number, refusal_second, call_numbers};
ghost use Rattle.solve.specs.Outcomes.{result_of};
ghost use Rattle.margins.specs.Outcomes as with_margins;
ghost use Rattle.verdict.specs.Verdicts.{verdict_number, verdict_second, judged_of};

use refusal::Refusal;
use verdict::Verdict;

// The number that a call returns, and its second number: they go to C, so they stay numbers.
#[derive(Clone, Copy)]
pub struct Numbers {
    pub number: u32,
    pub second: u32,
}

impl From<Refusal> for Numbers {
    ghost from_gives = { λ e r. (r.number ≡ refusal_number e) × (r.second ≡ refusal_second e) };

    fn from(refusal: Refusal) -> Numbers {
        Numbers {
            number: refusal.number(),
            second: refusal.second(),
        }
    }
}

impl From<Verdict> for Numbers {
    ghost from_gives = { λ v r. (r.number ≡ verdict_number v) × (r.second ≡ verdict_second v) };

    fn from(verdict: Verdict) -> Numbers {
        Numbers {
            number: verdict.number(),
            second: verdict.second(),
        }
    }
}

// The numbers of a call: 0 with the cost, or those of its refusal.
fn told(found: Result<u32, Refusal>) -> Numbers
    ensures { (result.number ≡ (call_numbers found).number) × (result.second ≡ (call_numbers found).second) }
{
    match found {
        Ok(cost) => Numbers {
            number: 0,
            second: cost,
        },
        Err(refusal) => refusal.into(),
    }
}

// A call in the mode of the flag: a bool, as the contracts' `mode_of` takes it.
fn called(
    block: &[u8],
    heterozygous: bool,
    work: &mut [u32],
    out: &mut [u8],
) -> Result<u32, Refusal>
    ensures { result_of result work.new out.new
        ≡ call_with (mode_of heterozygous) latest block.now work.old out.old }
{
    let reads = block::checked(block)?;
    rooms::solved(&reads, heterozygous, work, out)
}

// Phases a fragment block: the least cost, the table in the work room and the answer block in the output, or a refusal that leaves
// both as they were.
#[tactic(auto, unfolding(meaning::specs::Call::call))]
pub fn phase(block: &[u8], work: &mut [u32], out: &mut [u8]) -> Numbers
    ensures number_value { result.number ≡ (call block.now work.old out.old).number }
    ensures second_value { result.second ≡ (call block.now work.old out.old).second }
    ensures work_after { work.new ≡ (call block.now work.old out.old).work }
    ensures out_after { out.new ≡ (call block.now work.old out.old).out }
{
    told(called(block, false, work, out))
}

// The same in the all-heterozygous mode: the two haplotypes differ at every column.
#[tactic(auto, unfolding(meaning::specs::Call::heterozygous_call))]
pub fn phase_heterozygous(block: &[u8], work: &mut [u32], out: &mut [u8]) -> Numbers
    ensures number_value { result.number ≡ (heterozygous_call block.now work.old out.old).number }
    ensures second_value { result.second ≡ (heterozygous_call block.now work.old out.old).second }
    ensures work_after { work.new ≡ (heterozygous_call block.now work.old out.old).work }
    ensures out_after { out.new ≡ (heterozygous_call block.now work.old out.old).out }
{
    told(called(block, true, work, out))
}

// A call that gives the margins too.
fn margined(
    block: &[u8],
    work: &mut [u32],
    out: &mut [u8],
    margins: &mut [u32],
) -> Result<u32, Refusal>
    ensures { with_margins.result_of result work.new out.new margins.new
        ≡ margin_call block.now work.old out.old margins.old }
{
    let reads = block::checked(block)?;
    rooms::margined(&reads, work, out, margins)
}

// Phases a fragment block and tells how sure each letter is: all that `phase` gives, and in the run the margins of haplotype 1's letters,
// then of haplotype 2's; or a refusal that leaves all three as they were.
pub fn phase_margins(block: &[u8], work: &mut [u32], out: &mut [u8], margins: &mut [u32]) -> Numbers
    ensures number_value { result.number ≡ (margin_call block.now work.old out.old margins.old).number }
    ensures second_value { result.second ≡ (margin_call block.now work.old out.old margins.old).second }
    ensures work_after { work.new ≡ (margin_call block.now work.old out.old margins.old).work }
    ensures out_after { out.new ≡ (margin_call block.now work.old out.old margins.old).out }
    ensures margins_after { margins.new ≡ (margin_call block.now work.old out.old margins.old).margins }
{
    told(margined(block, work, out, margins))
}

// A judging of a block.
fn judged(block: &[u8], answer: &[u8], work: &mut [u32]) -> Result<Verdict, Refusal>
    ensures { judged_of result work.new ≡ judging block.now answer.now work.old }
{
    let reads = block::checked(block)?;
    rooms::judgement(&reads, answer, work)
}

// Judges a builder's answer to a fragment block: a verdict, 50 to 57, with the table in the work room, or a refusal of the block that
// leaves it as it was.
pub fn judge(block: &[u8], answer: &[u8], work: &mut [u32]) -> Numbers
    ensures number_value { result.number ≡ (judging block.now answer.now work.old).number }
    ensures second_value { result.second ≡ (judging block.now answer.now work.old).second }
    ensures work_after { work.new ≡ (judging block.now answer.now work.old).work }
{
    match judged(block, answer, work) {
        Ok(verdict) => verdict.into(),
        Err(refusal) => refusal.into(),
    }
}

// Converts a version 1 block to version 2 without its reads that have no cells, in the room that is lent, or gives a refusal that
// leaves it as it was.
pub fn convert(block: &[u8], out: &mut [u8]) -> Numbers
    ensures number_value { result.number ≡ (converting block.now out.old).number }
    ensures second_value { result.second ≡ (converting block.now out.old).second }
    ensures out_after { out.new ≡ (converting block.now out.old).out }
{
    match convert::convert(block, out) {
        Ok(()) => told(Ok(0)),
        Err(refusal) => refusal.into(),
    }
}
