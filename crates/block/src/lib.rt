// A fragment block: the checks 1 to 8 and 38, from its header to the last of its reads.
#![tactic(auto)]

ghost use Rattle.std.specs.Prelude.{◌≡◌, IfOk};
ghost use Rattle.meaning.specs.Block.{latest};
ghost use Rattle.meaning.specs.Refusals.{block_refusal};
ghost use Rattle.refusal.specs.Numbers.{checked_numbers};
ghost use Rattle.block.specs.Answers.{Passes};

use layout::Reads;
use refusal::Refusal;

// The checks 1 to 8 and 38, which stands between 5 and 6: the reads of a block that passes them.
pub fn checked(block: &[u8]) -> Result<Reads<'_>, Refusal>
    ensures result_value { checked_numbers result ≡ block_refusal latest block.now }
    ensures passes { IfOk result (Passes block.now) }
{
    let shape = header::check_header(block)?;
    let bytes = &block[9..];
    let end = reads::first_fault(shape, bytes)?;
    if end < bytes.len() {
        return Err(Refusal::LeftOver);
    }
    Ok(Reads { shape, bytes })
}
