// A fragment block's header: the checks 1 to 4, and the shape of the reads behind it.
#![tactic(auto)]

ghost use Rattle.std.specs.Prelude.{◌≡◌, IfOk};
ghost use Rattle.meaning.specs.Block.{latest};
ghost use Rattle.meaning.specs.Refusals.{header_refusal};
ghost use Rattle.refusal.specs.Numbers.{checked_numbers};
ghost use Rattle.header.specs.Header.{size_of, Sized};

use layout::Shape;
use refusal::Refusal;

// The bytes of a cell: two in version 1, three in version 2, and none in another.
#[tactic(auto, unfolding(crate::specs::Header::size_of))]
fn cell_size(version: u8) -> Option<usize>
    ensures { result ≡ size_of version }
{
    match version {
        1 => Some(2),
        2 => Some(3),
        _ => None,
    }
}

// The checks 1 to 4.
pub fn check_header(block: &[u8]) -> Result<Shape, Refusal>
    ensures result_value { checked_numbers result ≡ header_refusal latest block.now }
    ensures header_sizes { IfOk result (Sized block.now) }
{
    if block.len() < 9 {
        return Err(Refusal::Short);
    }
    let size = cell_size(block[0]).ok_or(Refusal::Version)?;
    if layout::long_at(block, 1) != block.len() - 5 {
        return Err(Refusal::Size);
    }
    let m = layout::word_at(block, 5);
    let n = layout::word_at(block, 7);
    if m == 0 || m > 1024 || n > 1024 {
        return Err(Refusal::Counts);
    }
    Ok(Shape { size, m, n })
}
