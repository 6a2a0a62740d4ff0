// What the layers share: numbers of two and four bytes, the shape of the reads that lie in a part of bytes, and what the lent runs hold.
#![tactic(auto)]

ghost use Rattle.std.specs.Prelude.{◌≡◌, ◌+◌, ◌≤◌, ◌<◌, length};
ghost use Rattle.meaning.specs.Numbers.{word, long};

mod reads;
mod runs;
mod shape;

pub use reads::{Listed, Placed, Reads};
pub use runs::{Column, NO_READS, NOWHERE, Place};
pub use shape::{Shape, cells_in, weight_at};

// The big-endian number of the two bytes from `at` on.
#[tactic(auto, using(crate::proofs::Fields::word_is))]
pub fn word_at(b: &[u8], at: usize) -> usize
    requires { at + 2 ≤ length b.now }
    ensures { (result ≡ word b.now at) × (result < 65536) }
{
    usize::from(u16::from_be_bytes([b[at], b[at + 1]]))
}

// The big-endian number of the four bytes from `at` on.
#[tactic(auto, using(crate::proofs::Fields::long_is))]
pub fn long_at(b: &[u8], at: usize) -> usize
    requires { at + 4 ≤ length b.now }
    ensures { (result ≡ long b.now at) × (result < 4294967296) }
{
    u32::from_be_bytes([b[at], b[at + 1], b[at + 2], b[at + 3]]) as usize
}
