// The converter: a version 1 block, written as version 2 without its reads that have no cells.
#![tactic(auto)]

ghost use Rattle.std.specs.Prelude.{◌≡◌, ◌∷◌, ◌+◌, ◌*◌, ◌-◌, ◌/◌, ◌≤◌, length, take, drop};
ghost use Rattle.meaning.specs.Numbers.{run, bytes_of};
ghost use Rattle.meaning.specs.Block.{cell_at};
ghost use Rattle.meaning.specs.Call.{laid};
ghost use Rattle.meaning.specs.Kept.{without_empty};
ghost use Rattle.meaning.specs.Convert.{cells_bytes, read_bytes, block_bytes, converting};
ghost use Rattle.layout.specs.Places.{read_from};
ghost use Rattle.layout.specs.Matrices.{matrix_of};
ghost use Rattle.convert.specs.Walked.{bytes_to, kept_to, head_bytes};
ghost use Rattle.convert.specs.Outcomes.{conversion_of, writing};

use layout::{Reads, Shape};
use reads::Lying;
use refusal::Refusal;

// How many reads have cells, and the bytes that they take in version 2.
#[derive(Clone, Copy)]
struct Kept {
    count: usize,
    bytes: usize,
}

// A cell of three bytes: its letter, and its weight.
fn put_cell(out: &mut [u8], at: usize, letter: u8, weight: u32)
    requires { at + 3 ≤ length out.old }
    ensures { out.new ≡ laid at (letter ∷ bytes_of 2 weight) out.old }
{
    out[at] = letter;
    answer::put_word(out, at + 1, weight as usize);
}

// A read's cells, as they lie in the bytes.
fn put_cells(shape: Shape, cells: &[u8], out: &mut [u8], at: usize)
    requires { at + 3 * (length cells.now / shape.size) ≤ length out.old }
    ensures { out.new ≡ laid at
        (cells_bytes (run 0 (length cells.now / shape.size) (cell_at shape.size cells.now))) out.old }
{
    for i in 0..shape.cells_in(cells.len()) {
        let from = shape.size * i;
        put_cell(out, at + 3 * i, cells[from], shape.weight_at(cells, from));
    }
}

// A read.
fn put_read(reads: &Reads<'_>, read: Lying, out: &mut [u8], to: usize)
    requires few { read.count ≤ 1024 }
    requires lies { (read.next ≡ read.start + reads.now.shape.size * read.count) × (read.next ≤ length reads.now.bytes.now) }
    requires room { to + (4 + 3 * read.count) ≤ length out.old }
    ensures { out.new ≡ laid to (read_bytes (read_from reads.now.shape.size read.first read.count
        (take (read.next - read.start) (drop read.start reads.now.bytes.now)))) out.old }
{
    answer::put_word(out, to, 2 + 3 * read.count);
    answer::put_word(out, to + 2, read.first);
    put_cells(
        reads.shape,
        &reads.bytes[read.start..read.next],
        out,
        to + 4,
    );
}

// How many of the reads have cells, and the bytes that they take.
fn kept_in(reads: &Reads<'_>) -> Kept
    ensures { (result.count ≡ kept_to (matrix_of reads.now) reads.now.shape.n)
        × (result.bytes ≡ length (bytes_to (matrix_of reads.now) reads.now.shape.n)) × (result.bytes ≤ 3149824) }
{
    let mut kept = Kept { count: 0, bytes: 0 };
    let mut at: usize = 0;
    for r in 0..reads.shape.n {
        let Lying { count, next, .. } = reads::read_at(reads, at);
        if count > 0 {
            kept.count += 1;
            kept.bytes += 4 + 3 * count;
        }
        at = next;
    }
    kept
}

// The reads that have cells, behind the header.
fn put_reads(reads: &Reads<'_>, out: &mut [u8])
    requires { 9 + length (bytes_to (matrix_of reads.now) reads.now.shape.n) ≤ length out.old }
    ensures { out.new ≡ laid 9 (bytes_to (matrix_of reads.now) reads.now.shape.n) out.old }
{
    let mut at: usize = 0;
    let mut to: usize = 9;
    for r in 0..reads.shape.n {
        let read = reads::read_at(reads, at);
        if read.count > 0 {
            put_read(reads, read, out, to);
            to += 4 + 3 * read.count;
        }
        at = read.next;
    }
}

// The header of a version 2 block.
fn put_head(out: &mut [u8], m: usize, n: usize, bytes: usize)
    requires { (9 ≤ length out.old) × (bytes ≤ 3149824) }
    ensures { out.new ≡ laid 0 (head_bytes m n bytes) out.old }
{
    out[0] = 2;
    answer::put_long(out, 1, 4 + bytes);
    answer::put_word(out, 5, m);
    answer::put_word(out, 7, n);
}

// The version 2 block of the reads that have cells, where there is room for it.
fn write(reads: &Reads<'_>, out: &mut [u8]) -> Result<(), Refusal>
    ensures { conversion_of result out.new
        ≡ writing (block_bytes (without_empty (matrix_of reads.now))) out.old }
{
    let kept = kept_in(reads);
    let need = 9 + kept.bytes;
    if out.len() < need {
        return Err(Refusal::Room(need as u32));
    }
    put_reads(reads, out);
    put_head(out, reads.shape.m, kept.count, kept.bytes);
    Ok(())
}

// A version 1 block, as version 2 in the room that is lent. Any other version is refused before the rest is looked at.
pub fn convert(block: &[u8], out: &mut [u8]) -> Result<(), Refusal>
    ensures { conversion_of result out.new ≡ converting block.now out.old }
{
    if block.len() < 9 {
        return Err(Refusal::Short);
    }
    if block[0] != 1 {
        return Err(Refusal::Version);
    }
    let reads = block::checked(block)?;
    write(&reads, out)
}
