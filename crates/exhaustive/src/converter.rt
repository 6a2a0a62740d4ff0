// The converter of document 02: a block of version 1 becomes one of version 2 without the reads that have no cell.
use crate::reads::{Read, Reads};
use crate::refusals::{Refusal, check};
use fields::{Bytes, byte, low, word};

// The checks 1 to 8, where any version but 1 is 2.
fn check_old(block: &[u8]) -> Result<(), Refusal> {
    let checked = check(block);
    if checked != Err(Refusal::Header) && byte(block, 0) != 1 {
        return Err(Refusal::Version);
    }
    checked
}

// A read with the same letters and weights.
fn push_read(new: &mut Bytes, read: Read<'_>) {
    let at = new.len();
    new.push_word(0);
    new.push_word(read.first_column());
    for i in 0..read.cells() {
        new.push_cell(2, low(read.letter(i)), read.weight(i));
    }
    new.put_length(at);
}

// The new block, which has at most 8,192 bytes for every block that is tried.
pub fn converted(block: &[u8]) -> Bytes {
    let n = Reads::of(block).filter(|read| read.cells() > 0).count();
    let mut new = Bytes::of_header(2, word(block, 5), n);
    for read in Reads::of(block) {
        if read.cells() > 0 {
            push_read(&mut new, read);
        }
    }
    new.put_size();
    new
}

// Converts a block for a room of this size: on success the new block, from the front of the room, and 0 as the second number.
pub fn convert(block: &[u8], room: usize, out: &mut [u8]) -> Result<usize, Refusal> {
    check_old(block)?;
    let new = converted(block);
    let bytes = new.as_slice();
    if room < bytes.len() {
        return Err(Refusal::Room(bytes.len()));
    }
    if let Some(front) = out.get_mut(..bytes.len()) {
        front.copy_from_slice(bytes);
    }
    Ok(0)
}
