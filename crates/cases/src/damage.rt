// A sound block, of either version, damaged in one field.
ghost use Rattle.std.specs.Prelude.{◌≤◌};

use crate::random::Chance;
use fields::{Bytes, cell_size, low};

// The fields. An emptied read has L = 2: it has no cell.
#[derive(Clone, Copy)]
pub enum Field {
    Version,
    Size,
    Columns,
    Reads,
    Length,
    First,
    Letter,
    Weight,
    Cut,
    Behind,
    Emptied,
}

const FIELDS: [Field; 11] = [
    Field::Version,
    Field::Size,
    Field::Columns,
    Field::Reads,
    Field::Length,
    Field::First,
    Field::Letter,
    Field::Weight,
    Field::Cut,
    Field::Behind,
    Field::Emptied,
];

pub fn some_field(chance: &mut Chance) -> Field {
    FIELDS[chance.below(11)]
}

// Another number: one that is up to three less or more, a small one or any.
fn altered(x: usize, chance: &mut Chance) -> usize {
    match chance.below(8) {
        0 => chance.below(65536),
        1 => chance.below(4),
        2..=4 => x.wrapping_add(chance.within(1, 3)),
        _ => x.wrapping_sub(chance.within(1, 3)),
    }
}

// The two differ in how a number is read and written; what they share is `altered`.
pub fn alter_byte(bytes: &mut Bytes, at: usize, chance: &mut Chance) {
    let x = altered(bytes.byte(at), chance);
    bytes.put(at, low(x));
}

pub fn alter_word(bytes: &mut Bytes, at: usize, chance: &mut Chance) {
    let x = altered(bytes.word(at), chance);
    bytes.put_word(at, x);
}

// Where read r starts.
fn read_at(bytes: &Bytes, r: usize) -> usize {
    (0..r).fold(9, |at: usize, _| at.wrapping_add(bytes.word(at) + 2))
}

// Where one of the reads starts; where the first would, if there is none.
fn some_read(bytes: &Bytes, chance: &mut Chance) -> usize {
    match bytes.word(7) {
        0 => 9,
        n => read_at(bytes, chance.below(n)),
    }
}

// One of the cells, of so many bytes, of the read at a place; the read itself if it has none.
fn some_cell(bytes: &Bytes, at: usize, size: usize, chance: &mut Chance) -> usize
    requires { 2 ≤ size }
{
    let length = bytes.word(at);
    if length < 3 {
        return at;
    }
    let byte = chance.below(length - 2);
    at.wrapping_add(byte + 4 - byte % size)
}

// Fewer bytes or more: the length field is put right in one of two.
fn resize(bytes: &mut Bytes, size: usize, chance: &mut Chance)
    requires { size ≤ 8192 }
{
    bytes.resize(size);
    if chance.below(2) == 0 {
        bytes.put_size();
    }
}

// Few bytes less, or any number of bytes.
pub fn cut(bytes: &mut Bytes, chance: &mut Chance) {
    let size = bytes.len();
    if chance.below(4) == 0 {
        bytes.resize(chance.below(size + 1));
    } else {
        let lost = chance.within(1, 8);
        resize(bytes, size.saturating_sub(lost), chance);
    }
}

pub fn longer(bytes: &mut Bytes, chance: &mut Chance) {
    let size = bytes.len() + chance.within(1, 4);
    if size <= 8192 {
        resize(bytes, size, chance);
    }
}

// A field of the header or of a read. A read and a cell are picked by chance whatever the field: the blocks that follow hang on it.
fn alter(bytes: &mut Bytes, field: Option<Field>, chance: &mut Chance) {
    let size = cell_size(bytes.byte(0));
    let read = some_read(bytes, chance);
    let cell = some_cell(bytes, read, size, chance);
    let Some(field) = field else {
        return;
    };
    match field {
        Field::Version => alter_byte(bytes, 0, chance),
        Field::Size => alter_word(bytes, 1 + 2 * chance.below(2), chance),
        Field::Columns => alter_word(bytes, 5, chance),
        Field::Reads => alter_word(bytes, 7, chance),
        Field::Length => alter_word(bytes, read, chance),
        Field::First => alter_word(bytes, read.wrapping_add(2), chance),
        Field::Letter => alter_byte(bytes, cell, chance),
        Field::Weight => alter_byte(bytes, cell.wrapping_add(1 + chance.below(size - 1)), chance),
        Field::Emptied => bytes.put_word(read, 2),
        Field::Cut | Field::Behind => {}
    }
}

// A block, damaged in the field if there is one.
pub fn damage(bytes: &mut Bytes, field: Option<Field>, chance: &mut Chance) {
    match field {
        Some(Field::Cut) => cut(bytes, chance),
        Some(Field::Behind) => longer(bytes, chance),
        _ => alter(bytes, field, chance),
    }
}
