// The lent rooms: how much of each is lent, and what they hold.
ghost use Rattle.std.specs.Prelude.{◌≤◌};

use crate::output::Output;

// 16,384 entries, and one that is never lent.
pub type Table = [u32; 16385];

// Above every cost: so an entry is filled that no call has written.
pub const UNWRITTEN: u32 = 4000000000;

// How much of each room is lent.
#[derive(Clone, Copy)]
pub struct Rooms {
    pub work: usize,
    pub out: usize,
    ghost work_fits: { work ≤ 16384 },
    ghost out_fits: { out ≤ 4096 },
}

impl Rooms {
    // So much of each, or all.
    pub fn lent(work: usize, out: usize) -> Rooms {
        Rooms {
            work: work.min(16384),
            out: out.min(4096),
        }
    }

    // As much as `phase` lends.
    pub fn ample() -> Rooms {
        Rooms::lent(16384, 4096)
    }
}

// What the work room and the output of a call hold.
#[derive(Clone, Copy)]
pub struct Held {
    pub work: Table,
    pub out: Output,
}

impl Held {
    // Before the call.
    pub fn new() -> Held {
        Held {
            work: filled_table(),
            out: filled_bytes(),
        }
    }
}

// Another number in every entry.
pub fn filled_table() -> Table {
    let mut table = [0; 16385];
    for (i, entry) in table.iter_mut().enumerate() {
        *entry = UNWRITTEN + i as u32;
    }
    table
}

// The entries, from the front of the table on.
pub fn put_entries(table: &mut Table, entries: &[u32]) {
    if let Some(front) = table.get_mut(..entries.len()) {
        front.copy_from_slice(entries);
    }
}

// No side and no letter.
pub fn filled_bytes<const N: usize>() -> [u8; N] {
    let mut bytes = [0; N];
    for (i, byte) in bytes.iter_mut().enumerate() {
        *byte = (100 + i % 100) as u8;
    }
    bytes
}
