// The reads of a block, one behind the other.
ghost use Rattle.std.specs.Prelude.{◌≤◌};
ghost use Rattle.std.specs.Iterator.{at_most};

use fields::{byte, cell_at, cell_size, weight_at, word};
use std::ops::Range;

// A read by its number and the place where it starts.
#[derive(Clone, Copy)]
pub struct Read<'a> {
    block: &'a [u8],
    at: usize,
    pub number: usize,
}

impl<'a> Read<'a> {
    pub fn first(block: &'a [u8]) -> Read<'a> {
        Read {
            block,
            at: 9,
            number: 0,
        }
    }

    fn next(self) -> Read<'a> {
        Read {
            block: self.block,
            at: self.end(),
            number: self.number.wrapping_add(1),
        }
    }

    // Where the read ends.
    pub fn end(self) -> usize {
        self.at.wrapping_add(self.length() + 2)
    }

    // How many bytes of the block stand from the start of the read on.
    pub fn left(self) -> usize {
        self.block.len().saturating_sub(self.at)
    }

    // L.
    pub fn length(self) -> usize
        ensures { result ≤ 65535 }
    {
        word(self.block, self.at)
    }

    pub fn first_column(self) -> usize
        ensures { result ≤ 65535 }
    {
        word(self.block, self.at.wrapping_add(2))
    }

    // The columns from its first to its last entry, holes between included; none where c = 0. At these the read is active.
    pub fn columns(self) -> Range<usize> {
        let first = self.first_column();
        first..first + self.cells()
    }

    pub fn cell_size(self) -> usize
        ensures { (2 ≤ result) × (result ≤ 3) }
    {
        cell_size(byte(self.block, 0))
    }

    // c.
    pub fn cells(self) -> usize
        ensures { result ≤ 65535 }
    {
        self.length().saturating_sub(2) / self.cell_size()
    }

    pub fn letter(self, i: usize) -> usize
        ensures { result ≤ 255 }
    {
        byte(self.block, cell_at(self.at, i, self.cell_size()))
    }

    pub fn weight(self, i: usize) -> usize
        ensures { result ≤ 65535 }
    {
        let size = self.cell_size();
        weight_at(self.block, cell_at(self.at, i, size), size)
    }
}

#[derive(Drop)]
pub struct Reads<'a> {
    read: Read<'a>,
    left: usize,
}

impl<'a> Reads<'a> {
    // The n reads of a block, n as its header has it.
    pub fn of(block: &'a [u8]) -> Reads<'a> {
        Reads {
            read: Read::first(block),
            left: word(block, 7),
        }
    }
}

impl<'a> Iterator for Reads<'a> {
    type Item = Read<'a>;

    ghost remaining = { λ s. at_most s.left };

    fn next(&mut self) -> Option<Read<'a>> {
        if self.left == 0 {
            return None;
        }
        let read = self.read;
        self.left -= 1;
        self.read = read.next();
        Some(read)
    }
}
