// Blocks whose reads all span the same columns.
use crate::generate::{Shape, Spread};
use crate::random::Chance;
use fields::Bytes;

// Letter 0 and weight 1: nothing is left to chance.
pub fn same(version: usize) -> Shape {
    Shape::new(0, 0, 0)
        .zeros()
        .weights(1, 1)
        .version(version, Spread::One)
}

// Letters by chance, and 65,535 in every entry.
pub fn heaviest() -> Shape {
    Shape::new(0, 0, 0)
        .weights(255, 255)
        .version(2, Spread::Both)
}

// n reads of c cells from a column on.
#[derive(Clone, Copy)]
pub struct Alike {
    m: usize,
    n: usize,
    column: usize,
    c: usize,
}

impl Alike {
    pub fn new(m: usize, n: usize, column: usize, c: usize) -> Alike {
        Alike { m, n, column, c }
    }

    pub fn block(&self, shape: Shape) -> Bytes {
        let mut chance = Chance::new(1);
        let mut bytes = shape.header(self.m, self.n);
        for _ in 0..self.n {
            shape.push_span(&mut bytes, self.column, self.c, &mut chance);
        }
        bytes.put_size();
        bytes
    }
}

// Reads at column 1 of three, and one more that is active there only by its gap.
pub fn gapped(shape: Shape, reads: usize) -> Bytes {
    let mut chance = Chance::new(1);
    let mut bytes = shape.header(3, reads.wrapping_add(1));
    for _ in 0..reads {
        shape.push_span(&mut bytes, 1, 1, &mut chance);
    }
    shape.holes(8).push_span(&mut bytes, 0, 3, &mut chance);
    bytes.put_size();
    bytes
}
