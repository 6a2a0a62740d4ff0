// Blocks of a shape, by chance.
ghost use Rattle.std.specs.Prelude.{◌<◌, ◌≤◌};

use crate::random::Chance;
use fields::{Bytes, low};
use std::ops::Range;

// A weight of one byte becomes itself, the higher of two bytes, both of them, any number of two bytes, or one of these for each cell.
#[derive(Clone, Copy)]
pub enum Spread {
    One,
    High,
    Both,
    Any,
    Mixed,
}

// The last is no spread of one cell.
const SPREADS: [Spread; 5] = [
    Spread::One,
    Spread::High,
    Spread::Both,
    Spread::Any,
    Spread::Mixed,
];

// What the blocks of a kind are like.
#[derive(Clone, Copy)]
pub struct Shape {
    version: usize,
    spread: Spread,
    columns: u8,
    fewest: u8,
    reads: u8,
    holes: u8,
    highest: u8,
    lightest: u8,
    heaviest: u8,
    empty: u8,
    refused: u8,
    apart: bool,
}

impl Shape {
    // At most so many columns; from the fewest to the most reads, without a gap, of weight 1 to 255. Of version 1.
    pub fn new(columns: u8, fewest: u8, most: u8) -> Self {
        Self {
            version: 1,
            spread: Spread::One,
            columns,
            fewest,
            reads: most,
            holes: 0,
            highest: 1,
            lightest: 1,
            heaviest: 255,
            empty: 0,
            refused: 0,
            apart: false,
        }
    }

    // Of a version, and what becomes of its weights.
    pub fn version(self, version: usize, spread: Spread) -> Self {
        Self {
            version,
            spread,
            ..self
        }
    }

    // Of eight inner cells so many are holes: all eight make a pair.
    pub fn holes(self, of_eight: u8) -> Self {
        Self {
            holes: of_eight,
            ..self
        }
    }

    // No letter 1.
    pub fn zeros(self) -> Self {
        Self { highest: 0, ..self }
    }

    pub fn weights(self, lightest: u8, heaviest: u8) -> Self {
        Self {
            lightest,
            heaviest,
            ..self
        }
    }

    // Of eight reads so many have c = 0 in version 1.
    pub fn empty(self, of_eight: u8) -> Self {
        Self {
            empty: of_eight,
            ..self
        }
    }

    // Of eight reads so many have c = 0 in version 2, which refuses them.
    pub fn refused(self, of_eight: u8) -> Self {
        Self {
            refused: of_eight,
            ..self
        }
    }

    // Each read keeps to three columns, so that parts do not touch.
    pub fn apart(self) -> Self {
        Self {
            apart: true,
            ..self
        }
    }

    // A header of the shape's version but for its length field.
    pub fn header(&self, m: usize, n: usize) -> Bytes {
        Bytes::of_header(self.version, m, n)
    }

    // The columns that a read may lie in.
    fn part(&self, m: usize, chance: &mut Chance) -> Range<usize>
        requires { 0 < m }
        ensures { (result.start < result.end) × (result.end ≤ m) }
    {
        if !self.apart {
            return 0..m;
        }
        let from = chance.below(m) / 3 * 3;
        if m - from < 3 {
            from..m
        } else {
            from..from + 3
        }
    }

    fn some_weight(&self, chance: &mut Chance) -> usize {
        let weight = chance.within(self.lightest, self.heaviest);
        let spread = match self.spread {
            Spread::Mixed => SPREADS[chance.below(4)],
            of_all => of_all,
        };
        match spread {
            Spread::One => weight,
            Spread::High => weight * 256,
            Spread::Both => weight * 257,
            Spread::Any | Spread::Mixed => chance.below(65536),
        }
    }

    // A cell, a hole where it may be one and chance has it.
    fn push_some(&self, bytes: &mut Bytes, inner: bool, chance: &mut Chance) {
        let hole = chance.below(8) < usize::from(self.holes);
        let letter = chance.within(0, self.highest);
        let weight = self.some_weight(chance);
        if inner && hole {
            bytes.push_cell(self.version, 2, 0);
        } else {
            bytes.push_cell(self.version, low(letter), weight);
        }
    }

    // A read of c cells from a column on.
    pub fn push_span(&self, bytes: &mut Bytes, column: usize, c: usize, chance: &mut Chance) {
        let at = bytes.len();
        bytes.push_word(0);
        bytes.push_word(column);
        for i in 0..c {
            self.push_some(bytes, i > 0 && i + 1 < c, chance);
        }
        bytes.put_length(at);
    }

    fn push_read(&self, bytes: &mut Bytes, m: usize, chance: &mut Chance)
        requires { (0 < m) × (m ≤ 255) }
    {
        if chance.below(8) < usize::from(self.empty) {
            self.push_span(bytes, 0, 0, chance);
            return;
        }
        let columns = self.part(m, chance);
        let room = columns.end - columns.start;
        let c = 1 + chance.below(room);
        let column = columns.start + chance.below(room - c + 1);
        self.push_span(bytes, column, c, chance);
    }

    // The shape in version 1 or 2.
    fn some_version(self, chance: &mut Chance) -> Shape {
        if chance.below(2) == 0 {
            return self;
        }
        self.version(2, SPREADS[chance.below(5)])
            .empty(self.refused)
    }

    // A block of either version, sound but for what the shape has refused.
    pub fn generate(self, chance: &mut Chance) -> Bytes {
        let shape = self.some_version(chance);
        let m = chance.within(1, shape.columns);
        let n = chance.within(shape.fewest, shape.reads);
        let mut bytes = shape.header(m, n);
        for _ in 0..n {
            shape.push_read(&mut bytes, m, chance);
        }
        bytes.put_size();
        bytes
    }
}

// Few reads and columns, of one of the kinds of block.
pub fn some_shape(chance: &mut Chance) -> Shape {
    match chance.below(7) {
        0 => Shape::new(6, 0, 6),
        1 => Shape::new(12, 1, 6).holes(8),
        2 => Shape::new(6, 1, 6).holes(4).weights(1, 9),
        3 => Shape::new(5, 2, 7).holes(2).weights(1, 1),
        4 => Shape::new(5, 2, 7).holes(3).weights(0, 1),
        5 => Shape::new(5, 1, 7).holes(3).weights(0, 3).empty(3),
        _ => Shape::new(9, 2, 7).holes(3).weights(0, 3).apart(),
    }
}
