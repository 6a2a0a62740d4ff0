// What the lent runs hold: where each read lies, and each column's active reads.

// Where a read lies: where its cells start, its first column, the column after its last.
#[derive(Clone, Copy)]
pub struct Place {
    pub start: u32,
    pub first: u32,
    pub end: u32,
}

// A column's active reads in closing order: how many they are, and room for twelve.
#[derive(Clone, Copy)]
pub struct Column {
    pub count: u16,
    pub reads: [u16; 12],
}

// What a run of places holds before it is made.
pub const NOWHERE: Place = Place {
    start: 0,
    first: 0,
    end: 0,
};

// And a run of lists.
pub const NO_READS: Column = Column {
    count: 0,
    reads: [0; 12],
};
