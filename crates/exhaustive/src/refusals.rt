// The checks 1 to 8 and 38, from the tables of documents 01 and 02 and nothing else.
use crate::reads::{Read, Reads};
use fields::{byte, four, word};

// What a call may be refused for, with its second number where it has one: a read, a column, or what is needed.
#[derive(Clone, Copy, PartialEq, Eq)]
pub enum Refusal {
    Header,
    Version,
    Size,
    Counts,
    Length(usize),
    Columns(usize),
    Cells(usize),
    Behind,
    Crowded(usize),
    Work(usize),
    Output(usize),
    Run(usize),
    Empty(usize),
    Room(usize),
    // More reads or columns than this solver has room for. No call gives its number, so that it shows as a difference.
    Unsolved(usize),
}

// The two numbers of a call, as the documents state them and the call that is tried gives them.
#[derive(Clone, Copy, PartialEq, Eq)]
pub struct Numbers {
    pub number: usize,
    pub second: usize,
}

impl Numbers {
    pub fn new(number: usize, second: usize) -> Numbers {
        Numbers { number, second }
    }
}

impl From<Refusal> for Numbers {
    fn from(refusal: Refusal) -> Numbers {
        match refusal {
            Refusal::Header => Numbers::new(1, 0),
            Refusal::Version => Numbers::new(2, 0),
            Refusal::Size => Numbers::new(3, 0),
            Refusal::Counts => Numbers::new(4, 0),
            Refusal::Length(r) => Numbers::new(5, r),
            Refusal::Columns(r) => Numbers::new(6, r),
            Refusal::Cells(r) => Numbers::new(7, r),
            Refusal::Behind => Numbers::new(8, 0),
            Refusal::Crowded(j) => Numbers::new(9, j),
            Refusal::Work(need) => Numbers::new(10, need),
            Refusal::Output(need) => Numbers::new(11, need),
            Refusal::Run(need) => Numbers::new(13, need),
            Refusal::Empty(r) => Numbers::new(38, r),
            Refusal::Room(need) => Numbers::new(39, need),
            Refusal::Unsolved(count) => Numbers::new(99, count),
        }
    }
}

// 0 and the cost where a block is accepted.
impl From<Result<usize, Refusal>> for Numbers {
    fn from(solved: Result<usize, Refusal>) -> Numbers {
        match solved {
            Ok(cost) => Numbers::new(0, cost),
            Err(refusal) => Numbers::from(refusal),
        }
    }
}

// The checks 1 to 4.
fn check_header(block: &[u8]) -> Result<(), Refusal> {
    if block.len() < 9 {
        return Err(Refusal::Header);
    }
    if !matches!(byte(block, 0), 1 | 2) {
        return Err(Refusal::Version);
    }
    if four(block, 1) != block.len() - 5 {
        return Err(Refusal::Size);
    }
    let m = word(block, 5);
    if m == 0 || m > 1024 || word(block, 7) > 1024 {
        return Err(Refusal::Counts);
    }
    Ok(())
}

// A letter above 2, a hole with weight, or a hole at an end.
fn faulty(letter: usize, weight: usize, inner: bool) -> bool {
    letter > 2 || letter == 2 && (weight > 0 || !inner)
}

fn faulty_cells(read: Read<'_>, c: usize) -> bool {
    (0..c).any(|i| faulty(read.letter(i), read.weight(i), i > 0 && i + 1 < c))
}

// The check of a read without a cell: version 2 refuses it, version 1 has it at column 0.
fn check_empty(read: Read<'_>, version: usize) -> Result<(), Refusal> {
    if version == 2 {
        return Err(Refusal::Empty(read.number));
    }
    if read.first_column() > 0 {
        return Err(Refusal::Columns(read.number));
    }
    Ok(())
}

// The checks 5, 38, 6 and 7 for a read of a block of this version with m columns.
fn check_read(read: Read<'_>, version: usize, m: usize) -> Result<(), Refusal> {
    let length = read.length();
    let odd = length < 2 || (length - 2) % read.cell_size() > 0;
    if read.left() < 2 || odd || read.left() < length + 2 {
        return Err(Refusal::Length(read.number));
    }
    let c = read.cells();
    if c == 0 {
        return check_empty(read, version);
    }
    if read.first_column() + c > m {
        return Err(Refusal::Columns(read.number));
    }
    if faulty_cells(read, c) {
        return Err(Refusal::Cells(read.number));
    }
    Ok(())
}

// The checks 1 to 8 and 38.
pub fn check(block: &[u8]) -> Result<(), Refusal> {
    check_header(block)?;
    let mut end = 9;
    for read in Reads::of(block) {
        check_read(read, byte(block, 0), word(block, 5))?;
        end = read.end();
    }
    if end < block.len() {
        return Err(Refusal::Behind);
    }
    Ok(())
}
