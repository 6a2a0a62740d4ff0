// The reads of a block, one after the other: the checks 5, 38, 6 and 7, and where each read lies.
#![tactic(auto)]

ghost use Rattle.std.specs.Prelude.{◌≡◌, ℕ, ◌+◌, ◌*◌, ◌≤◌, length, drop};
ghost use Rattle.meaning.specs.Refusals.{reads_fault};
ghost use Rattle.refusal.specs.Numbers.{checked_numbers};
ghost use Rattle.layout.specs.Places.{Noted};
ghost use Rattle.reads.specs.Search.{head_fault, HeadPlace, SearchEnd};
ghost use Rattle.reads.specs.Cells.{faulty_cell};
ghost use Rattle.reads.specs.Lying.{Starts, Lies};

use layout::{Place, Reads, Shape};
use refusal::Refusal;

// Where a read's cells start and end.
#[derive(Clone, Copy)]
struct Cells {
    start: usize,
    end: usize,
}

// Whether cell i of a read's cells is faulty: a letter above 2, a hole with weight, or a hole that is the first or the last cell.
#[tactic(auto, using(crate::proofs::CellChecks::is_letter, crate::proofs::CellChecks::is_above))]
fn cell_bad(shape: Shape, cells: &[u8], i: usize) -> bool
    requires { shape.size * i + shape.size ≤ length cells.now }
    ensures { result ≡ faulty_cell shape.size cells.now i }
{
    let at = shape.size * i;
    match cells[at] {
        0 | 1 => false,
        2 => shape.weight_at(cells, at) != 0 || i == 0 || at + shape.size == cells.len(),
        _ => true,
    }
}

// Read r, which starts at `at`: the checks 5, 38 and 6.
fn read_head(shape: Shape, reads: &[u8], r: u32, at: usize) -> Result<Cells, Refusal>
    requires { at ≤ length reads.now }
    ensures result_value { (checked_numbers result).number ≡ head_fault shape.size shape.m (drop at reads.now) }
    ensures head_place { HeadPlace shape.size reads.now r at result }
{
    if reads.len() - at < 2 {
        return Err(Refusal::Length(r));
    }
    let len = layout::word_at(reads, at);
    if len < 2 {
        return Err(Refusal::Length(r));
    }
    let count = shape.cells_in(len - 2);
    if shape.size * count != len - 2 {
        return Err(Refusal::Length(r));
    }
    if reads.len() - at < len + 2 {
        return Err(Refusal::Length(r));
    }
    let first = layout::word_at(reads, at + 2);
    if count == 0 {
        if shape.size == 3 {
            return Err(Refusal::Empty(r));
        }
        if first != 0 {
            return Err(Refusal::Place(r));
        }
    }
    if first + count > shape.m {
        return Err(Refusal::Place(r));
    }
    Ok(Cells {
        start: at + 4,
        end: at + len + 2,
    })
}

// The checks 5, 38, 6 and 7 of the n reads, and the place behind the last of them: the search stops at the first faulty cell of the first faulty read.
pub fn first_fault(shape: Shape, reads: &[u8]) -> Result<usize, Refusal>
    ensures result_value { checked_numbers result ≡ reads_fault shape.size shape.m shape.n 0 reads.now }
    ensures search_end { SearchEnd reads.now shape.n result }
{
    let mut at: usize = 0;
    let mut r: usize = 0;
    // document 01 asks for this form: nested loops, left from inside by a label with the refusal and the read number
    'reads: loop {
        if r >= shape.n {
            break 'reads Ok(at);
        }
        let Cells { start, end } = read_head(shape, reads, r as u32, at)?;
        let cells = &reads[start..end];
        for i in 0..shape.cells_in(cells.len()) {
            if cell_bad(shape, cells, i) {
                break 'reads Err(Refusal::Cell(r as u32));
            }
        }
        at = end;
        r += 1;
    }
}

// A read that passes the checks, as it lies in the bytes: its first column, its number of cells, where they start, and where the next read starts.
#[derive(Clone, Copy)]
pub struct Lying {
    pub first: usize,
    pub count: usize,
    pub start: usize,
    pub next: usize,
}

// The read that starts at `at`.
pub fn read_at(reads: &Reads<'_>, at: usize) -> Lying
    requires { (r : ℕ) × Starts reads.now r at }
    ensures { (r : ℕ) → Starts reads.now r at → Lies reads.now r result }
{
    let len = layout::word_at(reads.bytes, at);
    Lying {
        first: layout::word_at(reads.bytes, at + 2),
        count: reads.shape.cells_in(len - 2),
        start: at + 4,
        next: at + 2 + len,
    }
}

// Where each read lies.
pub fn places(reads: &Reads<'_>, places: &mut [Place])
    requires { reads.now.shape.n ≤ length places.old }
    ensures { Noted reads.now.shape reads.now.bytes.now places.new }
{
    let mut at: usize = 0;
    // a loop over `&mut places[..n]` is no shorter, and its proof is longer
    for r in 0..reads.shape.n {
        let read = read_at(reads, at);
        places[r] = Place {
            start: read.start as u32,
            first: read.first as u32,
            end: (read.first + read.count) as u32,
        };
        at = read.next;
    }
}
