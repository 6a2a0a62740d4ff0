// Reads that pass the checks, and the runs that are made of them, as types: who has one of these need not check again.
ghost use Rattle.std.specs.Prelude.{◌≡◌, ◌<◌};
ghost use Rattle.meaning.specs.Closing.{active_reads};
ghost use Rattle.meaning.proofs.Bounds.{Bytes};
ghost use Rattle.layout.specs.Reads.{matrix_in, Lawful};
ghost use Rattle.layout.specs.Places.{Noted};
ghost use Rattle.layout.specs.Ready.{Ready};

use crate::{Column, Place, Shape};

// Reads that pass the checks 1 to 7, and the bytes in which they lie.
#[derive(Clone, Copy)]
pub struct Reads<'a> {
    pub shape: Shape,
    pub bytes: &'a [u8],
    ghost lawful: { Lawful shape bytes.now },
    ghost fit: { Bytes bytes.now },
}

// With where each read lies.
#[derive(Clone, Copy)]
pub struct Placed<'a> {
    pub reads: Reads<'a>,
    pub places: &'a [Place],
    ghost noted: { Noted reads.shape reads.bytes.now places.now },
}

// With each column's active reads too: no column has more than 12.
#[derive(Clone, Copy)]
pub struct Listed<'a> {
    pub reads: Reads<'a>,
    pub places: &'a [Place],
    pub lists: &'a [Column],
    ghost ready: { Ready reads.shape reads.bytes.now places.now lists.now },
}

impl<'a> Listed<'a> {
    // Without the lists.
    pub fn placed(&self) -> Placed<'a>
        ensures { (result.reads ≡ self.now.reads) × (result.places ≡ self.now.places) }
    {
        Placed {
            reads: self.reads,
            places: self.places,
        }
    }

    // The active reads of column j, in closing order.
    pub fn active_reads(&self, j: usize) -> &'a [u16]
        requires { j < self.now.reads.shape.m }
        ensures { result.now ≡ active_reads (matrix_in self.now.reads.shape self.now.reads.bytes.now) j }
    {
        let column = &self.lists[j];
        &column.reads[..usize::from(column.count)]
    }
}
