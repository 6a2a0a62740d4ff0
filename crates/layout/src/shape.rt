// The shape of the reads that lie in a part of bytes.
ghost use Rattle.std.specs.Prelude.{◌≡◌, ◌+◌, ◌-◌, ◌/◌, ◌≤◌, length};
ghost use Rattle.meaning.specs.Numbers.{big_endian};
ghost use Rattle.layout.specs.Cells.{CellSize};

// The bytes of a cell, two or three, the columns m and the reads n.
#[derive(Clone, Copy)]
pub struct Shape {
    pub size: usize,
    pub m: usize,
    pub n: usize,
    ghost cell: { CellSize size },
    ghost few_columns: { m ≤ 1024 },
    ghost few_reads: { n ≤ 1024 },
}

// The weight of the cell that starts at `at`: the bytes behind its letter, one or two.
pub fn weight_at(cells: &[u8], size: usize, at: usize) -> u32
    requires { CellSize size × (at + size ≤ length cells.now) }
    ensures { (result ≡ big_endian (size - 1) cells.now (at + 1)) × (result ≤ 65535) }
{
    let first = u32::from(cells[at + 1]);
    if size == 2 {
        return first;
    }
    first * 256 + u32::from(cells[at + 2])
}

// How many cells so many bytes are. Dividing by a known number is fast.
pub fn cells_in(bytes: usize, size: usize) -> usize
    requires { CellSize size }
    ensures { result ≡ bytes / size }
{
    if size == 2 { bytes / 2 } else { bytes / 3 }
}

impl Shape {
    // The weight of the cell that starts at `at`.
    pub fn weight_at(self, cells: &[u8], at: usize) -> u32
        requires { at + self.size ≤ length cells.now }
        ensures { (result ≡ big_endian (self.size - 1) cells.now (at + 1)) × (result ≤ 65535) }
    {
        weight_at(cells, self.size, at)
    }

    // How many cells so many bytes are.
    pub fn cells_in(self, bytes: usize) -> usize
        ensures { result ≡ bytes / self.size }
    {
        cells_in(bytes, self.size)
    }
}
