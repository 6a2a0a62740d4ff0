// What a builder's answer has at a column, beside the sums there.
ghost use Rattle.std.specs.Prelude.{◌≡◌};
ghost use Rattle.stated.specs.Stated.{dash_of, against_of, other_of};

// One side of a column: its two sums, and the builder's letter.
#[derive(Clone, Copy)]
pub struct SideAt {
    pub w0: u32,
    pub w1: u32,
    pub letter: u8,
}

// Both sides of a column.
#[derive(Clone, Copy)]
pub struct ColumnAt {
    pub first: SideAt,
    pub second: SideAt,
}

impl SideAt {
    // A `-` where the sums differ.
    pub fn dash(self) -> bool
        ensures { result ≡ dash_of self }
    {
        self.letter == 2 && self.w0 != self.w1
    }

    // The weight of the entries that disagree with the letter; a `-` is read as 0.
    pub fn against(self) -> u32
        ensures { result ≡ against_of self }
    {
        if self.letter == 1 { self.w1 } else { self.w0 }
    }

    // A letter that is not the reported one.
    pub fn other_letter(self) -> bool
        ensures { result ≡ other_of self }
    {
        self.letter != letters::reported(self.w0, self.w1)
    }
}
