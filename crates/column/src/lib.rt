// One column of the table: the pass that writes its entries.
#![tactic(auto)]

ghost use Rattle.std.specs.Prelude.{◌≤◌};
ghost use Rattle.sums.specs.Sums.{LightPairs};

mod pass;
mod walk;

// A column with p active reads: their pairs of weights, their masks, what it takes over from the column before, and the mode.
// Pairs and masks are arrays of their own: the definitions sum the one and fold with the other, and of one array of both each would be a map.
#[derive(Clone, Copy)]
pub struct Column<'a> {
    pub w: &'a [[u32; 2]; 12],
    pub turn: &'a [usize; 12],
    pub p: usize,
    pub taken: &'a [u32],
    pub heterozygous: bool,
    ghost few: { p ≤ 12 },
    ghost light: { LightPairs w.now p 65535 },
}
