// A small generator: 32 binary digits, shifted and folded onto themselves. The same numbers in every run.
ghost use Rattle.std.specs.Prelude.{◌<◌, ◌≤◌};

#[derive(Drop)]
pub struct Chance {
    state: u32,
}

impl Chance {
    pub fn new(state: u32) -> Chance {
        Chance { state }
    }

    fn next(&mut self) -> u32 {
        self.state ^= self.state << 13;
        self.state ^= self.state >> 17;
        self.state ^= self.state << 5;
        self.state
    }

    // A number below the limit.
    pub fn below(&mut self, limit: usize) -> usize
        requires { 0 < limit }
        ensures { result < limit }
    {
        (self.next() >> 4) as usize % limit
    }

    // A number from `from` to `to`.
    pub fn within(&mut self, from: u8, to: u8) -> usize
        ensures { (from ≤ result) × (result ≤ 255) }
    {
        let start = usize::from(from);
        if to <= from {
            return start;
        }
        start + self.below(usize::from(to - from) + 1)
    }
}
