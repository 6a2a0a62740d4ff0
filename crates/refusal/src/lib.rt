// The numbered refusals: why a call gives no answer.
#![tactic(auto)]

ghost use Rattle.std.specs.Prelude.{◌≡◌};
ghost use Rattle.refusal.specs.Numbers.{refusal_number, refusal_second};

// Which check applies, with the read, the column or the size that is told with it.
#[derive(Clone, Copy)]
pub enum Refusal {
    Short,
    Version,
    Size,
    Counts,
    Length(u32),
    Empty(u32),
    Place(u32),
    Cell(u32),
    LeftOver,
    Crowded(u32),
    Work(u32),
    Output(u32),
    Margins(u32),
    Room(u32),
}

impl Refusal {
    // The number that a call returns.
    pub fn number(self) -> u32
        ensures { result ≡ refusal_number self }
    {
        match self {
            Refusal::Short => 1,
            Refusal::Version => 2,
            Refusal::Size => 3,
            Refusal::Counts => 4,
            Refusal::Length(_) => 5,
            Refusal::Empty(_) => 38,
            Refusal::Place(_) => 6,
            Refusal::Cell(_) => 7,
            Refusal::LeftOver => 8,
            Refusal::Crowded(_) => 9,
            Refusal::Work(_) => 10,
            Refusal::Output(_) => 11,
            Refusal::Margins(_) => 13,
            Refusal::Room(_) => 39,
        }
    }

    // Its second number: a read, a column or the size needed.
    pub fn second(self) -> u32
        ensures { result ≡ refusal_second self }
    {
        match self {
            Refusal::Length(r) | Refusal::Empty(r) | Refusal::Place(r) | Refusal::Cell(r) => r,
            Refusal::Crowded(j) => j,
            Refusal::Work(need)
            | Refusal::Output(need)
            | Refusal::Margins(need)
            | Refusal::Room(need) => need,
            Refusal::Short
            | Refusal::Version
            | Refusal::Size
            | Refusal::Counts
            | Refusal::LeftOver => 0,
        }
    }
}
