// The verdict on a builder's answer: with the table filled, the first of 50 to 57 that applies.
#![tactic(auto)]

ghost use Rattle.std.specs.Prelude.{◌≡◌, ◌*◌, ◌≤◌, length};
ghost use Rattle.meaning.specs.Judge.{other_answer, verdict};
ghost use Rattle.meaning.specs.Charge.{charge, best};
ghost use Rattle.meaning.specs.Answer.{sides_of};
ghost use Rattle.layout.specs.Matrices.{matrix_of};
ghost use Rattle.written.specs.Output.{RightColumns};
ghost use Rattle.stated.specs.Stated.{Sized};
ghost use Rattle.verdict.specs.Verdicts.{verdict_number, verdict_second, verdict_numbers};
ghost use Rattle.verdict.specs.Stages.{Marked};

use sides::Table;
use stated::Stated;

// The verdicts 50 to 57, 55 with the least cost.
#[derive(Clone, Copy)]
pub enum Verdict {
    Malformed,
    OtherCounts,
    UnknownMark,
    FalseDash,
    WrongCost,
    NotLeast(u32),
    OtherAnswer,
    Ours,
}

impl Verdict {
    // The number that a judging returns.
    pub fn number(self) -> u32
        ensures { result ≡ verdict_number self }
    {
        match self {
            Self::Malformed => 50,
            Self::OtherCounts => 51,
            Self::UnknownMark => 52,
            Self::FalseDash => 53,
            Self::WrongCost => 54,
            Self::NotLeast(_) => 55,
            Self::OtherAnswer => 56,
            Self::Ours => 57,
        }
    }

    // Its second number: the least cost where the answer's is not, otherwise 0.
    pub fn second(self) -> u32
        ensures { result ≡ verdict_second self }
    {
        match self {
            Self::NotLeast(least) => least,
            _ => 0,
        }
    }
}

// 56: other sides or letters than ours.
fn other_answer(stated: &Stated, ours: &[u8]) -> bool
    requires { ours.now ≡ sides_of (matrix_of stated.now.reads) (best charge (matrix_of stated.now.reads)) }
    ensures { result ≡ other_answer (matrix_of stated.now.reads) stated.now.answer.now }
{
    let e = 17 + stated.reads.shape.n;
    if stated::other_sides(ours, &stated.answer[17..e]) {
        return true;
    }
    stated.other_letters()
}

// 53 to 57, of an answer of our size with known marks. Its sides are tallied once for all that follows. `sides` is room for ours.
fn weighed(table: &Table, tally: &mut [u32], answer: &[u8], sides: &mut [u8]) -> Verdict
    requires right { RightColumns charge (matrix_of table.now.listed.reads) table.now.work.now }
    requires sized { Sized answer.now table.now.listed.reads.shape.m table.now.listed.reads.shape.n
        × Marked (matrix_of table.now.listed.reads) answer.now }
    requires m_in_bounds { (4 * table.now.listed.reads.shape.m ≤ length tally.old) × (table.now.listed.reads.shape.n ≡ length sides.old) }
    ensures { verdict_numbers result ≡ verdict (matrix_of table.now.listed.reads) answer.now }
{
    let reads = table.listed.reads;
    let e = 17 + reads.shape.n;
    tally::tally(&table.listed.placed(), &answer[17..e], tally);
    let stated = Stated {
        reads,
        tally,
        answer,
    };
    if stated.false_dash() {
        return Verdict::FalseDash;
    }
    if stated.wrong_cost() {
        return Verdict::WrongCost;
    }
    let least = table.least_last();
    if (least as usize) < layout::long_at(answer, 5) {
        return Verdict::NotLeast(least);
    }
    table.write_sides(sides);
    if other_answer(&stated, sides) {
        return Verdict::OtherAnswer;
    }
    Verdict::Ours
}

// The first verdict that applies, for reads whose table is filled. `tally` and `sides` are room to work in.
pub fn judged(table: &Table, tally: &mut [u32], answer: &[u8], sides: &mut [u8]) -> Verdict
    requires right { RightColumns charge (matrix_of table.now.listed.reads) table.now.work.now }
    requires m_in_bounds { (4 * table.now.listed.reads.shape.m ≤ length tally.old) × (table.now.listed.reads.shape.n ≡ length sides.old) }
    ensures { verdict_numbers result ≡ verdict (matrix_of table.now.listed.reads) answer.now }
{
    let shape = table.listed.reads.shape;
    if stated::malformed(answer) {
        return Verdict::Malformed;
    }
    if stated::other_counts(shape, answer) {
        return Verdict::OtherCounts;
    }
    if stated::unknown_mark(shape, answer) {
        return Verdict::UnknownMark;
    }
    weighed(table, tally, answer, sides)
}
