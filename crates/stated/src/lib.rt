// What a builder's answer states: each check of its own, 50 to 54, and how it compares with ours.
#![tactic(auto)]

ghost use Rattle.std.specs.Prelude.{◌≡◌, not, ◌||◌, ◌+◌, ◌*◌, ◌≤◌, ◌<◌, ltb, eqb, length, get_or};
ghost use Rattle.meaning.specs.Numbers.{any_to};
ghost use Rattle.meaning.specs.Judge.{stated_reads, stated_columns, malformed, unknown_mark};
ghost use Rattle.stated.specs.Stated.{Sized};

mod side;
mod stated;

pub use side::{ColumnAt, SideAt};
pub use stated::Stated;

// 50: fewer than 17 bytes, version not 2, or a length field that does not fit.
#[tactic(auto, unfolding(meaning::specs::Judge::malformed))]
pub fn malformed(answer: &[u8]) -> bool
    ensures { result ≡ malformed answer.now }
{
    if answer.len() < 17 || answer[0] != 2 {
        return true;
    }
    let said = layout::long_at(answer, 1);
    let n = layout::word_at(answer, 13);
    let m = layout::word_at(answer, 15);
    said != answer.len() - 5 || said != 12 + n + 2 * m
}

// 51: other n or m.
pub fn other_counts(shape: layout::Shape, answer: &[u8]) -> bool
    requires { 17 ≤ length answer.now }
    ensures { result
        ≡ (not (eqb (stated_reads answer.now) shape.n) || not (eqb (stated_columns answer.now) shape.m)) }
{
    layout::word_at(answer, 13) != shape.n || layout::word_at(answer, 15) != shape.m
}

// Whether one of the bytes is above `most`.
fn any_above(bytes: &[u8], most: u8) -> bool
    ensures { result ≡ any_to (length bytes.now) (λ i. ltb most (get_or bytes.now i 0)) }
{
    bytes.iter().any(|&b| b > most)
}

// 52: a side above 1 or a letter above 2.
pub fn unknown_mark(shape: layout::Shape, answer: &[u8]) -> bool
    requires { Sized answer.now shape.m shape.n }
    ensures { result ≡ unknown_mark answer.now }
{
    let a = 17 + shape.n;
    let e = a + 2 * shape.m;
    if any_above(&answer[17..a], 1) {
        return true;
    }
    any_above(&answer[a..e], 2)
}

// Some byte of the builder's sides is not ours.
pub fn other_sides(ours: &[u8], theirs: &[u8]) -> bool
    requires { length ours.now ≡ length theirs.now }
    ensures { result
        ≡ any_to (length ours.now) (λ i. not (eqb (get_or theirs.now i 0) (get_or ours.now i 0))) }
{
    ours != theirs
}
