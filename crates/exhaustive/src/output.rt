// The answer block, laid out as document 01 has it, of version 2.
ghost use Rattle.std.specs.Prelude.{◌≤◌};

use fields::{put, put_four, put_word};

// Room for an answer block.
pub type Output = [u8; 4096];

const VERSION: u8 = 2;

// What stands before the sides.
pub fn put_head(out: &mut Output, cost: usize, flips: usize, n: usize, m: usize)
    requires { (n ≤ 65535) × (m ≤ 65535) }
{
    put(out, 0, VERSION);
    put_four(out, 1, 12 + n + 2 * m);
    put_four(out, 5, cost);
    put_four(out, 9, flips);
    put_word(out, 13, n);
    put_word(out, 15, m);
}

// A side or a letter, from its character.
fn value(mark: u8) -> u8 {
    match mark {
        b'0' => 0,
        b'-' => 2,
        _ => 1,
    }
}

// The sides and both haplotypes, each written as a character, blanks between.
pub fn put_marks(answer: &mut Output, marks: &[u8]) {
    let values = marks.iter().filter(|mark| **mark != b' ');
    for (place, mark) in answer.iter_mut().skip(17).zip(values) {
        *place = value(*mark);
    }
}
