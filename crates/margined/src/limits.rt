// Both sides of the limits in both versions: the numbers are those of documents 01 and 02, what the rooms and the run hold is the
// exhaustive solver's.
use crate::held::{against_numbers, against_stated};
use cases::alike::{Alike, heaviest, same};
use cases::generate::Shape;
use exhaustive::refusals::Numbers;
use exhaustive::rooms::Rooms;
use report::lines::Tally;

// Reads that are all alike, the rooms and the numbers of the run that are lent, and both numbers. `phased` has no run, and another `held`:
// one struct for both would carry a call.
#[derive(Clone, Copy)]
struct Limit {
    alike: Alike,
    rooms: Rooms,
    run: usize,
    expected: Numbers,
}

impl Limit {
    fn new(alike: Alike, rooms: Rooms, run: usize, number: usize, second: usize) -> Limit {
        Limit {
            alike,
            rooms,
            run,
            expected: Numbers::new(number, second),
        }
    }

    fn hold(&self, shape: Shape, tally: &mut Tally) {
        let block = self.alike.block(shape);
        against_numbers(block.as_slice(), self.rooms, self.run, self.expected, tally);
    }
}

fn limits() -> [Limit; 13] {
    let ample = Rooms::ample();
    let halves = Alike::new(1024, 3, 512, 512);
    let none = Alike::new(1024, 0, 0, 0);
    let one = Alike::new(1, 1, 0, 1);
    let four = Alike::new(3, 4, 0, 3);
    [
        // At most 1,024 columns, and one: the run exact, one short, none.
        Limit::new(halves, ample, 2048, 0, 0),
        Limit::new(halves, ample, 2047, 13, 2048),
        Limit::new(none, ample, 2048, 0, 0),
        Limit::new(none, ample, 0, 13, 2048),
        Limit::new(one, ample, 2, 0, 0),
        Limit::new(one, ample, 1, 13, 2),
        // All three exact; then the run one short, the output too, the work room too.
        Limit::new(four, Rooms::lent(24, 27), 6, 0, 0),
        Limit::new(four, Rooms::lent(24, 27), 5, 13, 6),
        Limit::new(four, Rooms::lent(24, 26), 5, 11, 27),
        Limit::new(four, Rooms::lent(23, 26), 5, 10, 24),
        // What the block is refused for comes before the run.
        Limit::new(Alike::new(2, 13, 1, 1), ample, 0, 9, 1),
        Limit::new(Alike::new(5, 1, 5, 1), ample, 0, 6, 0),
        Limit::new(Alike::new(1025, 0, 0, 0), ample, 0, 4, 0),
    ]
}

fn in_version(version: usize, tally: &mut Tally) {
    for limit in &limits() {
        limit.hold(same(version), tally);
    }
}

// 65,535 in every entry. The costs are from a search outside.
fn weights(tally: &mut Tally) {
    // Twelve with the same letter, in two columns: no margin is larger.
    let largest = Alike::new(2, 12, 0, 2).block(heaviest().zeros());
    against_stated(largest.as_slice(), &[786420, 786420, 0, 0], tally);
    let ample = Rooms::ample();
    Limit::new(Alike::new(8, 12, 0, 8), ample, 16, 0, 1834980).hold(heaviest(), tally);
    Limit::new(Alike::new(680, 4, 0, 680), ample, 1360, 0, 33095175).hold(heaviest(), tally);
}

pub fn run(call: &str, all: &mut Tally) {
    let mut tally = all.fresh();
    in_version(1, &mut tally);
    in_version(2, &mut tally);
    weights(&mut tally);
    tally.line(call, "limits", all);
}
