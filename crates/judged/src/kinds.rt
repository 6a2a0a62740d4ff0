// Answers to generated blocks, kind by kind, each against the judging of `answers`.
use crate::held::against_judging;
use answers::builders;
use answers::builders::build;
use cases::damage::{Field, damage, some_field};
use cases::generate::{Shape, some_shape};
use cases::random::Chance;
use exhaustive::rooms::Rooms;
use exhaustive::solver::measure;
use report::kinds::of_kind;
use report::lines::Tally;

// What else is amiss with a trial: nothing, a work room that is one short, a damaged block, or a block that is crowded.
#[derive(Clone, Copy, PartialEq, Eq)]
enum Amiss {
    Nothing,
    Short,
    Damaged,
    Crowded,
}

// What a kind is called, the answer, what is amiss, and how many are tried.
#[derive(Clone, Copy)]
struct Kind {
    name: &'static str,
    answer: builders::Kind,
    amiss: Amiss,
    trials: usize,
}

impl Kind {
    // Answers to sound blocks, in room enough.
    fn new(name: &'static str, answer: builders::Kind, trials: usize) -> Kind {
        Kind {
            name,
            answer,
            amiss: Amiss::Nothing,
            trials,
        }
    }

    fn amiss(self, amiss: Amiss) -> Kind {
        Kind { amiss, ..self }
    }
}

fn kinds() -> [Kind; 17] {
    [
        Kind::new("ours", builders::Kind::Ours, 600),
        Kind::new("with other flips", builders::Kind::Flips, 600),
        Kind::new("with sides exchanged", builders::Kind::Exchanged, 600),
        Kind::new("with one side exchanged", builders::Kind::Side, 600),
        Kind::new("of another division", builders::Kind::Division, 600),
        Kind::new("with another letter", builders::Kind::Letter, 600),
        Kind::new("with letters at ties", builders::Kind::Ties, 600),
        Kind::new("with another cost", builders::Kind::Cost, 600),
        Kind::new("with `-` put", builders::Kind::Dash, 600),
        Kind::new("with a mark damaged", builders::Kind::Mark, 1200),
        Kind::new("with other counts", builders::Kind::Counts, 600),
        Kind::new("with a byte damaged", builders::Kind::Byte, 1200),
        Kind::new("cut off", builders::Kind::Cut, 600),
        Kind::new("with bytes behind", builders::Kind::Behind, 600),
        Kind::new("judged in a short room", builders::Kind::Ours, 600).amiss(Amiss::Short),
        Kind::new("to a damaged block", builders::Kind::Ours, 1800).amiss(Amiss::Damaged),
        Kind::new("to a crowded block", builders::Kind::Ours, 120).amiss(Amiss::Crowded),
    ]
}

// A work room that is ample or exact; or one short.
fn some_rooms(block: &[u8], amiss: Amiss, chance: &mut Chance) -> Rooms {
    let need = measure(block).map_or(0, |sizes| sizes.work);
    let exact = Rooms::lent(need, 4096);
    if amiss == Amiss::Short && exact.work > 0 {
        return Rooms::lent(exact.work - 1, 4096);
    }
    if chance.below(2) == 0 {
        exact
    } else {
        Rooms::ample()
    }
}

fn shape_for(amiss: Amiss, chance: &mut Chance) -> Shape {
    match amiss {
        Amiss::Crowded => Shape::new(2, 12, 14).weights(0, 3),
        _ => some_shape(chance),
    }
}

fn field_for(amiss: Amiss, chance: &mut Chance) -> Option<Field> {
    match amiss {
        Amiss::Damaged => Some(some_field(chance)),
        _ => None,
    }
}

impl Kind {
    // One block and an answer to it. A block is damaged after it was answered.
    fn hold(&self, chance: &mut Chance, tally: &mut Tally) {
        let shape = shape_for(self.amiss, chance);
        let field = field_for(self.amiss, chance);
        let mut block = shape.generate(chance);
        let answer = build(block.as_slice(), self.answer, chance);
        damage(&mut block, field, chance);
        let rooms = some_rooms(block.as_slice(), self.amiss, chance);
        against_judging(block.as_slice(), answer.as_slice(), rooms, tally);
    }
}

// The same blocks and answers in every run.
pub fn run(call: &str, all: &mut Tally) {
    let mut chance = Chance::new(19970823);
    for kind in &kinds() {
        of_kind(
            call,
            kind.name,
            kind.trials,
            &mut chance,
            all,
            |chance, tally| {
                kind.hold(chance, tally);
            },
        );
    }
}
