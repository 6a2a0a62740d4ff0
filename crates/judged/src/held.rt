// One answer, judged by `velejume::judge` and held against the judging of `answers`: both numbers and every work entry, those that are not
// lent included.
use answers::verdicts::judging;
use exhaustive::refusals::Numbers;
use exhaustive::rooms::{Held, Rooms, filled_table};
use report::lines::Tally;
use report::same::{same_items, same_numbers};

// An answer, judged in the work room of these, against two numbers and what the room is to hold.
fn against(
    block: &[u8],
    answer: &[u8],
    rooms: Rooms,
    expected: Numbers,
    held: &Held,
    tally: &mut Tally,
) {
    let mut lent = filled_table();
    let r = velejume::judge(block, answer, &mut lent[..rooms.work]);
    let found = Numbers::new(r.number as usize, r.second as usize);
    tally.count(found.number);
    if same_numbers(found, expected, tally) {
        same_items("work entry", &lent, &held.work, tally);
    }
}

// An answer against the judging of `answers`.
pub fn against_judging(block: &[u8], answer: &[u8], rooms: Rooms, tally: &mut Tally) {
    let mut held = Held::new();
    let expected = judging(block, answer, rooms, &mut held);
    against(block, answer, rooms, expected, &held, tally);
}

// An answer to P1, in as much work room as it needs, against its stated verdict, which the judging of `answers` has to give too.
pub fn against_stated(block: &[u8], answer: &[u8], stated: Numbers, tally: &mut Tally) {
    let rooms = Rooms::lent(8, 4096);
    let mut held = Held::new();
    let own = judging(block, answer, rooms, &mut held);
    against(block, answer, rooms, stated, &held, tally);
    same_numbers(own, stated, tally);
}
