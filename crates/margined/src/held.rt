// One block, solved by `velejume::phase_margins` and held against what is expected: both numbers, every work entry, every output byte and
// every number of the run, those that are not lent included.
use exhaustive::refusals::Numbers;
use exhaustive::rooms::{Held, Rooms, Table, filled_table, put_entries};
use exhaustive::solver::solve_margins;
use report::lines::Tally;
use report::same::{same_call, same_items, same_numbers};

// The longest run that is lent.
pub const AMPLE_RUN: usize = 16384;

// A block, with a run of this length, against two numbers and what both rooms and the run are to hold.
fn against(
    block: &[u8],
    rooms: Rooms,
    run: usize,
    expected: Numbers,
    held: &Held,
    margins: &Table,
    tally: &mut Tally,
) {
    let mut lent = Held::new();
    let mut numbers = filled_table();
    let r = velejume::phase_margins(
        block,
        &mut lent.work[..rooms.work],
        &mut lent.out[..rooms.out],
        &mut numbers[..run.min(AMPLE_RUN)],
    );
    let found = Numbers::new(r.number as usize, r.second as usize);
    tally.count(found.number);
    if same_call(found, expected, &lent, held, tally) {
        same_items("margin", &numbers, margins, tally);
    }
}

// A block against the exhaustive solver; and the two numbers of that.
pub fn against_search(block: &[u8], rooms: Rooms, run: usize, tally: &mut Tally) -> Numbers {
    let mut held = Held::new();
    let mut margins = filled_table();
    let solved = solve_margins(block, rooms, run, &mut held, &mut margins);
    let expected = Numbers::from(solved);
    against(block, rooms, run, expected, &held, &margins, tally);
    expected
}

// A block against the exhaustive solver, which has to give the two stated numbers.
pub fn against_numbers(
    block: &[u8],
    rooms: Rooms,
    run: usize,
    expected: Numbers,
    tally: &mut Tally,
) {
    let searched = against_search(block, rooms, run, tally);
    same_numbers(searched, expected, tally);
}

// A block against its stated margins, which the exhaustive solver has to give too, and for all else against that.
pub fn against_stated(block: &[u8], stated: &[u32], tally: &mut Tally) {
    let rooms = Rooms::ample();
    let mut held = Held::new();
    let mut searched = filled_table();
    let solved = solve_margins(block, rooms, AMPLE_RUN, &mut held, &mut searched);
    let expected = Numbers::from(solved);
    let mut margins = filled_table();
    put_entries(&mut margins, stated);
    against(block, rooms, AMPLE_RUN, expected, &held, &margins, tally);
    same_items("margin", &searched, &margins, tally);
}
