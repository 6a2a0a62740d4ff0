// One block, solved in a mode by `velejume::phase` or `velejume::phase_heterozygous` and held against what is expected: both numbers, every
// work entry and every output byte, those that are not lent included.
use cases::stated::Stated;
use exhaustive::charge::Mode;
use exhaustive::output::{put_head, put_marks};
use exhaustive::refusals::Numbers;
use exhaustive::rooms::{Held, Rooms, put_entries};
use exhaustive::solver::solve;
use fields::word;
use report::lines::Tally;
use report::same::{same_call, same_numbers};

// The call of a mode.
fn called(block: &[u8], mode: Mode, work: &mut [u32], out: &mut [u8]) -> velejume::Numbers {
    match mode {
        Mode::General => velejume::phase(block, work, out),
        Mode::Heterozygous => velejume::phase_heterozygous(block, work, out),
    }
}

// A block against two numbers and what both rooms are to hold.
fn against(
    block: &[u8],
    mode: Mode,
    rooms: Rooms,
    expected: Numbers,
    held: &Held,
    tally: &mut Tally,
) {
    let mut lent = Held::new();
    let r = called(
        block,
        mode,
        &mut lent.work[..rooms.work],
        &mut lent.out[..rooms.out],
    );
    let found = Numbers::new(r.number as usize, r.second as usize);
    tally.count(found.number);
    same_call(found, expected, &lent, held, tally);
}

// A block against the exhaustive solver.
pub fn against_search(block: &[u8], mode: Mode, rooms: Rooms, tally: &mut Tally) {
    let mut held = Held::new();
    let expected = Numbers::from(solve(block, mode, rooms, &mut held));
    against(block, mode, rooms, expected, &held, tally);
}

// A block against two stated numbers, and for what the rooms are to hold against the exhaustive solver, which has to give these too.
pub fn against_numbers(
    block: &[u8],
    mode: Mode,
    rooms: Rooms,
    expected: Numbers,
    tally: &mut Tally,
) {
    let mut held = Held::new();
    let searched = Numbers::from(solve(block, mode, rooms, &mut held));
    against(block, mode, rooms, expected, &held, tally);
    same_numbers(searched, expected, tally);
}

// A block against what is stated of it.
pub fn against_stated(block: &[u8], mode: Mode, stated: Stated<'_>, tally: &mut Tally) {
    let mut held = Held::new();
    put_entries(&mut held.work, stated.entries);
    put_head(
        &mut held.out,
        stated.cost,
        stated.flips,
        word(block, 7),
        word(block, 5),
    );
    put_marks(&mut held.out, stated.marks);
    let expected = Numbers::new(0, stated.cost);
    against(block, mode, Rooms::ample(), expected, &held, tally);
}
