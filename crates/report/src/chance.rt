// Rooms for a block, by chance.
use cases::random::Chance;
use exhaustive::rooms::Rooms;
use exhaustive::solver::measure;

// Rooms that are ample, exact, one short or of any size.
pub fn some_rooms(block: &[u8], chance: &mut Chance) -> Rooms {
    let (work, out) = measure(block).map_or((0, 0), |sizes| (sizes.work, sizes.out));
    match chance.below(8) {
        0 => Rooms::lent(work, out),
        1 => Rooms::lent(work.saturating_sub(1), out),
        2 => Rooms::lent(work, out.saturating_sub(1)),
        3 => Rooms::lent(chance.below(600), chance.below(60)),
        _ => Rooms::ample(),
    }
}
