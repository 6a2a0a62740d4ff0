// One block, converted by `velejume::convert` and held against the converter of `exhaustive`: both numbers and every byte of the room,
// those that are not lent included.
use exhaustive::converter::convert;
use exhaustive::refusals::Numbers;
use exhaustive::rooms::filled_bytes;
use report::lines::Tally;
use report::same::{same_items, same_numbers};

// Room for a new block.
type Room = [u8; 8192];

// A block, converted in a room of this size, against two numbers and what the room is to hold.
fn against(block: &[u8], size: usize, expected: Numbers, room: &Room, tally: &mut Tally) {
    let mut lent: Room = filled_bytes();
    let r = velejume::convert(block, &mut lent[..size.min(8192)]);
    let found = Numbers::new(r.number as usize, r.second as usize);
    match found.number {
        0 => tally.count_converted(),
        number => tally.count(number),
    }
    if same_numbers(found, expected, tally) {
        same_items("output byte", &lent, room, tally);
    }
}

// A block against the converter of `exhaustive`.
pub fn against_converter(block: &[u8], size: usize, tally: &mut Tally) {
    let mut room: Room = filled_bytes();
    let expected = Numbers::from(convert(block, size, &mut room));
    against(block, size, expected, &room, tally);
}

// A block against two stated numbers, which the converter of `exhaustive` has to give too.
pub fn against_numbers(block: &[u8], size: usize, expected: Numbers, tally: &mut Tally) {
    let mut room: Room = filled_bytes();
    let own = Numbers::from(convert(block, size, &mut room));
    against(block, size, expected, &room, tally);
    same_numbers(own, expected, tally);
}
