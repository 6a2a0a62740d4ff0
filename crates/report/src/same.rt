// What is found, held against what is expected: two numbers, entries, bytes. Each answers whether they are the same and reports the
// first difference.
use crate::lines::Tally;
use exhaustive::refusals::Numbers;
use exhaustive::rooms::Held;
use std::fmt::Display;

pub fn same_numbers(found: Numbers, expected: Numbers, tally: &mut Tally) -> bool {
    if found.number != expected.number {
        tally.differs("number", found.number, expected.number);
    } else if found.second != expected.second {
        tally.differs("second number", found.second, expected.second);
    }
    found == expected
}

// Entries, margins or bytes, as many as both have.
pub fn same_items<T: Copy + PartialEq + Display + Drop>(
    what: &str,
    found: &[T],
    expected: &[T],
    tally: &mut Tally,
) -> bool {
    for (i, (one, other)) in found.iter().zip(expected).enumerate() {
        if one != other {
            tally.differs(format_args!("{what} {i}"), *one, *other);
            return false;
        }
    }
    true
}

// Both numbers, every work entry and every output byte of a call that phases.
pub fn same_call(
    found: Numbers,
    expected: Numbers,
    held: &Held,
    other: &Held,
    tally: &mut Tally,
) -> bool {
    same_numbers(found, expected, tally)
        && same_items("work entry", &held.work, &other.work, tally)
        && same_items("output byte", &held.out, &other.out, tally)
}
