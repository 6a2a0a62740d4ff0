// What the trials share: the rooms that chance picks, how kinds are gone through, and what is printed, a line for each kind of trial and
// for each of the first differences.
#![tactic(auto)]

pub mod chance;
pub mod kinds;
pub mod lines;
pub mod same;
