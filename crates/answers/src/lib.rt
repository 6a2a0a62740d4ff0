// Document 02 for the trials: answers that a builder may give, and the verdicts on them from the exhaustive solver.
#![tactic(auto)]

pub mod builders;
pub mod marks;
pub mod verdicts;
