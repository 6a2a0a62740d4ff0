// Blocks to try a solver on: document 01's examples, reads that are all alike, blocks of a shape by chance, and damaged ones.
#![tactic(auto)]

pub mod alike;
pub mod damage;
pub mod examples;
pub mod generate;
pub mod kinds;
pub mod random;
pub mod stated;
