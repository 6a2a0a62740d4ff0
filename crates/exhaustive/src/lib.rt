// A solver of documents 01 and 02 by plain search, straight from their definitions, which shares nothing with the column method; and a
// converter from document 02's words, which shares nothing with the library's.
#![tactic(auto)]

pub mod charge;
pub mod converter;
pub mod matrix;
pub mod output;
pub mod reads;
pub mod refusals;
pub mod rooms;
pub mod search;
pub mod solver;
