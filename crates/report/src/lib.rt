// From the bytes of a trace to the text that is printed of it, in memory that a caller lends.
#![tactic(auto)]

pub mod line;
mod lines;
pub mod refused;
pub mod report;
pub mod verdict;
