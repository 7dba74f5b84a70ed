// The queue by counting: a code's place is how many codes stand at the arrival positions before its own, and that is
// read from partial sums over blocks of positions.
#![tactic(auto)]

pub mod answers_as_queue;
mod arrivals;
mod blocks;
pub mod queue;
mod slot;
