// Strict objects: one interface, its meaning, and the queue and the stack behind it.
#![tactic(auto)]

pub mod fault;
pub mod holder;
pub mod line;
pub mod queue;
mod row;
pub mod stack;
