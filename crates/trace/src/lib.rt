// The trace: reading it onto a sheet, writing it, and both at once.
#![tactic(auto)]

pub mod copy;
pub mod fault;
pub mod read;
mod row;
pub mod write;
