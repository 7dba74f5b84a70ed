// The sheet: the operations of a history, in memory that the caller lends.
#![tactic(auto)]

pub mod alike;
pub mod fault;
pub mod operation;
pub mod pairing;
pub mod sheet;
