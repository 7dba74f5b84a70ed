// The frame of a trace: its header, where its records lie, and the numbers of its order.
#![tactic(auto)]

pub mod fault;
pub mod header;
pub mod kind;
pub mod layout;
pub mod order;
pub mod records;
