// Items: what a history's operations add and take.
#![tactic(auto)]

pub mod fault;
pub mod item;
pub mod lane;
pub mod stamp;
pub mod ticket;
