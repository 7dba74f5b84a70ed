// Holders that are given lists of calls: a turn is a call with its answer beside it.
#![tactic(auto)]

pub mod calls;
