// What a docket answers to its calls, by the steps placed before, and what holds of every list of calls.
#![tactic(auto)]

pub mod certificate;
pub mod fault;
pub mod laws;
