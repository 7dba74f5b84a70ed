// Answers to cases, by which this examiner is compared with another one.
#![tactic(auto)]

pub mod case;
pub mod cases;
mod dockets;
mod hash;
pub mod heap;
mod holders;
mod items;
pub mod laws;
mod numbers;
mod slots;
mod traces;
mod words;
