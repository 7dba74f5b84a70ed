// What an order of operations on a queue or stack is, and what it costs. The operations are types that programs use
// too; everything else here is laws of the definitions, each the contract of a function.
#![tactic(auto)]

pub mod laws;
pub mod operation;
