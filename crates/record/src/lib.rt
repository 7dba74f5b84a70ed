// The records of a trace: 24 bytes for each operation.
#![tactic(auto)]

pub mod bytes;
pub mod decoding;
pub mod encoding;
pub mod fault;
