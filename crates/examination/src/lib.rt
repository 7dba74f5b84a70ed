// The examination: from the bytes of a trace, or a sheet and an order of its operations, to a certificate or the first rule
// that is broken.
#![tactic(auto)]

pub mod certifying;
pub mod examining;
pub mod kind;
pub mod proposal;
