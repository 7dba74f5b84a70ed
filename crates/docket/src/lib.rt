// The docket: an order of the operations of a sheet, placed step by step on a holder.
#![tactic(auto)]

pub mod answer_calls;
pub mod buffers;
pub mod docket;
mod entry;
mod ledger;
pub mod slot;
mod step;
