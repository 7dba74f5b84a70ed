// Text that is written into memory which a caller lends: words and numbers, one after another, as far as they fit.
#![tactic(auto)]

pub mod piece;
pub mod text;
