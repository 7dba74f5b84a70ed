// How many bytes the parts of a trace have.
use record::encoding::RECORD_LEN;

// The bytes of a header.
pub const HEADER_LEN: usize = 8;

// The bytes of an operation: its record, and its number in the order.
pub const OPERATION_LEN: usize = RECORD_LEN + 2;
