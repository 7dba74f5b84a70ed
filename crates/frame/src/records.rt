// The header, the records and the order among the bytes of a trace.
ghost use Rattle.std.specs.Prelude.{◌≡◌, ℕ, if◌then◌else◌, Some, None, nat_lt};
ghost use Rattle.std.specs.List.{slice_get};
ghost use Rattle.std.specs.Option.{option_map};
ghost use Rattle.frame.specs.Layout.{record_count, record_at, records_in};

use crate::layout::{HEADER_LEN, OPERATION_LEN};
use record::encoding::RECORD_LEN;

// The bytes of a trace, of which its records are parts.
#[derive(Clone, Copy, PartialEq, Eq, Debug)]
pub struct Trace<'a> {
    bytes: &'a [u8],
}

impl<'a> Trace<'a> {
    pub fn new(bytes: &'a [u8]) -> Trace<'a>
        ensures { result.bytes.now ≡ bytes.now }
    {
        Trace { bytes }
    }

    // How many records the bytes hold: 26 bytes after the header for each, its order number included.
    pub fn count(&self) -> usize
        ensures { result ≡ record_count self.now.bytes.now }
    {
        self.bytes.len().saturating_sub(HEADER_LEN) / OPERATION_LEN
    }

    // The bytes of each record in turn, a part of the trace: at each place those that `record` gives, and none past the last.
    pub fn records(&self) -> &'a [[u8; RECORD_LEN]]
        ensures in_turn { result.now ≡ records_in self.now.bytes.now }
        ensures by_number { (i : ℕ) → slice_get result.now i ≡ (if nat_lt i (record_count self.now.bytes.now) then Some (record_at i self.now.bytes.now) else None) }
    {
        let body = &self.bytes[self.bytes.len().min(HEADER_LEN)..];
        &body.as_chunks().0[..self.count()]
    }

    // The bytes of the record numbered `i`, a part of the trace, and none past the last.
    // Kept (rule of the project): by the rules a record is taken as the part of the bytes at 8 + 24 x number, and so it is here; `records` says that the same parts lie in a row.
    pub fn record(&self, i: usize) -> Option<&'a [u8]>
        ensures { option_map (λ x. x.now) result ≡ (if nat_lt i (record_count self.now.bytes.now) then Some (record_at i self.now.bytes.now) else None) }
    {
        if i >= self.count() {
            return None;
        }
        let start = HEADER_LEN + RECORD_LEN * i;
        Some(&self.bytes[start..start + RECORD_LEN])
    }
}
