// The 24 bytes of an operation.
ghost use Rattle.std.specs.Prelude.{◌≡◌, ◌++◌, Ok};
ghost use Rattle.record.specs.Bytes.{bytes_of_number};
ghost use Rattle.record.specs.Records.{decode_record, encode_record, word_of_method, FitMethod, Fit};

use item::item::Item;
use sheet::operation::{Method, Operation};

// How many bytes a record has.
pub const RECORD_LEN: usize = 24;

// The bytes of one record.
pub type RecordBytes = [u8; RECORD_LEN];

// The first 48 bits of a record: the method, six zero bits and the item field.
fn word_of<I: Item>(method: &Method<I>) -> u64
    ensures word { result ≡ word_of_method I.Item method.now }
    ensures fit { FitMethod I.Item method.now }
{
    match *method {
        Method::Add(x) => x.pack(),
        Method::Take(x) => 0x4000_0000_0000 + x.pack(),
        Method::FoundEmpty => 0x8000_0000_0000,
    }
}

// The 24 bytes of a record's fields.
fn bytes_of_fields(word: u64, thread: u16, start: u64, end: u64) -> RecordBytes
    ensures { result ≡ bytes_of_number 6 word ++ bytes_of_number 2 thread ++ bytes_of_number 8 start ++ bytes_of_number 8 end }
{
    let mut bytes = [0; RECORD_LEN];
    bytes[..6].copy_from_slice(&word.to_be_bytes()[2..]);
    bytes[6..8].copy_from_slice(&thread.to_be_bytes());
    bytes[8..16].copy_from_slice(&start.to_be_bytes());
    bytes[16..].copy_from_slice(&end.to_be_bytes());
    bytes
}

// The 24 bytes that say the operation.
pub fn encode<I: Item>(op: &Operation<I>) -> RecordBytes
    ensures bytes { result ≡ encode_record I.Item op.now }
    ensures fit { Fit I.Item op.now }
    ensures says_the_operation { decode_record I.Item result ≡ Ok op.now }
{
    bytes_of_fields(word_of(&op.method), op.thread, op.start, op.end)
}
