// The operation of 24 bytes.
ghost use Rattle.std.specs.Prelude.{◌≡◌, length, IfOk};
ghost use Rattle.record.specs.Records.{decode_record, encode_record, method_said};

use crate::bytes::number_at;
use crate::fault::RecordFault;
use item::item::Item;
use sheet::operation::{Method, Operation};

// The method that the first 48 bits of a record say.
fn method_of<I: Item>(word: u64) -> Result<Method<I>, RecordFault>
    ensures { result ≡ method_said I.Item word }
{
    let spare = word / 0x100_0000_0000 % 64;
    let field = word % 0x100_0000_0000;
    match word / 0x4000_0000_0000 {
        0..=2 if spare != 0 => Err(RecordFault::SpareBit),
        0 => Ok(Method::Add(I::unpack(field)?)),
        1 => Ok(Method::Take(I::unpack(field)?)),
        2 if field == 0 => Ok(Method::FoundEmpty),
        2 => Err(RecordFault::ItemOnFoundEmpty),
        _ => Err(RecordFault::NoSuchMethod),
    }
}

// The operation that the bytes of a record say, or why they say none.
pub fn decode<I: Item>(bytes: &[u8]) -> Result<Operation<I>, RecordFault>
    ensures answer { result ≡ decode_record I.Item bytes.now }
    ensures written_the_same { length bytes.now ≡ 24 → IfOk result (λ op. encode_record I.Item op ≡ bytes.now) }
{
    Ok(Operation {
        method: method_of(number_at(bytes, 0, 6))?,
        thread: number_at(bytes, 6, 2) as u16,
        start: number_at(bytes, 8, 8),
        end: number_at(bytes, 16, 8),
    })
}
