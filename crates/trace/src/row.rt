// What stands in a trace in rows of so many bytes.
ghost use Rattle.std.specs.Prelude.{◌≡◌, ℕ, ◌^◌, ◌<◌, List};
ghost use Rattle.record.specs.Bytes.{bytes_of_number};
ghost use Rattle.record.specs.Records.{encode_record, Fit};

use item::item::Item;
use record::encoding::{RECORD_LEN, RecordBytes, encode};
use sheet::operation::Operation;

// The two bytes of an order's number.
type NumberBytes = [u8; 2];

// What a trace says in rows of `W` bytes each: the operations, and the numbers of the order.
pub trait Row<const W: usize> {
    // the bytes of the row
    ghost bytes: { Self → List ℕ };

    // its fields fit their widths, as those of every value in memory do
    ghost fit: { Self → Type 0 };

    fn row(&self) -> [u8; W]
        ensures bytes { result ≡ bytes self.now }
        ensures fit { fit self.now };
}

impl<I: Item> Row<RECORD_LEN> for Operation<I> {
    ghost bytes = { encode_record I.Item };

    ghost fit = { Fit I.Item };

    fn row(&self) -> RecordBytes {
        encode(self)
    }
}

impl Row<2> for u16 {
    ghost bytes = { bytes_of_number 2 };

    ghost fit = { λ n. n < 2 ^ 16 };

    fn row(&self) -> NumberBytes {
        self.to_be_bytes()
    }
}
