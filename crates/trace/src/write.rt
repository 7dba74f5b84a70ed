// A trace written from a sheet and an order.
ghost use Rattle.std.specs.Prelude.{◌≡◌, ℕ, ◌+◌, ◌*◌, ◌≤◌, ◌++◌, length, take, drop, OnOk};
ghost use Rattle.std.specs.List.{flat_map, AllByRecursion};
ghost use Rattle.sheet.specs.Sheets.{entered};
ghost use Rattle.frame.specs.Headers.{bytes_of_header};
ghost use Rattle.frame.specs.Kinds.{kind_number};
ghost use Rattle.trace.specs.Contents.{contents};
ghost use Rattle.trace.specs.Reading.{reading};
ghost use Rattle.trace.specs.Reading.Outcome.{accepted};
ghost use Rattle.trace.specs.Writing.{write_answer, memory_after};

use crate::fault::WriteFault;
use crate::row::Row;
use frame::kind::Kind;
use frame::layout::{HEADER_LEN, OPERATION_LEN};
use item::item::Item;
use record::encoding::RECORD_LEN;
use sheet::sheet::Sheet;

// The bytes of a header.
type HeaderBytes = [u8; HEADER_LEN];

// The 8 bytes of a header.
fn header_bytes(item_type: u8, kind: Kind, count: u16, k: u16) -> HeaderBytes
    ensures { result ≡ bytes_of_header item_type (kind_number kind) count k }
{
    let word = 4096 + u16::from(u8::from(kind)) * 256 + u16::from(item_type) * 16;
    let [w0, w1] = word.to_be_bytes();
    let [n0, n1] = count.to_be_bytes();
    let [k0, k1] = k.to_be_bytes();
    [w0, w1, n0, n1, k0, k1, 0, 0]
}

// Writes the part over the bytes from `at` on.
fn write_part(out: &mut [u8], at: usize, part: &[u8])
    requires { at + length part.now ≤ length out.old }
    ensures { out.new ≡ take at out.old ++ part.now ++ drop (at + length part.now) out.old }
{
    out[at..at + part.len()].copy_from_slice(part);
}

// Writes the rows one after another, from `at` on.
fn put_rows<T: Row<W>, const W: usize>(out: &mut [u8], at: usize, rows: &[T])
    requires { at + W * length rows.now ≤ length out.old }
    ensures bytes { out.new ≡ take at out.old ++ flat_map T.bytes rows.now ++ drop (at + W * length rows.now) out.old }
    ensures fit { AllByRecursion T.fit rows.now }
{
    // Kept (proof): chunks_exact_mut and zip need a W above 0, and after them no fact says which bytes were written.
    for (i, row) in rows.iter().enumerate() {
        write_part(out, at + W * i, &row.row());
    }
}

// Writes the trace of a sheet's operations, of that kind, into the first bytes of `out`, or refuses and leaves it as it was.
pub(crate) fn write_of_kind<I: Item>(
    sheet: &Sheet<I>,
    kind: Kind,
    k: u16,
    order: &[u16],
    out: &mut [u8],
) -> Result<(), WriteFault>
    ensures answer { result ≡ write_answer (kind_number kind) (length (entered sheet.now)) (length order.now) (length out.old) }
    ensures bytes { out.new ≡ memory_after I.Item (kind_number kind) k (entered sheet.now) order.now out.old }
    ensures reads_as_what_went_in { OnOk result ((room : ℕ) → length (entered sheet.now) ≤ room → reading I.Item room (take (8 + 26 * length (entered sheet.now)) out.new) ≡ accepted (contents (kind_number kind) k (entered sheet.now) order.now)) }
{
    let ops = sheet.all();
    if order.len() != ops.len() {
        return Err(WriteFault::OrderLength);
    }
    if out.len() < HEADER_LEN + OPERATION_LEN * ops.len() {
        return Err(WriteFault::Memory);
    }
    write_part(out, 0, &header_bytes(I::TYPE, kind, ops.len() as u16, k));
    put_rows::<_, RECORD_LEN>(out, HEADER_LEN, ops);
    put_rows::<_, 2>(out, HEADER_LEN + RECORD_LEN * ops.len(), order);
    Ok(())
}

// Writes the trace of a sheet's operations into the first bytes of `out`, or refuses and leaves it as it was.
// Kept (rule of the project): the kind comes as a number, since a wrong one is refused by the first of the checks here.
pub fn write<I: Item>(
    sheet: &Sheet<I>,
    kind: u8,
    k: u16,
    order: &[u16],
    out: &mut [u8],
) -> Result<(), WriteFault>
    ensures answer { result ≡ write_answer kind (length (entered sheet.now)) (length order.now) (length out.old) }
    ensures bytes { out.new ≡ memory_after I.Item kind k (entered sheet.now) order.now out.old }
    ensures reads_as_what_went_in { OnOk result ((room : ℕ) → length (entered sheet.now) ≤ room → reading I.Item room (take (8 + 26 * length (entered sheet.now)) out.new) ≡ accepted (contents kind k (entered sheet.now) order.now)) }
{
    let kind = Kind::try_from(kind).map_err(|_| WriteFault::Kind)?;
    write_of_kind(sheet, kind, k, order, out)
}
