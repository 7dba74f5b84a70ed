// A trace read onto a sheet.
ghost use Rattle.std.specs.Prelude.{◌≡◌, ℕ, ◌+◌, ◌*◌, ◌≤◌, [], length, IfOk, Ok};
ghost use Rattle.sheet.specs.Sheets.{entered, room, SameLoan};
ghost use Rattle.frame.specs.Layout.{record_count};
ghost use Rattle.trace.specs.Contents.{Contents, Sound, encode};
ghost use Rattle.trace.specs.Reading.{after_record, operation_taken, records_taken, reading};
ghost use Rattle.trace.specs.Answers.{read_answer, sheet_after, left_at, left_after, shown, saying_of, contents_of};

use crate::fault::{EntryFault, ReadFault, RefusedRecord};
use frame::header::read_header;
use frame::kind::Kind;
use frame::layout::HEADER_LEN;
use frame::order::Order;
use frame::records::Trace;
use item::item::Item;
use record::decoding::decode;
use record::encoding::RECORD_LEN;
use sheet::sheet::Sheet;

// What an accepted trace says besides its operations.
#[derive(Clone, Copy, PartialEq, Eq, Debug)]
pub struct Accepted<'a> {
    pub kind: Kind,
    pub k: u16,
    pub order: Order<'a>,
}

// Enters the operation that a record says.
// Kept (no plainer): SameLoan relates a sheet before and after, which no type can hold.
fn take_record<I: Item>(rec: &[u8], sheet: &mut Sheet<I>) -> Result<(), EntryFault>
    ensures step { (i : ℕ) → after_record (entered sheet.old) i (operation_taken I.Item (room sheet.old) (entered sheet.old) rec.now) ≡ left_at i result (entered sheet.new) }
    ensures grows { length (entered sheet.old) ≤ length (entered sheet.new) }
    ensures loan { SameLoan sheet.old sheet.new }
{
    let op = decode(rec)?;
    sheet.enter(op)?;
    Ok(())
}

// Enters the operations of all records in turn, up to the first that is refused.
fn take_all<I: Item>(trace: &Trace, sheet: &mut Sheet<I>) -> Result<(), RefusedRecord>
    requires few { record_count trace.now.bytes.now ≤ 1024 }
    requires empty { entered sheet.old ≡ [] }
    ensures taken { records_taken I.Item (room sheet.old) trace.now.bytes.now (record_count trace.now.bytes.now) ≡ left_after result (entered sheet.new) }
    ensures loan { SameLoan sheet.old sheet.new }
{
    for (place, rec) in trace.records().iter().enumerate() {
        let place = place as u16;
        take_record(rec, sheet).map_err(|fault| RefusedRecord { place, fault })?;
    }
    Ok(())
}

// Reads a trace onto a sheet. A refused header leaves the sheet as it was; a refused record leaves the earlier ones entered.
pub fn read<'a, I: Item>(bytes: &'a [u8], sheet: &mut Sheet<I>) -> Result<Accepted<'a>, ReadFault>
    ensures answer { shown result ≡ read_answer (reading I.Item (room sheet.old) bytes.now) }
    ensures entered { entered sheet.new ≡ sheet_after (entered sheet.old) (reading I.Item (room sheet.old) bytes.now) }
    ensures loan { SameLoan sheet.old sheet.new }
    ensures accepted_is_sound { IfOk result (λ a. Sound I.Item (room sheet.old) (contents_of a (entered sheet.new))) }
    ensures accepted_is_encoded { IfOk result (λ a. bytes.now ≡ encode I.Item (contents_of a (entered sheet.new))) }
    ensures encoded_sound_is_accepted { (c : Contents I) → Sound I.Item (room sheet.old) c → bytes.now ≡ encode I.Item c → (shown result ≡ Ok (saying_of c)) × (entered sheet.new ≡ c.ops) }
{
    let header = read_header(bytes, I::TYPE)?;
    sheet.clear();
    take_all(&Trace::new(bytes), sheet)?;
    let from = HEADER_LEN + RECORD_LEN * usize::from(header.count);
    Ok(Accepted {
        kind: header.kind,
        k: header.k,
        order: Order::new(&bytes[from..]),
    })
}
