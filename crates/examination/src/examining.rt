// From the bytes of a trace to the certificate of its order.
ghost use Rattle.std.specs.Prelude.{◌≡◌, ◌≤◌, true, false, length, is_ok, IfOk, ◌==◌, nat_le};
ghost use Rattle.sheet.specs.declared.operation.Method.TheVariants.{FoundEmpty};
ghost use Rattle.frame.specs.Kinds.{kind_number};
ghost use Rattle.frame.specs.Orders.{order_of};
ghost use Rattle.trace.specs.Reading.{reading, Enough};
ghost use Rattle.calls.specs.Rules.{is_too_short};
ghost use Rattle.docket.specs.Pairs.{sheet_ops};
ghost use Rattle.docket.specs.Buffers.{held, SameSlices};
ghost use Rattle.examination.specs.Kinds.{seat_of};
ghost use Rattle.examination.specs.Orders.{order_answer, order_written};
ghost use Rattle.examination.specs.Traces.{examining, type_of, examination_of, TrueTraceOfEither, count_of, CertifiedOfEither};

use crate::kind::certify_of_kind;
use crate::proposal::Proposal;
use calls::certificate::Certificate;
use docket::buffers::Buffers;
use frame::layout::{HEADER_LEN, OPERATION_LEN};
use item::item::Item;
use item::stamp::Stamp;
use item::ticket::Ticket;
use refusal::Refusal;
use sheet::operation::{Method, Operation};
use sheet::sheet::Sheet;
use trace::read::{Accepted, read};

// What a record of a sheet's memory holds before an operation is entered.
pub fn blank<I: Item>() -> Operation<I>
    ensures { result ≡ record { method = FoundEmpty; thread = 0; start = 0; end = 0 } }
{
    Operation {
        method: Method::FoundEmpty,
        thread: 0,
        start: 0,
        end: 0,
    }
}

// How many operations a trace of few operations has at most. They go into so many records, and those of every other trace into 1,024,
// since to make more takes time.
pub const FEW: usize = 64;

// Whether a trace of those bytes has few operations, by its length.
pub fn has_few(bytes: &[u8]) -> bool
    ensures { result ≡ nat_le (length bytes.now) 1672 }
{
    bytes.len() <= HEADER_LEN + OPERATION_LEN * FEW
}

// Whether the header names stamps as its item type.
pub fn has_stamps(bytes: &[u8]) -> bool
    ensures { result ≡ (type_of bytes.now == 1) }
{
    bytes.get(1).is_some_and(|types| types / 16 == Stamp::TYPE)
}

// Examines an accepted trace of at most `N` operations, which are on the sheet.
fn certify_accepted<I: Item, const N: usize>(
    sheet: &Sheet<I>,
    accepted: &Accepted,
    buffers: &mut Buffers,
) -> Result<Certificate, Refusal>
    requires few { length (order_of accepted.now.order) ≤ N }
    requires bounded { N ≤ 1024 }
    ensures answer { result ≡ order_answer (seat_of (kind_number accepted.now.kind)) (sheet_ops I.Item.number sheet.now) accepted.now.k (order_of accepted.now.order) (held buffers.old) }
    ensures written { held buffers.new ≡ order_written (seat_of (kind_number accepted.now.kind)) (sheet_ops I.Item.number sheet.now) accepted.now.k (order_of accepted.now.order) (held buffers.old) }
    ensures lenders { SameSlices buffers.old buffers.new }
{
    let numbers = accepted.order.numbers::<N>();
    let proposal = Proposal {
        k: accepted.k,
        order: &numbers[..accepted.order.len()],
    };
    certify_of_kind(sheet, accepted.kind, &proposal, buffers)
}

// Examines a trace of that item type, whose operations go into the records: `N` at most, and enough for a trace of that length.
fn certify_of<I: Item, const N: usize>(
    bytes: &[u8],
    records: &mut [Operation<I>],
    buffers: &mut Buffers,
) -> Result<Certificate, Refusal>
    requires few { length records.old ≤ N }
    requires bounded { N ≤ 1024 }
    requires enough { Enough (length records.old) bytes.now }
    ensures answer { result ≡ (examining I.Item (held buffers.old) (reading I.Item 1024 bytes.now)).answer }
    ensures written { held buffers.new ≡ (examining I.Item (held buffers.old) (reading I.Item 1024 bytes.now)).buffers }
    ensures lenders { SameSlices buffers.old buffers.new }
{
    let mut sheet = Sheet::new(records);
    let accepted = read(bytes, &mut sheet)?;
    certify_accepted::<I, N>(&sheet, &accepted, buffers)
}

// The same for the item type of the trace, in `N` records, enough for a trace of that length.
fn certify_within<const N: usize>(
    bytes: &[u8],
    buffers: &mut Buffers,
) -> Result<Certificate, Refusal>
    requires bounded { N ≤ 1024 }
    requires enough { Enough N bytes.now }
    ensures answer { result ≡ (examination_of bytes.now (held buffers.old)).answer }
    ensures written { held buffers.new ≡ (examination_of bytes.now (held buffers.old)).buffers }
    ensures lenders { SameSlices buffers.old buffers.new }
{
    // Kept (no plainer): an item type is chosen by a type argument, and a trait of all that is done by item type says no less.
    if has_stamps(bytes) {
        certify_of::<Stamp, N>(bytes, &mut [blank(); N], buffers)
    } else {
        certify_of::<Ticket, N>(bytes, &mut [blank(); N], buffers)
    }
}

// Reads a trace and certifies its order into the buffers. Refused, it leaves them as they were. A certificate is granted only
// to the bytes of a true trace, of tickets or of stamps, and, with buffers long enough, to those of every true trace.
pub fn certify_trace(bytes: &[u8], buffers: &mut Buffers) -> Result<Certificate, Refusal>
    ensures answer { result ≡ (examination_of bytes.now (held buffers.old)).answer }
    ensures written { held buffers.new ≡ (examination_of bytes.now (held buffers.old)).buffers }
    ensures lenders { SameSlices buffers.old buffers.new }
    ensures granted_exactly_when_true_order { (is_ok result ≡ true → TrueTraceOfEither bytes.now) × ((h : TrueTraceOfEither bytes.now) → is_too_short (count_of h) (held buffers.old) ≡ false → is_ok result ≡ true) }
    ensures granted_certificates_are_true { IfOk result (λ c. CertifiedOfEither bytes.now (held buffers.old) c (held buffers.new)) }
{
    if has_few(bytes) {
        certify_within::<FEW>(bytes, buffers)
    } else {
        certify_within::<1024>(bytes, buffers)
    }
}
