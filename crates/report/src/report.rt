// From the bytes of a trace to the text that is printed of it.
ghost use Rattle.std.specs.Prelude.{◌≡◌, ◌≤◌, true, length};
ghost use Rattle.sheet.specs.Sheets.{entered};
ghost use Rattle.frame.specs.Kinds.{kind_number};
ghost use Rattle.frame.specs.Orders.{order_of};
ghost use Rattle.trace.specs.Reading.{reading, Enough};
ghost use Rattle.examination.specs.Kinds.{seat_of};
ghost use Rattle.examination.specs.Traces.{TrueTraceOfEither};
ghost use Rattle.text.specs.Contents.{content, with_words};
ghost use Rattle.report.specs.Reports.{verdict_of_order, saying, report_on};

use crate::refused::say_refused;
use crate::verdict::say_verdict;
use examination::examining::{FEW, blank, has_few, has_stamps};
use examination::proposal::Proposal;
use item::item::Item;
use item::stamp::Stamp;
use item::ticket::Ticket;
use refusal::Refusal;
use sheet::operation::Operation;
use sheet::sheet::Sheet;
use text::text::Text;
use trace::read::{Accepted, read};

// How many bytes a report has at most: 1,024 lines of a step, at most 100 bytes each with numbers of 20 digits, as many of an
// add, at most 47 each, and one of at most 111.
pub const LONGEST: usize = 150_639;

// Says of an accepted trace of at most `N` operations, which are on the sheet, and answers whether a certificate is granted.
fn say_accepted<I: Item, const N: usize>(
    sheet: &Sheet<I>,
    accepted: &Accepted,
    text: &mut Text,
) -> bool
    requires few { length (order_of accepted.now.order) ≤ N }
    requires bounded { N ≤ 1024 }
    ensures granted { result ≡ (verdict_of_order I.Item (seat_of (kind_number accepted.now.kind)) (entered sheet.now) accepted.now.k (order_of accepted.now.order)).granted }
    ensures said { content text.new ≡ with_words (verdict_of_order I.Item (seat_of (kind_number accepted.now.kind)) (entered sheet.now) accepted.now.k (order_of accepted.now.order)).text (content text.old) }
    ensures short { length (verdict_of_order I.Item (seat_of (kind_number accepted.now.kind)) (entered sheet.now) accepted.now.k (order_of accepted.now.order)).text ≤ 150639 }
{
    let numbers: [u16; N] = accepted.order.numbers();
    let proposal = Proposal {
        k: accepted.k,
        order: &numbers[..accepted.order.len()],
    };
    say_verdict(sheet, accepted.kind, &proposal, text)
}

// Says of a trace of that item type, whose operations go into the records, `N` at most and enough for a trace of that length, and
// answers whether a certificate is granted.
fn say_report<I: Item, const N: usize>(
    bytes: &[u8],
    records: &mut [Operation<I>],
    text: &mut Text,
) -> bool
    requires few { length records.old ≤ N }
    requires bounded { N ≤ 1024 }
    requires enough { Enough (length records.old) bytes.now }
    ensures granted { result ≡ (saying I.Item (reading I.Item 1024 bytes.now)).granted }
    ensures said { content text.new ≡ with_words (saying I.Item (reading I.Item 1024 bytes.now)).text (content text.old) }
    ensures short { length (saying I.Item (reading I.Item 1024 bytes.now)).text ≤ 150639 }
{
    let mut sheet = Sheet::new(records);
    match read(bytes, &mut sheet) {
        Ok(accepted) => say_accepted::<I, N>(&sheet, &accepted, text),
        Err(fault) => {
            say_refused(Refusal::from(fault), text);
            false
        }
    }
}

// The same for the item type of the trace, in `N` records, enough for a trace of that length.
fn say_within<const N: usize>(bytes: &[u8], text: &mut Text) -> bool
    requires bounded { N ≤ 1024 }
    requires enough { Enough N bytes.now }
    ensures granted { result ≡ (report_on bytes.now).granted }
    ensures said { content text.new ≡ with_words (report_on bytes.now).text (content text.old) }
    ensures short { length (report_on bytes.now).text ≤ 150639 }
{
    // Kept (no plainer): an item type is chosen by a type argument, and a trait of all that is done by item type says no less.
    if has_stamps(bytes) {
        say_report::<Stamp, N>(bytes, &mut [blank(); N], text)
    } else {
        say_report::<Ticket, N>(bytes, &mut [blank(); N], text)
    }
}

// Says of a trace its order's certificate, or the one line of its refusal, and answers whether a certificate is granted:
// exactly to the bytes of a true trace, of tickets or of stamps. No report has more than `LONGEST` bytes.
pub fn report_trace(bytes: &[u8], text: &mut Text) -> bool
    ensures granted { result ≡ (report_on bytes.now).granted }
    ensures said { content text.new ≡ with_words (report_on bytes.now).text (content text.old) }
    ensures short { length (report_on bytes.now).text ≤ 150639 }
    ensures granted_exactly_when_true_order { (result ≡ true → TrueTraceOfEither bytes.now) × (TrueTraceOfEither bytes.now → result ≡ true) }
{
    if has_few(bytes) {
        say_within::<FEW>(bytes, text)
    } else {
        say_within::<1024>(bytes, text)
    }
}
