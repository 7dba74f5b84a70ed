// Cases of traces: examined, read twice, and written.
ghost use Rattle.std.specs.Prelude.{◌≡◌, ◌≤◌, [], min, length, codes, is_ok, nat_le, if◌then◌else◌};
ghost use Rattle.sheet.specs.Sheets.{entered, room, SameLoan};
ghost use Rattle.frame.specs.Orders.{order_of};
ghost use Rattle.trace.specs.Answers.{read_answer, sheet_after, shown};
ghost use Rattle.trace.specs.Reading.{reading};
ghost use Rattle.report.specs.Reports.{report_on};
ghost use Rattle.text.specs.Contents.{content, with_words};
ghost use Rattle.comparison.specs.Hashes.{hash_of};
ghost use Rattle.comparison.specs.Cases.{unless_unread, of_trace, words_of_readings, words_of_two_readings, words_of_writing, words_of_trace_written, reading_case, writing_case, or_no_case};
ghost use Rattle.comparison.specs.Words.{last_line, words_of_text, words_of_said, words_of_written, bytes_of_records, words_of_reading};

use crate::hash::{OF_NOTHING, hash_on};
use crate::numbers::cut;
use crate::words::no_case;
use examination::examining::{blank, has_stamps};
use frame::order::Order;
use item::item::Item;
use item::stamp::Stamp;
use item::ticket::Ticket;
use record::bytes::number_at;
use record::encoding::encode;
use refusal::Refusal;
use report::refused::say_refusal;
use report::report::{LONGEST, report_trace};
use sheet::operation::Operation;
use sheet::sheet::Sheet;
use std::str;
use text::piece::Piece::{Number, Word};
use text::text::Text;
use trace::fault::{ReadFault, WriteFault};
use trace::read::{Accepted, read};
use trace::write::write;

// The last line of a text, without its line feed.
fn last_line(text: &str) -> &str
    ensures { result.now ≡ last_line text.now }
{
    text.lines().last().unwrap_or("")
}

// How long a text is, its hash and its last line.
fn text_words(printed: &str, text: &mut Text)
    ensures { content text.new ≡ with_words (words_of_text printed.now) (content text.old) }
{
    let hash = hash_on(OF_NOTHING, printed.as_bytes());
    let last = last_line(printed);
    text.say(&[
        Word("trace "),
        Number(printed.len() as u64),
        Word(" "),
        Number(hash),
        Word(" "),
        Word(last),
    ]);
}

// What is printed of a trace, told as a case of it is answered, where `N` bytes hold it; and whether they do. Every report is
// valid text, so that the empty text below is never taken.
fn report_words<const N: usize>(body: &[u8], text: &mut Text) -> bool
    requires { N ≤ 150639 }
    ensures fits { result ≡ nat_le (length (report_on body.now).text) N }
    ensures short { length (report_on body.now).text ≤ 150639 }
    ensures said { content text.new ≡ (if result then with_words (words_of_text (report_on body.now).text) (content text.old) else content text.old) }
{
    let mut memory = [0u8; N];
    let mut report = Text::new(&mut memory);
    report_trace(body, &mut report);
    match report.whole() {
        Some(printed) => {
            text_words(str::from_utf8(printed).unwrap_or(""), text);
            true
        }
        None => false,
    }
}

// The answer to a case of a trace: how long what is printed of it is, its hash and its last line. A short trace has a short
// report, which takes less time in less memory; every report fits the longest.
#[inline(never)]
pub(crate) fn trace_answer(body: &[u8], text: &mut Text)
    ensures { content text.new ≡ with_words (words_of_text (report_on body.now).text) (content text.old) }
{
    if body.len() > 700 || !report_words::<4096>(body, text) {
        report_words::<LONGEST>(body, text);
    }
}

// The hash of the records of the operations on a sheet.
fn sheet_hash<I: Item>(sheet: &Sheet<I>) -> u64
    ensures { result ≡ hash_of (bytes_of_records I.Item (entered sheet.now)) }
{
    sheet
        .all()
        .iter()
        .fold(OF_NOTHING, |hash, op| hash_on(hash, &encode(op)))
}

// What reading a trace is answered.
#[tactic(auto, unfolding(crate::specs::Words::words_of_said))]
fn said_words(answer: Result<Accepted, ReadFault>, text: &mut Text)
    ensures { content text.new ≡ with_words (words_of_said (shown answer.entry)) (content text.old) }
{
    match answer {
        Ok(accepted) => text.say(&[
            Word("accepted kind "),
            Number(u64::from(u8::from(accepted.kind))),
            Word(" k "),
            Number(u64::from(accepted.k)),
        ]),
        Err(fault) => say_refusal(Refusal::from(fault), text),
    }
}

// What reading a trace onto the sheet is answered, and what is then on the sheet.
#[tactic(auto, unfolding(crate::specs::Words::words_of_reading))]
fn reading_words<I: Item>(bytes: &[u8], sheet: &mut Sheet<I>, text: &mut Text)
    ensures words { content text.new ≡ with_words (words_of_reading I.Item (read_answer (reading I.Item (room sheet.old) bytes.now)) (sheet_after (entered sheet.old) (reading I.Item (room sheet.old) bytes.now))) (content text.old) }
    ensures entered { entered sheet.new ≡ sheet_after (entered sheet.old) (reading I.Item (room sheet.old) bytes.now) }
    ensures loan { SameLoan sheet.old sheet.new }
{
    said_words(read(bytes, sheet), text);
    text.say(&[
        Word(" entered "),
        Number(sheet.count() as u64),
        Word(" "),
        Number(sheet_hash(sheet)),
    ]);
}

// The answers of reading one trace and then another onto one sheet over the records.
fn readings<I: Item>(records: &mut [Operation<I>], first: &[u8], second: &[u8], text: &mut Text)
    ensures { content text.new ≡ with_words (words_of_readings I.Item (min (length records.old) 1024) first.now second.now) (content text.old) }
{
    let mut sheet = Sheet::new(records);
    text.say(&[Word("read ")]);
    reading_words(first, &mut sheet, text);
    text.say(&[Word("; ")]);
    reading_words(second, &mut sheet, text);
}

// The same with so many of `N` records, for the item type of the first trace.
fn readings_by_type<const N: usize>(room: usize, first: &[u8], second: &[u8], text: &mut Text)
    requires within { room ≤ N }
    requires few { N ≤ 1024 }
    ensures { content text.new ≡ with_words (words_of_two_readings room first.now second.now) (content text.old) }
{
    // Kept (no plainer): the item type is known at run time only, and a choice of calls is what picks a type then.
    if has_stamps(first) {
        readings::<Stamp>(&mut [blank(); N][..room], first, second, text)
    } else {
        readings::<Ticket>(&mut [blank(); N][..room], first, second, text)
    }
}

// The same with so much room, of not many more records than that, since to make more takes time.
fn readings_in_room(room: u16, first: &[u8], second: &[u8], text: &mut Text)
    ensures { content text.new ≡ with_words (words_of_two_readings (min room 1024) first.now second.now) (content text.old) }
{
    let room = usize::from(room.min(1024));
    if room <= 64 {
        readings_by_type::<64>(room, first, second, text)
    } else if room <= 256 {
        readings_by_type::<256>(room, first, second, text)
    } else {
        readings_by_type::<1024>(room, first, second, text)
    }
}

// The answer to a case of reading twice, or that it is none.
#[inline(never)]
pub(crate) fn reading_answer(body: &[u8], text: &mut Text)
    ensures { content text.new ≡ with_words (or_no_case (reading_case body.now)) (content text.old) }
{
    let room = number_at(body, 0, 2) as u16;
    let length = number_at(body, 2, 4) as usize;
    match cut(body, 6, length) {
        Some((first, second)) => readings_in_room(room, first, second, text),
        None => no_case(text),
    }
}

// How a trace's operations are to be written: with another kind, k and order, into so many bytes.
// Kept (rule of the project): the kind is a number here, since `write` has to refuse a wrong one.
#[derive(Clone, Copy, PartialEq, Eq, Debug)]
struct Draft<'a> {
    kind: u8,
    k: u16,
    order: Order<'a>,
    size: u16,
    ghost few: { length (order_of order) ≤ 65535 },
}

// The words of a refusal by which a trace was not written, or that it was.
fn written_words(answer: Result<(), WriteFault>, hash: u64, text: &mut Text)
    ensures { content text.new ≡ with_words (words_of_written answer hash) (content text.old) }
{
    match answer {
        Ok(_) => text.say(&[Word("write done "), Number(hash)]),
        Err(fault) => {
            text.say(&[Word("write ")]);
            say_refusal(Refusal::from(fault), text);
            text.say(&[Word(" "), Number(hash)]);
        }
    }
}

// Reads a trace onto the sheet, and answers whether it is accepted; where not, says its refusal behind the word of its case.
pub(crate) fn read_or_say<I: Item>(
    case: &str,
    trace: &[u8],
    sheet: &mut Sheet<I>,
    text: &mut Text,
) -> bool
    ensures accepted { result ≡ is_ok (read_answer (reading I.Item (room sheet.old) trace.now)) }
    ensures entered { entered sheet.new ≡ sheet_after (entered sheet.old) (reading I.Item (room sheet.old) trace.now) }
    ensures said { content text.new ≡ with_words (unless_unread case.now [] (read_answer (reading I.Item (room sheet.old) trace.now))) (content text.old) }
{
    match read(trace, sheet) {
        Ok(_) => true,
        Err(fault) => {
            text.say(&[Word(case), Word(" unread ")]);
            say_refusal(Refusal::from(fault), text);
            false
        }
    }
}

// The operations of a sheet, written as the draft says, with an order of at most `N` numbers into at most `M` bytes.
fn write_within<I: Item, const N: usize, const M: usize>(
    sheet: &Sheet<I>,
    draft: &Draft,
    text: &mut Text,
)
    requires numbers { length (order_of draft.now.order) ≤ N }
    requires bytes { draft.now.size ≤ M }
    requires few { (N ≤ 65535) × (M ≤ 65535) }
    ensures { content text.new ≡ with_words (words_of_writing I.Item draft.now.kind draft.now.k (order_of draft.now.order) draft.now.size (entered sheet.now)) (content text.old) }
{
    let numbers: [u16; N] = draft.order.numbers();
    let order = &numbers[..draft.order.len()];
    let mut all = [0xa5u8; M];
    let memory = &mut all[..usize::from(draft.size)];
    let answer = write(sheet, draft.kind, draft.k, order, memory);
    written_words(answer, hash_on(OF_NOTHING, memory), text);
}

// The same, in memory that is not much longer than the draft asks for: to fill more takes time.
fn write_words<I: Item>(sheet: &Sheet<I>, draft: &Draft, text: &mut Text)
    ensures { content text.new ≡ with_words (words_of_writing I.Item draft.now.kind draft.now.k (order_of draft.now.order) draft.now.size (entered sheet.now)) (content text.old) }
{
    let numbers = draft.order.len();
    let size = draft.size;
    if numbers <= 64 && size <= 2048 {
        write_within::<I, 64, 2048>(sheet, draft, text)
    } else if numbers <= 1024 && size <= 32768 {
        write_within::<I, 1024, 32768>(sheet, draft, text)
    } else if numbers <= 1024 {
        write_within::<I, 1024, 65535>(sheet, draft, text)
    } else {
        write_within::<I, 65535, 65535>(sheet, draft, text)
    }
}

// The operations of a trace, which go into the records, written as the draft says.
fn writing<I: Item>(trace: &[u8], records: &mut [Operation<I>], draft: &Draft, text: &mut Text)
    requires { length records.old ≡ 1024 }
    ensures { content text.new ≡ with_words (of_trace I.Item (codes "write") (words_of_writing I.Item draft.now.kind draft.now.k (order_of draft.now.order) draft.now.size) trace.now) (content text.old) }
{
    let mut sheet = Sheet::new(records);
    if read_or_say("write", trace, &mut sheet, text) {
        write_words(&sheet, draft, text);
    }
}

// The same, for the item type of the trace.
fn writing_by_type(trace: &[u8], draft: &Draft, text: &mut Text)
    ensures { content text.new ≡ with_words (words_of_trace_written draft.now.kind draft.now.k (order_of draft.now.order) draft.now.size trace.now) (content text.old) }
{
    // Kept (no plainer): the item type is known at run time only, and a choice of calls is what picks a type then.
    if has_stamps(trace) {
        writing::<Stamp>(trace, &mut [blank(); 1024], draft, text)
    } else {
        writing::<Ticket>(trace, &mut [blank(); 1024], draft, text)
    }
}

// The answer to a case of writing, or that it is none.
#[inline(never)]
pub(crate) fn writing_answer(body: &[u8], text: &mut Text)
    ensures { content text.new ≡ with_words (or_no_case (writing_case body.now)) (content text.old) }
{
    let k = number_at(body, 1, 2) as u16;
    let size = number_at(body, 3, 2) as u16;
    let count = number_at(body, 5, 2) as usize;
    let Some((bytes, trace)) = cut(body, 7, 2 * count) else {
        return no_case(text);
    };
    let draft = Draft {
        kind: body[0],
        k,
        order: Order::new(bytes),
        size,
    };
    writing_by_type(trace, &draft, text);
}
