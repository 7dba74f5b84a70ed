// Cases of calls on a docket.
ghost use Rattle.std.specs.Prelude.{◌≡◌, ◌≤◌, ◌||◌, codes, map, length, is_ok, is_err, if◌then◌else◌};
ghost use Rattle.frame.specs.Kinds.{kind_number};
ghost use Rattle.trace.specs.Reading.{Enough};
ghost use Rattle.docket.specs.Buffers.{owned};
ghost use Rattle.docket.specs.Pairs.{paired_all, sheet_ops};
ghost use Rattle.docket.specs.Slots.{call_of, reply_of};
ghost use Rattle.examination.specs.Kinds.{seat_of};
ghost use Rattle.text.specs.Contents.{content, with_words};
ghost use Rattle.comparison.specs.Heaps.{has_refused};
ghost use Rattle.comparison.specs.Hashes.{hash_of, bytes_of_shorts, bytes_of_buffers};
ghost use Rattle.comparison.specs.Cases.{of_trace, words_of_answers, words_of_session, words_of_docket_calls, words_of_docket, docket_case, or_no_case};
ghost use Rattle.comparison.specs.Words.{words_of_answer, words_of_held};

use crate::hash::{OF_NOTHING, hash_on, hash_short, hash_shorts};
use crate::heap::Heap;
use crate::numbers::cut;
use crate::slots::all_slots;
use crate::traces::read_or_say;
use crate::words::{certify_words, no_case, number_words, run_words};
use counting::queue::CountingQueue;
use docket::answer_calls::answer_calls;
use docket::buffers::OwnBuffers;
use docket::slot::Slot;
use examination::examining::{FEW, blank, has_few, has_stamps};
use examination::kind::any_kind;
use frame::kind::Kind;
use holder::holder::Holder;
use holder::queue::Queue;
use holder::stack::Stack;
use item::item::Item;
use item::stamp::Stamp;
use item::ticket::Ticket;
use record::bytes::number_at;
use sheet::operation::Operation;
use sheet::sheet::Sheet;
use std::alloc::AllocError;
use text::piece::Piece::{Number, Word};
use text::text::Text;

// The hash of three buffers, one after another.
fn buffers_hash(buffers: &OwnBuffers) -> u64
    ensures { result ≡ hash_of (bytes_of_buffers (owned buffers.now)) }
{
    let hash = hash_shorts(OF_NOTHING, &buffers.ranks);
    let hash = buffers
        .instants
        .iter()
        .fold(hash, |hash, n| hash_on(hash, &n.to_be_bytes()));
    hash_shorts(hash, &buffers.latenesses)
}

// What a slot was answered.
#[tactic(auto, unfolding(crate::specs::Words::words_of_answer))]
fn slot_words(slot: &Slot, text: &mut Text)
    ensures { content text.new ≡ with_words (words_of_answer (reply_of slot.now)) (content text.old) }
{
    match slot {
        Slot::Place {
            operation: _,
            answer,
        } => number_words("placed", *answer, text),
        Slot::Run {
            order: _,
            new,
            stopped,
        } => run_words(*new, *stopped, text),
        Slot::Lift { answer } => number_words("lifted", *answer, text),
        Slot::Certify { buffers, answer } => certify_words(*answer, buffers_hash(buffers), text),
    }
}

// The hash of the codes that a holder holds, in the order in which it would give them.
fn held_hash<H: Holder>(holder: &H) -> u64
    ensures { result ≡ hash_of (bytes_of_shorts (H.giving holder.now)) }
{
    (0..holder.count())
        .filter_map(|place| holder.at(place).ok())
        .fold(OF_NOTHING, hash_short)
}

// What the slots were answered, one after another.
fn slots_words(slots: &[Slot], text: &mut Text)
    ensures { content text.new ≡ with_words (words_of_answers (map reply_of slots.now)) (content text.old) }
{
    for slot in slots {
        slot_words(slot, text);
        text.say(&[Word("; ")]);
    }
}

// What a holder still holds.
#[tactic(auto, unfolding(crate::specs::Words::words_of_held))]
fn held_words<H: Holder>(holder: &H, text: &mut Text)
    ensures { content text.new ≡ with_words (words_of_held (H.giving holder.now)) (content text.old) }
{
    text.say(&[
        Word("held "),
        Number(u64::from(holder.count())),
        Word(" "),
        Number(held_hash(holder)),
    ]);
}

// The answers to the calls in slots on a docket of the sheet, and what its holder then holds.
fn docket_words<I: Item, H: Holder + Drop>(
    sheet: &Sheet<I>,
    holder: H,
    k: u16,
    slots: &mut [Slot],
    text: &mut Text,
)
    ensures { content text.new ≡ with_words (words_of_session H.Holder.seat (sheet_ops I.Item.number sheet.now) k (map call_of slots.old)) (content text.old) }
{
    let holder = answer_calls(sheet, holder, k, slots).close();
    text.say(&[Word("docket ")]);
    slots_words(slots, text);
    held_words(&holder, text);
}

// The same on a new holder of a kind.
fn docket_words_by_kind<I: Item>(
    sheet: &Sheet<I>,
    kind: Kind,
    k: u16,
    slots: &mut [Slot],
    text: &mut Text,
)
    ensures { content text.new ≡ with_words (words_of_session (seat_of (kind_number kind)) (sheet_ops I.Item.number sheet.now) k (map call_of slots.old)) (content text.old) }
{
    // Kept (no plainer): the kind is known at run time only, and a match is what picks a holder's type then.
    match kind {
        Kind::Queue => docket_words(sheet, Queue::new(), k, slots, text),
        Kind::Stack => docket_words(sheet, Stack::new(), k, slots, text),
        Kind::CountingQueue => docket_words(sheet, CountingQueue::new(), k, slots, text),
    }
}

// The answers to the calls in slots on a docket of the trace's operations, which go into the records, enough for a trace of that
// length.
fn on_trace<I: Item>(
    trace: &[u8],
    records: &mut [Operation<I>],
    kind: Kind,
    k: u16,
    slots: &mut [Slot],
    text: &mut Text,
)
    requires { Enough (length records.old) trace.now }
    ensures { content text.new ≡ with_words (of_trace I.Item (codes "docket") (λ os. words_of_session (seat_of (kind_number kind)) (paired_all I.Item.number os) k (map call_of slots.old)) trace.now) (content text.old) }
{
    let mut sheet = Sheet::new(records);
    if read_or_say("docket", trace, &mut sheet, text) {
        docket_words_by_kind(&sheet, kind, k, slots, text);
    }
}

// The same for the item type of the trace, in `N` records, enough for a trace of that length.
fn on_trace_within<const N: usize>(
    trace: &[u8],
    kind: Kind,
    k: u16,
    slots: &mut [Slot],
    text: &mut Text,
)
    requires bounded { N ≤ 1024 }
    requires enough { Enough N trace.now }
    ensures { content text.new ≡ with_words (words_of_docket_calls (seat_of (kind_number kind)) k trace.now (map call_of slots.old)) (content text.old) }
{
    // Kept (no plainer): the item type is known at run time only, and a choice of calls is what picks a type then.
    if has_stamps(trace) {
        on_trace::<Stamp>(trace, &mut [blank(); N], kind, k, slots, text);
    } else {
        on_trace::<Ticket>(trace, &mut [blank(); N], kind, k, slots, text);
    }
}

// The same in records that are enough for the trace's length.
fn on_any_trace(trace: &[u8], kind: Kind, k: u16, slots: &mut [Slot], text: &mut Text)
    ensures { content text.new ≡ with_words (words_of_docket_calls (seat_of (kind_number kind)) k trace.now (map call_of slots.old)) (content text.old) }
{
    if has_few(trace) {
        on_trace_within::<FEW>(trace, kind, k, slots, text);
    } else {
        on_trace_within::<1024>(trace, kind, k, slots, text);
    }
}

// The answers to all the calls that the bytes say, for the item type of the trace.
fn docket_by_type(
    heap: &mut Heap,
    kind: Kind,
    k: u16,
    trace: &[u8],
    calls: &[u8],
    text: &mut Text,
) -> Result<(), AllocError>
    ensures said { content text.new ≡ (if is_ok result then with_words (words_of_docket (seat_of (kind_number kind)) k trace.now calls.now) (content text.old) else content text.old) }
    ensures refused { has_refused heap.new ≡ (is_err result || has_refused heap.old) }
{
    let mut slots = all_slots(heap, calls)?;
    on_any_trace(trace, kind, k, slots.as_mut_slice(), text);
    Ok(())
}

// The answer to a case of calls on a docket, or that it is none.
#[inline(never)]
pub(crate) fn docket_answer(heap: &mut Heap, body: &[u8], text: &mut Text) -> Result<(), AllocError>
    ensures said { content text.new ≡ (if is_ok result then with_words (or_no_case (docket_case body.now)) (content text.old) else content text.old) }
    ensures refused { has_refused heap.new ≡ (is_err result || has_refused heap.old) }
    ensures no_case { docket_case body.now ≡ None → result ≡ Ok tt }
{
    let k = number_at(body, 1, 2) as u16;
    let length = number_at(body, 3, 4) as usize;
    match cut(body, 7, length) {
        Some((trace, calls)) => docket_by_type(heap, any_kind(body[0]), k, trace, calls, text),
        None => {
            no_case(text);
            Ok(())
        }
    }
}
