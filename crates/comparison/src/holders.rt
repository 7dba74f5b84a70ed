// Cases of calls on a holder.
ghost use Rattle.std.specs.Prelude.{◌≡◌, [], ◌++◌, codes};
ghost use Rattle.std.specs.Iterator.{YieldsFirst, item_count};
ghost use Rattle.std.specs.Option.{option_map};
ghost use Rattle.frame.specs.Kinds.{kind_number};
ghost use Rattle.holder.specs.Meanings.{meaning};
ghost use Rattle.examination.specs.Kinds.{seat_of};
ghost use Rattle.text.specs.Contents.{content, with_words};
ghost use Rattle.comparison.specs.Calls.{call_with_number, front_holder_call, holder_calls};
ghost use Rattle.comparison.specs.Cases.{words_of_calls, holder_case, or_no_case};

use crate::numbers::next_number;
use crate::words::{holder_words, no_case};
use counting::queue::CountingQueue;
use examination::kind::any_kind;
use frame::kind::Kind;
use holder::holder::Holder;
use holder::queue::Queue;
use holder::stack::Stack;
use text::piece::Piece::Word;
use text::text::Text;
use turns::calls::{HolderCall, answer_to};

// The call of a tag with a number; none where there is no such tag.
fn call_with_number(tag: u8, number: u16) -> Option<HolderCall>
    ensures { result ≡ call_with_number tag number }
{
    match tag {
        2 => Some(HolderCall::Rank(number)),
        3 => Some(HolderCall::At(number)),
        4 => Some(HolderCall::Add(number)),
        5 => Some(HolderCall::Take(number)),
        _ => None,
    }
}

// The call at the front of the bytes, and the bytes behind it; none where no whole call stands there.
fn next_call(bytes: &[u8]) -> Option<(HolderCall, &[u8])>
    ensures { option_map (λ p. (p.0, p.1.now)) result ≡ front_holder_call bytes.now }
{
    let (tag, behind) = bytes.split_first()?;
    match tag {
        0 => Some((HolderCall::Clear, behind)),
        1 => Some((HolderCall::Count, behind)),
        _ => {
            let (number, behind) = next_number(behind)?;
            Some((call_with_number(*tag, number)?, behind))
        }
    }
}

// The calls that the bytes say, one after another.
// Kept (no plainer): as one generic iterator for cases, calls on a holder and calls on a docket it takes a trait with a law, for three bodies of three lines.
#[derive(Drop)]
struct Calls<'a>(&'a [u8]);

impl<'a> Iterator for Calls<'a> {
    type Item = HolderCall;

    ghost next_gives = { YieldsFirst (λ calls. holder_calls calls.0.now) };

    ghost remaining = { item_count (λ calls. holder_calls calls.0.now) };

    fn next(&mut self) -> Option<HolderCall> {
        let (call, behind) = next_call(self.0)?;
        self.0 = behind;
        Some(call)
    }
}

// The answers of a holder to the calls that the bytes say, each behind a space.
fn answers_of<H: Holder + Drop>(mut holder: H, calls: &[u8], text: &mut Text)
    ensures { content text.new ≡ with_words (codes "holder" ++ words_of_calls H.Holder.seat (meaning (H.Holder.giving holder) (H.Holder.adds holder)) (holder_calls calls.now)) (content text.old) }
{
    text.say(&[Word("holder")]);
    for call in Calls(calls) {
        let answer = answer_to(&mut holder, call);
        text.say(&[Word(" ")]);
        holder_words(answer, text);
    }
}

// The same for a new holder of a kind.
fn answers_by_kind(kind: Kind, calls: &[u8], text: &mut Text)
    ensures { content text.new ≡ with_words (codes "holder" ++ words_of_calls (seat_of (kind_number kind)) (meaning [] 0) (holder_calls calls.now)) (content text.old) }
{
    // Kept (no plainer): the kind is known at run time only, and a match is what picks a holder's type then.
    match kind {
        Kind::Queue => answers_of(Queue::new(), calls, text),
        Kind::Stack => answers_of(Stack::new(), calls, text),
        Kind::CountingQueue => answers_of(CountingQueue::new(), calls, text),
    }
}

// The answer to a case of calls on a holder, or that it is none.
pub(crate) fn holder_answer(body: &[u8], text: &mut Text)
    ensures { content text.new ≡ with_words (or_no_case (holder_case body.now)) (content text.old) }
{
    match body.split_first() {
        Some((kind, calls)) => answers_by_kind(any_kind(*kind), calls, text),
        None => no_case(text),
    }
}
