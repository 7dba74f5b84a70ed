// The answer to a case, by its letter.
ghost use Rattle.std.specs.Prelude.{◌≡◌, ◌≢◌, ◌||◌, is_ok, is_err, if◌then◌else◌};
ghost use Rattle.text.specs.Contents.{content, with_words};
ghost use Rattle.comparison.specs.Heaps.{has_refused};
ghost use Rattle.comparison.specs.Cases.{docket_case, case_answer};

use crate::dockets::docket_answer;
use crate::heap::Heap;
use crate::holders::holder_answer;
use crate::items::item_answer;
use crate::traces::{reading_answer, trace_answer, writing_answer};
use crate::words::no_case;
use std::alloc::AllocError;
use text::text::Text;

// Says the line that answers a case, without its line feed. Memory may be wanting for calls on a docket alone, and only where
// the heap has refused it; then nothing is said.
pub fn answer_case(
    heap: &mut Heap,
    letter: u8,
    body: &[u8],
    text: &mut Text,
) -> Result<(), AllocError>
    ensures said { content text.new ≡ (if is_ok result then with_words (case_answer letter body.now) (content text.old) else content text.old) }
    ensures answered_but_for_dockets { letter ≢ 68 → result ≡ Ok tt }
    ensures answered_where_no_case { docket_case body.now ≡ None → result ≡ Ok tt }
    ensures refused { has_refused heap.new ≡ (is_err result || has_refused heap.old) }
{
    match letter {
        b'T' => trace_answer(body, text),
        b'R' => reading_answer(body, text),
        b'W' => writing_answer(body, text),
        b'D' => docket_answer(heap, body, text)?,
        b'H' => holder_answer(body, text),
        b'I' => item_answer(body, text),
        _ => no_case(text),
    }
    Ok(())
}
