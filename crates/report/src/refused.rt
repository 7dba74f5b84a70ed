// What is said of a refusal.
ghost use Rattle.std.specs.Prelude.{◌≡◌, ◌≤◌, length};
ghost use Rattle.refusal.specs.Wording.{refusal_line};
ghost use Rattle.text.specs.Contents.{content, with_words};
ghost use Rattle.report.specs.Reports.{refusing};

use refusal::Refusal;
use text::piece::Piece::{Number, Word};
use text::text::Text;

// Says a refusal: its layer, number, place and detail, without a line feed.
pub fn say_refusal(refusal: Refusal, text: &mut Text)
    ensures said { content text.new ≡ with_words (refusal_line refusal) (content text.old) }
    ensures short { length (refusal_line refusal) ≤ 90 }
{
    text.say(&[
        Word("refused "),
        Word(refusal.layer.name()),
        Word(" "),
        Number(u64::from(refusal.number)),
        Word(" place "),
        Number(u64::from(refusal.place)),
        Word(" detail "),
        Number(u64::from(refusal.detail)),
    ]);
}

// Says the one line of a refusal.
pub fn say_refused(refusal: Refusal, text: &mut Text)
    ensures said { content text.new ≡ with_words (refusing refusal).text (content text.old) }
    ensures short { length (refusing refusal).text ≤ 91 }
{
    say_refusal(refusal, text);
    text.say(&[Word("\n")]);
}
