// The words of the answers.
ghost use Rattle.std.specs.Prelude.{◌≡◌, codes};
ghost use Rattle.text.specs.Contents.{content, with_words};
ghost use Rattle.comparison.specs.Words.{words_of_number, words_of_run, words_of_certify, words_of_holder, words_of_item};

use calls::certificate::Certificate;
use calls::fault::{DocketFault, RefusalCode};
use item::fault::ItemFault;
use refusal::Refusal;
use report::refused::say_refusal;
use text::piece::Piece::{Number, Word};
use text::text::Text;
use turns::calls::HolderAnswer;

// That a case is none.
pub(crate) fn no_case(text: &mut Text)
    ensures { content text.new ≡ with_words (codes "no case") (content text.old) }
{
    text.say(&[Word("no case")]);
}

// A number behind its word, or the refusal.
#[tactic(auto, unfolding(crate::specs::Words::words_of_number))]
pub(crate) fn number_words(word: &str, answer: Result<u16, DocketFault>, text: &mut Text)
    ensures { content text.new ≡ with_words (words_of_number word.now answer) (content text.old) }
{
    match answer {
        Ok(number) => text.say(&[Word(word), Word(" "), Number(u64::from(number))]),
        Err(fault) => say_refusal(Refusal::from(fault), text),
    }
}

// How many steps a run placed, and what stopped it.
#[tactic(auto, unfolding(crate::specs::Words::words_of_run))]
pub(crate) fn run_words(new: u16, stopped: RefusalCode, text: &mut Text)
    ensures { content text.new ≡ with_words (words_of_run new stopped) (content text.old) }
{
    text.say(&[
        Word("ran "),
        Number(u64::from(new)),
        Word(" stopped "),
        Number(u64::from(stopped.number)),
        Word(" "),
        Number(u64::from(stopped.place)),
        Word(" "),
        Number(u64::from(stopped.detail)),
    ]);
}

// A certificate or the refusal, and the hash of the buffers.
#[tactic(auto, unfolding(crate::specs::Words::words_of_certify))]
pub(crate) fn certify_words(answer: Result<Certificate, DocketFault>, hash: u64, text: &mut Text)
    ensures { content text.new ≡ with_words (words_of_certify answer hash) (content text.old) }
{
    match answer {
        Ok(certificate) => text.say(&[
            Word("certified "),
            Number(u64::from(certificate.total)),
            Word(" "),
            Number(u64::from(certificate.largest)),
            Word(" "),
            Number(u64::from(certificate.first)),
            Word(" "),
            Number(hash),
        ]),
        Err(fault) => {
            say_refusal(Refusal::from(fault), text);
            text.say(&[Word(" "), Number(hash)]);
        }
    }
}

// What a holder answered.
#[tactic(auto, unfolding(crate::specs::Words::words_of_holder))]
pub(crate) fn holder_words(answer: HolderAnswer, text: &mut Text)
    ensures { content text.new ≡ with_words (words_of_holder answer) (content text.old) }
{
    match answer {
        Ok(None) => text.say(&[Word("done")]),
        Ok(Some(number)) => text.say(&[Number(u64::from(number))]),
        Err(fault) => text.say(&[Word("!"), Number(u64::from(Refusal::from(fault).number))]),
    }
}

// An item's number, or the refusal of a number that no item has.
pub(crate) fn item_words(answer: Result<u64, ItemFault>, text: &mut Text)
    ensures { content text.new ≡ with_words (words_of_item answer) (content text.old) }
{
    text.say(&[Word("item ")]);
    match answer {
        Ok(number) => text.say(&[Number(number)]),
        Err(fault) => say_refusal(fault.refusal(0), text),
    }
}
