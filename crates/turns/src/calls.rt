// A holder that is given a list of calls, one after another.
ghost use Rattle.std.specs.Prelude.{◌≡◌, true, []};
ghost use Rattle.holder.specs.Meanings.{meaning};
ghost use Rattle.turns.specs.Calls.{call_answer, after, answered, after_all, Answered};
ghost use Rattle.turns.specs.Laws.{SameSeat, SameSeatsAnswerAlike};

use holder::fault::HolderFault;
use holder::holder::Holder;

// A call of a holder.
#[derive(Clone, Copy, PartialEq, Eq, Debug)]
pub enum HolderCall {
    Clear,
    Count,
    Rank(u16),
    At(u16),
    Add(u16),
    Take(u16),
}

// What it answers: nothing, a number, or why it is refused.
pub type HolderAnswer = Result<Option<u16>, HolderFault>;

// A call, and the answer that is written down beside it.
#[derive(Clone, Copy, PartialEq, Eq, Debug)]
pub struct HolderTurn {
    pub call: HolderCall,
    pub answer: HolderAnswer,
}

// Gives a holder one call.
pub fn answer_to<H: Holder>(holder: &mut H, call: HolderCall) -> HolderAnswer
    ensures answer { result ≡ call_answer (meaning (H.giving holder.old) (H.adds holder.old)) call }
    ensures left { meaning (H.giving holder.new) (H.adds holder.new) ≡ after H.seat (meaning (H.giving holder.old) (H.adds holder.old)) call }
{
    match call {
        HolderCall::Clear => {
            holder.clear();
            Ok(None)
        }
        HolderCall::Count => Ok(Some(holder.count())),
        HolderCall::Rank(code) => holder.rank(code).map(Some),
        HolderCall::At(place) => holder.at(place).map(Some),
        HolderCall::Add(code) => holder.add(code).map(|_| None),
        HolderCall::Take(code) => holder.take(code).map(|_| None),
    }
}

// Clears a holder, gives it the calls one after another, and writes each answer down beside its call.
pub fn answer_all<H: Holder>(holder: &mut H, turns: &mut [HolderTurn])
    ensures answers { turns.new ≡ answered H.seat (meaning [] 0) turns.old }
    ensures left { meaning (H.giving holder.new) (H.adds holder.new) ≡ after_all H.seat (meaning [] 0) turns.old }
{
    holder.clear();
    for turn in turns.iter_mut() {
        turn.answer = answer_to(holder, turn.call);
    }
}

// Clears a holder, gives it the calls one after another, and says whether each answer is the one written down.
pub fn answers_agree<H: Holder>(holder: &mut H, turns: &[HolderTurn]) -> bool
    ensures agreed { result ≡ true → Answered H.seat (meaning [] 0) turns.now }
    ensures told { Answered H.seat (meaning [] 0) turns.now → result ≡ true }
    ensures left { meaning (H.giving holder.new) (H.adds holder.new) ≡ after_all H.seat (meaning [] 0) turns.now }
{
    holder.clear();
    let mut agree = true;
    for turn in turns {
        agree &= answer_to(holder, turn.call) == turn.answer;
    }
    agree
}

// Gives two holders the same calls, each cleared first, writes down the answers of the first, and says whether the
// second answers alike throughout: with the same seat rule it always does.
pub fn answer_alike<G: Holder, H: Holder>(
    one: &mut G,
    other: &mut H,
    turns: &mut [HolderTurn],
) -> bool
    ensures answers { turns.new ≡ answered G.Holder.seat (meaning [] 0) turns.old }
    ensures alike { SameSeat G.Holder.seat H.Holder.seat → result ≡ true }
    ensures agreed { result ≡ true → answered H.Holder.seat (meaning [] 0) turns.old ≡ answered G.Holder.seat (meaning [] 0) turns.old }
    ensures left { meaning (G.Holder.giving one.new) (G.Holder.adds one.new) ≡ after_all G.Holder.seat (meaning [] 0) turns.old }
    ensures right { meaning (H.Holder.giving other.new) (H.Holder.adds other.new) ≡ after_all H.Holder.seat (meaning [] 0) turns.old }
    ensures law { SameSeatsAnswerAlike }
{
    answer_all(one, turns);
    answers_agree(other, turns)
}
