// Lists of calls on a docket, and the law that holds of every one of them.
ghost use Rattle.std.specs.Prelude.{◌≡◌, List, [], map};
ghost use Rattle.std.specs.List.{AllZip};
ghost use Rattle.calls.specs.Calls.{answers_for, placed_by};
ghost use Rattle.calls.specs.Sessions.{Session};
ghost use Rattle.calls.specs.Laws.{EveryAnswerIsTheRules, NothingElseMakesASession, EveryStepWasAcceptable, PlacingIsJudgedByTheRules, GrantedExactlyWhenTrue, TrueOrdersRunWhole, AnsweredRankErrorsAreShortestStretches, PlacedRankErrorsAreShortestStretches, RankErrorsAddUpToPassingsOver, GrantedCertificatesAreTrue, PlacedOrderKeepsToTime};
ghost use Rattle.docket.specs.Pairs.{sheet_ops};
ghost use Rattle.docket.specs.Slots.{Keeps, call_of, reply_of};
ghost use Rattle.docket.specs.Buffers.{buffers_of};
ghost use Rattle.docket.specs.Agreed.{ops_in, steps_in, bound_in, certifying, writing, replying, leaving, replying_all, leaving_all};

use crate::buffers::Buffers;
use crate::docket::Docket;
use crate::slot::Slot;
use calls::certificate::Certificate;
use calls::fault::DocketFault;
use holder::holder::Holder;
use item::item::Item;
use sheet::sheet::Sheet;

// Certifies into three slices.
// Kept (proof): with a method of `OwnBuffers` that lends the three, and `docket.certify(&mut buffers.lend())` in `fill`, its clause `answer` stays open, since what a `Vec` holds is known after a slice of it was lent as a parameter, and not after it was lent in a struct; a `Buffers` written in `fill` is refused by the borrow checker, which has no lending through a reference that is lent.
fn certify_into<H: Holder>(
    docket: &Docket<H>,
    ranks: &mut [u16],
    instants: &mut [u64],
    latenesses: &mut [u16],
) -> Result<Certificate, DocketFault>
    ensures answer { result ≡ certifying H.Holder docket.now (buffers_of ranks.old instants.old latenesses.old) }
    ensures written { buffers_of ranks.new instants.new latenesses.new ≡ writing H.Holder docket.now (buffers_of ranks.old instants.old latenesses.old) result }
{
    docket.certify(&mut Buffers {
        ranks,
        instants,
        latenesses,
    })
}

// Answers one call, and puts the answer into its slot.
pub fn fill<H: Holder>(docket: &mut Docket<H>, slot: &mut Slot)
    ensures answer { reply_of slot.new ≡ replying H.Holder docket.old (call_of slot.old) }
    ensures steps { steps_in docket.new ≡ leaving H.Holder docket.old (call_of slot.old) }
    ensures table { ops_in docket.new ≡ ops_in docket.old }
    ensures bound { bound_in docket.new ≡ bound_in docket.old }
    ensures kept { Keeps slot.old slot.new }
{
    match slot {
        Slot::Place { operation, answer } => {
            *answer = docket.place(*operation);
        }
        Slot::Run {
            order,
            new,
            stopped,
        } => {
            let (placed, code) = docket.run(order);
            *new = placed;
            *stopped = code;
        }
        Slot::Lift { answer } => {
            *answer = docket.lift();
        }
        Slot::Certify { buffers, answer } => {
            *answer = certify_into(
                docket,
                &mut buffers.ranks,
                &mut buffers.instants,
                &mut buffers.latenesses,
            );
        }
    }
}

// Answers the calls in turn.
pub fn answer_each<H: Holder>(docket: &mut Docket<H>, slots: &mut [Slot])
    ensures answers { map reply_of slots.new ≡ replying_all H.Holder docket.old (map call_of slots.old) }
    ensures steps { steps_in docket.new ≡ leaving_all H.Holder docket.old (map call_of slots.old) }
    ensures table { ops_in docket.new ≡ ops_in docket.old }
    ensures bound { bound_in docket.new ≡ bound_in docket.old }
    ensures kept { AllZip Keeps slots.old slots.new }
{
    for slot in slots.iter_mut() {
        fill(docket, slot);
    }
}

// Opens a docket on the sheet, and answers the calls in turn, whatever they are. What the calls answer and leave is
// an equation; the rest of the contract is the law over every list of calls.
pub fn answer_calls<H: Holder, I: Item>(
    sheet: &Sheet<I>,
    holder: H,
    k: u16,
    slots: &mut [Slot],
) -> Docket<H>
    ensures answers { map reply_of slots.new ≡ answers_for H.Holder.seat (sheet_ops I.Item.number sheet.now) k [] (map call_of slots.old) }
    ensures steps { steps_in result ≡ placed_by H.Holder.seat (sheet_ops I.Item.number sheet.now) k [] (map call_of slots.old) }
    ensures table { ops_in result ≡ sheet_ops I.Item.number sheet.now }
    ensures bound { bound_in result ≡ k }
    ensures kept { AllZip Keeps slots.old slots.new }
    ensures session { Session H.Holder.seat (sheet_ops I.Item.number sheet.now) k [] (map call_of slots.old) (map reply_of slots.new) (steps_in result) }
    ensures only_session { NothingElseMakesASession H.Holder.seat (sheet_ops I.Item.number sheet.now) k (map call_of slots.old) }
    ensures every_answer_is_the_rules { EveryAnswerIsTheRules H.Holder.seat (sheet_ops I.Item.number sheet.now) k (map call_of slots.old) }
    ensures every_step_was_acceptable { EveryStepWasAcceptable H.Holder.seat (sheet_ops I.Item.number sheet.now) k (map call_of slots.old) }
    ensures placing_is_judged_by_the_rules { PlacingIsJudgedByTheRules H.Holder.seat (sheet_ops I.Item.number sheet.now) k (map call_of slots.old) }
    ensures granted_exactly_when_true { GrantedExactlyWhenTrue H.Holder.seat (sheet_ops I.Item.number sheet.now) k (map call_of slots.old) }
    ensures true_orders_run_whole { TrueOrdersRunWhole H.Holder.seat (sheet_ops I.Item.number sheet.now) k (map call_of slots.old) }
    ensures answered_rank_errors_are_shortest_stretches { AnsweredRankErrorsAreShortestStretches H.Holder.seat (sheet_ops I.Item.number sheet.now) k (map call_of slots.old) }
    ensures placed_rank_errors_are_shortest_stretches { PlacedRankErrorsAreShortestStretches H.Holder.seat (sheet_ops I.Item.number sheet.now) k (map call_of slots.old) }
    ensures rank_errors_add_up_to_passings_over { RankErrorsAddUpToPassingsOver H.Holder.seat (sheet_ops I.Item.number sheet.now) k (map call_of slots.old) }
    ensures granted_certificates_are_true { GrantedCertificatesAreTrue H.Holder.seat (sheet_ops I.Item.number sheet.now) k (map call_of slots.old) }
    ensures placed_order_keeps_to_time { PlacedOrderKeepsToTime H.Holder.seat (sheet_ops I.Item.number sheet.now) k (map call_of slots.old) }
{
    let mut docket = Docket::open(sheet, holder, k);
    answer_each(&mut docket, slots);
    docket
}
