// What is said of an order: a certificate, or the first rule that is broken.
ghost use Rattle.std.specs.Prelude.{◌≡◌, ◌≤◌, true, length, is_ok};
ghost use Rattle.sheet.specs.Sheets.{entered};
ghost use Rattle.frame.specs.Kinds.{kind_number};
ghost use Rattle.order.specs.Orders.{TrueOrder};
ghost use Rattle.docket.specs.Buffers.{held};
ghost use Rattle.docket.specs.Pairs.{paired_all};
ghost use Rattle.examination.specs.Kinds.{seat_of};
ghost use Rattle.text.specs.Contents.{content, with_words};
ghost use Rattle.report.specs.Reports.{verdict_of_order, granting, answering};

use crate::line::CertifiedLine;
use crate::lines::{say_lates, say_steps};
use crate::refused::say_refused;
use calls::certificate::Certificate;
use counting::queue::CountingQueue;
use docket::buffers::Buffers;
use examination::certifying::certify_order;
use examination::proposal::Proposal;
use frame::kind::Kind;
use holder::holder::Holder;
use holder::queue::Queue;
use holder::stack::Stack;
use item::item::Item;
use refusal::Refusal;
use sheet::sheet::Sheet;
use text::text::Text;

// Says a granted certificate, from the buffers that it wrote.
// Kept (no plainer): three lengths are asked for here and in `say_answer` alone; `say_steps` and `say_lates` ask each for its own.
fn say_certificate<I: Item>(
    sheet: &Sheet<I>,
    proposal: &Proposal,
    certificate: Certificate,
    buffers: &Buffers,
    text: &mut Text,
)
    requires ranks { length proposal.now.order.now ≤ length buffers.now.ranks.now }
    requires instants { length proposal.now.order.now ≤ length buffers.now.instants.now }
    requires latenesses { length (entered sheet.now) ≤ length buffers.now.latenesses.now }
    ensures said { content text.new ≡ with_words (granting (entered sheet.now) proposal.now.k proposal.now.order.now certificate (held buffers.now)).text (content text.old) }
    ensures short { length proposal.now.order.now ≤ 1024 → length (granting (entered sheet.now) proposal.now.k proposal.now.order.now certificate (held buffers.now)).text ≤ 150639 }
{
    say_steps(proposal.order, buffers.ranks, buffers.instants, text);
    say_lates(sheet, buffers.latenesses, text);
    let last = CertifiedLine {
        k: proposal.k,
        certificate,
    };
    last.say(text);
}

// Says the answer to a proposal, from the buffers as it left them.
fn say_answer<I: Item>(
    sheet: &Sheet<I>,
    proposal: &Proposal,
    answer: Result<Certificate, Refusal>,
    buffers: &Buffers,
    text: &mut Text,
)
    requires ranks { is_ok answer ≡ true → length proposal.now.order.now ≤ length buffers.now.ranks.now }
    requires instants { is_ok answer ≡ true → length proposal.now.order.now ≤ length buffers.now.instants.now }
    requires latenesses { length (entered sheet.now) ≤ length buffers.now.latenesses.now }
    ensures said { content text.new ≡ with_words (answering (entered sheet.now) proposal.now.k proposal.now.order.now answer (held buffers.now)).text (content text.old) }
    ensures short { (is_ok answer ≡ true → length proposal.now.order.now ≤ 1024) → length (answering (entered sheet.now) proposal.now.k proposal.now.order.now answer (held buffers.now)).text ≤ 150639 }
{
    match answer {
        Ok(certificate) => say_certificate(sheet, proposal, certificate, buffers, text),
        Err(refusal) => say_refused(refusal, text),
    }
}

// Says of an order, by any kind of holder, its certificate or the first rule that it breaks, and answers whether a certificate
// is granted: exactly to a true order of the sheet's operations for that k and that holder's kind. The order may be of any
// length; no text of an order has more than 150,639 bytes.
pub fn verdict<I: Item, H: Holder + Drop>(
    sheet: &Sheet<I>,
    holder: H,
    proposal: &Proposal,
    text: &mut Text,
) -> bool
    ensures granted { result ≡ (verdict_of_order I.Item H.Holder.seat (entered sheet.now) proposal.now.k proposal.now.order.now).granted }
    ensures said { content text.new ≡ with_words (verdict_of_order I.Item H.Holder.seat (entered sheet.now) proposal.now.k proposal.now.order.now).text (content text.old) }
    ensures short { length (verdict_of_order I.Item H.Holder.seat (entered sheet.now) proposal.now.k proposal.now.order.now).text ≤ 150639 }
    ensures granted_exactly_when_true_order { (result ≡ true → TrueOrder H.Holder.seat (paired_all I.Item.number (entered sheet.now)) proposal.now.k proposal.now.order.now) × (TrueOrder H.Holder.seat (paired_all I.Item.number (entered sheet.now)) proposal.now.k proposal.now.order.now → result ≡ true) }
{
    let mut ranks = [0u16; 1024];
    let mut instants = [0u64; 1024];
    let mut latenesses = [0u16; 1024];
    let mut buffers = Buffers {
        ranks: &mut ranks,
        instants: &mut instants,
        latenesses: &mut latenesses,
    };
    let answer = certify_order(sheet, holder, proposal, &mut buffers);
    say_answer(sheet, proposal, answer, &buffers, text);
    answer.is_ok()
}

// The same by the strict object of that kind.
// Kept (no plainer): the kind is known at run time only, and a match is what picks a holder's type then.
pub(crate) fn say_verdict<I: Item>(
    sheet: &Sheet<I>,
    kind: Kind,
    proposal: &Proposal,
    text: &mut Text,
) -> bool
    ensures granted { result ≡ (verdict_of_order I.Item (seat_of (kind_number kind)) (entered sheet.now) proposal.now.k proposal.now.order.now).granted }
    ensures said { content text.new ≡ with_words (verdict_of_order I.Item (seat_of (kind_number kind)) (entered sheet.now) proposal.now.k proposal.now.order.now).text (content text.old) }
    ensures short { length (verdict_of_order I.Item (seat_of (kind_number kind)) (entered sheet.now) proposal.now.k proposal.now.order.now).text ≤ 150639 }
{
    match kind {
        Kind::Queue => verdict(sheet, Queue::new(), proposal, text),
        Kind::Stack => verdict(sheet, Stack::new(), proposal, text),
        Kind::CountingQueue => verdict(sheet, CountingQueue::new(), proposal, text),
    }
}
