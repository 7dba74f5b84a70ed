// The examination of an order of the operations on a sheet.
ghost use Rattle.std.specs.Prelude.{◌≡◌, true, false, length, is_ok, IfOk};
ghost use Rattle.order.specs.Orders.{TrueOrder};
ghost use Rattle.calls.specs.Meanings.{Granted};
ghost use Rattle.calls.specs.Rules.{is_too_short};
ghost use Rattle.docket.specs.Buffers.{held, SameSlices};
ghost use Rattle.docket.specs.Pairs.{sheet_ops};
ghost use Rattle.examination.specs.Orders.{order_answer, order_written};

use crate::proposal::Proposal;
use calls::certificate::Certificate;
use docket::buffers::Buffers;
use docket::docket::Docket;
use holder::holder::Holder;
use item::item::Item;
use refusal::Refusal;
use sheet::sheet::Sheet;

// Examines an order of the sheet's operations: with buffers long enough, a certificate is granted exactly when the order
// is true, and else the first rule that is broken is named. Refused, it leaves the buffers as they were.
pub fn certify_order<I: Item, H: Holder + Drop>(
    sheet: &Sheet<I>,
    holder: H,
    proposal: &Proposal,
    buffers: &mut Buffers,
) -> Result<Certificate, Refusal>
    ensures answer { result ≡ order_answer H.Holder.seat (sheet_ops I.Item.number sheet.now) proposal.now.k proposal.now.order.now (held buffers.old) }
    ensures written { held buffers.new ≡ order_written H.Holder.seat (sheet_ops I.Item.number sheet.now) proposal.now.k proposal.now.order.now (held buffers.old) }
    ensures lenders { SameSlices buffers.old buffers.new }
    ensures granted_exactly_when_true_order { is_too_short (length (sheet_ops I.Item.number sheet.now)) (held buffers.old) ≡ false → (is_ok result ≡ true → TrueOrder H.Holder.seat (sheet_ops I.Item.number sheet.now) proposal.now.k proposal.now.order.now) × (TrueOrder H.Holder.seat (sheet_ops I.Item.number sheet.now) proposal.now.k proposal.now.order.now → is_ok result ≡ true) }
    ensures granted_certificates_are_true { IfOk result (λ c. Granted H.Holder.seat (sheet_ops I.Item.number sheet.now) proposal.now.k proposal.now.order.now (held buffers.old) c (held buffers.new)) }
{
    let mut docket = Docket::open(sheet, holder, proposal.k);
    let (_, stopped) = docket.place_all(proposal.order);
    if let Some(fault) = stopped {
        return Err(fault.into());
    }
    Ok(docket.certify(buffers)?)
}
