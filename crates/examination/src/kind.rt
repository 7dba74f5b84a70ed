// The strict object of each kind.
ghost use Rattle.std.specs.Prelude.{◌≡◌};
ghost use Rattle.frame.specs.Kinds.{kind_number};
ghost use Rattle.docket.specs.Buffers.{held, SameSlices};
ghost use Rattle.docket.specs.Pairs.{sheet_ops};
ghost use Rattle.examination.specs.Kinds.{any_kind, seat_of};
ghost use Rattle.examination.specs.Orders.{order_answer, order_written};

use crate::certifying::certify_order;
use crate::proposal::Proposal;
use calls::certificate::Certificate;
use counting::queue::CountingQueue;
use docket::buffers::Buffers;
use frame::kind::Kind;
use holder::queue::Queue;
use holder::stack::Stack;
use item::item::Item;
use refusal::Refusal;
use sheet::sheet::Sheet;

// Examines an order of the sheet's operations with the strict object of that kind.
pub fn certify_of_kind<I: Item>(
    sheet: &Sheet<I>,
    kind: Kind,
    proposal: &Proposal,
    buffers: &mut Buffers,
) -> Result<Certificate, Refusal>
    ensures answer { result ≡ order_answer (seat_of (kind_number kind)) (sheet_ops I.Item.number sheet.now) proposal.now.k proposal.now.order.now (held buffers.old) }
    ensures written { held buffers.new ≡ order_written (seat_of (kind_number kind)) (sheet_ops I.Item.number sheet.now) proposal.now.k proposal.now.order.now (held buffers.old) }
    ensures lenders { SameSlices buffers.old buffers.new }
{
    // Kept (no plainer): the kind is known at run time only, and a match is what picks a holder's type then.
    match kind {
        Kind::Queue => certify_order(sheet, Queue::new(), proposal, buffers),
        Kind::Stack => certify_order(sheet, Stack::new(), proposal, buffers),
        Kind::CountingQueue => certify_order(sheet, CountingQueue::new(), proposal, buffers),
    }
}

// The kind of a number: 0 the queue, 1 the stack, and else the queue by counting.
// Kept (no plainer): a From would stand against the `TryFrom`, which refuses a number above 2.
pub fn any_kind(number: u8) -> Kind
    ensures { result ≡ any_kind number }
{
    Kind::try_from(number).unwrap_or(Kind::CountingQueue)
}

// The same for the number of a kind, as `any_kind` has it.
// Kept (no plainer): every number is taken, so that none can be refused; a `Kind` goes to `certify_of_kind`.
pub fn certify_by_kind<I: Item>(
    sheet: &Sheet<I>,
    kind: u8,
    proposal: &Proposal,
    buffers: &mut Buffers,
) -> Result<Certificate, Refusal>
    ensures answer { result ≡ order_answer (seat_of kind) (sheet_ops I.Item.number sheet.now) proposal.now.k proposal.now.order.now (held buffers.old) }
    ensures written { held buffers.new ≡ order_written (seat_of kind) (sheet_ops I.Item.number sheet.now) proposal.now.k proposal.now.order.now (held buffers.old) }
    ensures lenders { SameSlices buffers.old buffers.new }
{
    certify_of_kind(sheet, any_kind(kind), proposal, buffers)
}
