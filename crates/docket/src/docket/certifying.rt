// The call that certifies the placed order.
ghost use Rattle.std.specs.Prelude.{◌≡◌};
ghost use Rattle.docket.specs.Buffers.{held, SameSlices};
ghost use Rattle.docket.specs.Agreed.{certifying, writing};

use crate::buffers::Buffers;
use crate::docket::Docket;
use calls::certificate::Certificate;
use calls::fault::DocketFault;
use holder::holder::Holder;

impl<H: Holder> Docket<H> {
    // Where every operation is placed, writes rank errors and instants by step and latenesses by operation over the
    // front of the buffers, and answers the total, the largest and the first step that has it. Refused, it leaves the
    // buffers as they were.
    pub fn certify(&self, buffers: &mut Buffers) -> Result<Certificate, DocketFault>
        ensures answer { result ≡ certifying H.Holder self.now (held buffers.old) }
        ensures written { held buffers.new ≡ writing H.Holder self.now (held buffers.old) result }
        ensures lenders { SameSlices buffers.old buffers.new }
    {
        let placed = self.ledger.placed;
        let needed = self.ledger.count;
        if let Some(unplaced) = self.ledger.missing() {
            return Err(DocketFault::StepsMissing { placed, unplaced });
        }
        if buffers.is_too_short(needed as usize) {
            return Err(DocketFault::BufferTooShort { needed });
        }
        self.ledger.write_ranks(buffers.ranks);
        self.ledger.write_instants(buffers.instants);
        self.ledger.write_latenesses(buffers.latenesses);
        Ok(self.ledger.sum_up())
    }
}
