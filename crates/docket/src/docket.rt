// The docket and its calls.
ghost use Rattle.docket.specs.InAgreement.{InAgreement};

use crate::ledger::Ledger;
use holder::holder::Holder;

mod certifying;
mod opening;
pub mod parts;
mod steps;

// Every placed step is made on the holder too.
#[derive(Drop)]
pub struct Docket<H: Holder> {
    holder: H,
    ledger: Ledger,
    ghost agreed: { InAgreement H.seat (H.giving holder) (H.adds holder) ledger },
}
