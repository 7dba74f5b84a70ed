// What is wrong with the number of an item.
ghost use Rattle.std.specs.Prelude.{◌≡◌};
ghost use Rattle.item.specs.Faults.{item_refusal};

use refusal::{Layer, Refusal};

// Why a number is no item, or no part of one.
#[derive(Clone, Copy, PartialEq, Eq, Debug)]
pub enum ItemFault {
    // no item of the type has that number
    OutsideType,
}

impl ItemFault {
    // The refusal at a place: the number of the record, or 0 outside a record.
    // Kept (no plainer): a From is given the fault alone, and the refusal needs the place too.
    pub fn refusal(&self, place: u16) -> Refusal
        ensures { result ≡ item_refusal place self.now }
    {
        match self {
            ItemFault::OutsideType => Refusal {
                layer: Layer::Item,
                number: 12,
                place,
                detail: 0,
            },
        }
    }
}
