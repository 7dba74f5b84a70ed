// What is wrong with the bytes of a record.
ghost use Rattle.std.specs.Prelude.{◌≡◌};
ghost use Rattle.record.specs.declared.fault.RecordFault.TheVariants.{Item};
ghost use Rattle.record.specs.Faults.{record_refusal};

use item::fault::ItemFault;
use refusal::{Layer, Refusal};

// Why a record's bytes are no operation.
#[derive(Clone, Copy, PartialEq, Eq, Debug)]
pub enum RecordFault {
    // method 3
    NoSuchMethod,
    // one of the six spare bits is set
    SpareBit,
    // an add or a take whose item field is no item of the type
    Item(ItemFault),
    // a found-empty whose item field is not zero
    ItemOnFoundEmpty,
}

impl RecordFault {
    // The refusal of the record at that place.
    // Kept (no plainer): a From is given the fault alone, and the refusal needs the place too.
    pub fn refusal(&self, place: u16) -> Refusal
        ensures { result ≡ record_refusal place self.now }
    {
        let number = match self {
            RecordFault::NoSuchMethod => 10,
            RecordFault::SpareBit => 11,
            RecordFault::Item(fault) => return fault.refusal(place),
            RecordFault::ItemOnFoundEmpty => 13,
        };
        Refusal {
            layer: Layer::Record,
            number,
            place,
            detail: 0,
        }
    }
}

impl From<ItemFault> for RecordFault {
    ghost from_gives = { λ e r. r ≡ Item e };

    fn from(fault: ItemFault) -> RecordFault {
        RecordFault::Item(fault)
    }
}
