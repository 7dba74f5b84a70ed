// What is wrong with a header or with the length of a trace.
ghost use Rattle.std.specs.Prelude.{◌≡◌};
ghost use Rattle.frame.specs.Faults.{frame_refusal};

use refusal::{Layer, Refusal};

// Why a header is not that of a trace.
#[derive(Clone, Copy, PartialEq, Eq, Debug)]
pub enum FrameFault {
    // under 8 bytes
    Short,
    // the version is not 1
    Version,
    // the kind is above 2
    Kind,
    // the item type is not the reader's
    ItemType,
    // a spare bit is set
    SpareBit,
    // more than 1,024 operations
    Count,
    // the length is not 8 + 26 for each operation
    Length,
}

impl From<FrameFault> for Refusal {
    ghost from_gives = { λ fault r. r ≡ frame_refusal fault };

    fn from(fault: FrameFault) -> Refusal {
        let number = match fault {
            FrameFault::Short => 1,
            FrameFault::Version => 2,
            FrameFault::Kind => 3,
            FrameFault::ItemType => 4,
            FrameFault::SpareBit => 5,
            FrameFault::Count => 6,
            FrameFault::Length => 7,
        };
        Refusal {
            layer: Layer::Frame,
            number,
            place: 0,
            detail: 0,
        }
    }
}
