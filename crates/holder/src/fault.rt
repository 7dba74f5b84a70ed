// What a holder refuses.
ghost use Rattle.std.specs.Prelude.{◌≡◌};
ghost use Rattle.holder.specs.Faults.{holder_refusal};

use refusal::{Layer, Refusal};

#[derive(Clone, Copy, PartialEq, Eq, Debug)]
pub enum HolderFault {
    // The code is above 1,023.
    CodeTooLarge,
    // The code to be added is held already.
    AlreadyHeld,
    // 1,024 codes were added since the holder was cleared.
    AddsUsedUp,
    // The code asked for is not held.
    NotHeld,
    // The place asked for is not below the number of codes held.
    NoSuchPlace,
}

impl From<HolderFault> for Refusal {
    ghost from_gives = { λ fault refusal. refusal ≡ holder_refusal fault };

    fn from(fault: HolderFault) -> Refusal {
        let number = match fault {
            HolderFault::CodeTooLarge => 40,
            HolderFault::AlreadyHeld => 41,
            HolderFault::AddsUsedUp => 42,
            HolderFault::NotHeld => 43,
            HolderFault::NoSuchPlace => 44,
        };
        Refusal {
            layer: Layer::Holder,
            number,
            place: 0,
            detail: 0,
        }
    }
}
