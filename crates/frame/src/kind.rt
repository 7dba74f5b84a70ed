// Which strict object a trace is examined by.
ghost use Rattle.std.specs.Prelude.{◌≡◌};
ghost use Rattle.frame.specs.Kinds.{kind_number, kind_named};

use crate::fault::FrameFault;

// The kind of strict object with which a trace is compared. A header says it by a number.
#[derive(Clone, Copy, PartialEq, Eq, Debug)]
pub enum Kind {
    Queue,
    Stack,
    CountingQueue,
}

impl TryFrom<u8> for Kind {
    type Error = FrameFault;

    ghost try_from_gives = { λ number r. r ≡ kind_named number };

    fn try_from(number: u8) -> Result<Kind, FrameFault> {
        match number {
            0 => Ok(Kind::Queue),
            1 => Ok(Kind::Stack),
            2 => Ok(Kind::CountingQueue),
            _ => Err(FrameFault::Kind),
        }
    }
}

impl From<Kind> for u8 {
    ghost from_gives = { λ kind number. number ≡ kind_number kind };

    fn from(kind: Kind) -> u8 {
        match kind {
            Kind::Queue => 0,
            Kind::Stack => 1,
            Kind::CountingQueue => 2,
        }
    }
}
