// What a docket refuses.
ghost use Rattle.std.specs.Prelude.{◌≡◌};
ghost use Rattle.calls.specs.Faults.{docket_refusal, code_of};

use refusal::{Layer, Refusal};

// Why a call was refused, with how many steps are placed where a step was refused or steps are missing.
#[derive(Clone, Copy, PartialEq, Eq, Debug)]
pub enum DocketFault {
    // No operation has the number.
    NoSuchOperation { placed: u16 },
    // The operation is a step already.
    PlacedAlready { placed: u16 },
    // Operations that precede it are not placed; the lowest of them is named.
    TooEarly { placed: u16, waiting: u16 },
    // It takes an item that is not held.
    NotHeld { placed: u16 },
    // Its rank error is above the bound.
    AboveBound { placed: u16, rank_error: u16 },
    // There is no step to take back.
    NothingToLift,
    // Some operations are not placed; the lowest of them is named.
    StepsMissing { placed: u16, unplaced: u16 },
    // A buffer has fewer entries than there are operations, which are so many.
    BufferTooShort { needed: u16 },
}

// A refusal in plain numbers, as a run answers it: number, place and detail, and all 0 for none.
// Kept (rule of the project): a run answers plain numbers, 0 for none.
#[derive(Clone, Copy, PartialEq, Eq, Default, Debug)]
pub struct RefusalCode {
    pub number: u8,
    pub place: u16,
    pub detail: u16,
}

// The refusal with its layer, number, place and detail.
impl From<DocketFault> for Refusal {
    ghost from_gives = { λ fault refusal. refusal ≡ docket_refusal fault };

    fn from(fault: DocketFault) -> Refusal {
        let (number, place, detail) = match fault {
            DocketFault::NoSuchOperation { placed } => (31, placed, 0),
            DocketFault::PlacedAlready { placed } => (32, placed, 0),
            DocketFault::TooEarly { placed, waiting } => (33, placed, waiting),
            DocketFault::NotHeld { placed } => (34, placed, 0),
            DocketFault::AboveBound { placed, rank_error } => (35, placed, rank_error),
            DocketFault::NothingToLift => (36, 0, 0),
            DocketFault::StepsMissing { placed, unplaced } => (37, placed, unplaced),
            DocketFault::BufferTooShort { needed } => (38, 0, needed),
        };
        Refusal {
            layer: Layer::Docket,
            number,
            place,
            detail,
        }
    }
}

// The code of what stopped a run, or of nothing.
impl From<Option<DocketFault>> for RefusalCode {
    ghost from_gives = { λ stopped code. code ≡ code_of stopped };

    fn from(stopped: Option<DocketFault>) -> RefusalCode {
        match stopped.map(Refusal::from) {
            Some(refusal) => RefusalCode {
                number: refusal.number,
                place: refusal.place,
                detail: refusal.detail,
            },
            None => RefusalCode::default(),
        }
    }
}
