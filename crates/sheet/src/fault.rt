// Why an operation is not entered.
ghost use Rattle.std.specs.Prelude.{◌≡◌};
ghost use Rattle.sheet.specs.Faults.{sheet_refusal};

use refusal::{Layer, Refusal};

// Why an operation is not entered. The place is the number that it would get.
#[derive(Clone, Copy, PartialEq, Eq, Debug)]
pub enum SheetFault {
    Full { place: u16 },
    EndBeforeStart { place: u16 },
    AddedAlready { place: u16, earlier: u16 },
    TakenAlready { place: u16, earlier: u16 },
}

// The refusal, whose detail is the earlier operation where there is one.
impl From<SheetFault> for Refusal {
    ghost from_gives = { λ f r. r ≡ sheet_refusal f };

    fn from(fault: SheetFault) -> Refusal {
        let (number, place, detail) = match fault {
            SheetFault::Full { place } => (20, place, 0),
            SheetFault::EndBeforeStart { place } => (21, place, 0),
            SheetFault::AddedAlready { place, earlier } => (22, place, earlier),
            SheetFault::TakenAlready { place, earlier } => (23, place, earlier),
        };
        Refusal {
            layer: Layer::Sheet,
            number,
            place,
            detail,
        }
    }
}
