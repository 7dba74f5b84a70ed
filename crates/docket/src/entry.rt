// What a docket keeps of one operation.
ghost use Rattle.std.specs.Prelude.{◌≡◌, false};

use order::operation::Paired;

#[derive(Clone, Copy, PartialEq, Eq, Debug)]
pub struct Entry {
    pub paired: Paired,
    // How many of the steps passed over its item.
    pub late: u16,
    // Whether it is among the steps.
    pub placed: bool,
}

// The entry of an operation that is not placed.
impl From<Paired> for Entry {
    ghost from_gives = { λ operation entry. entry ≡ record { paired = operation; late = 0; placed = false } };

    fn from(operation: Paired) -> Entry {
        Entry {
            paired: operation,
            late: 0,
            placed: false,
        }
    }
}
