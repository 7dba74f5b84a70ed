// Slots by their numbers.
ghost use Rattle.std.specs.Prelude.{◌<◌};

use holder::holder::ADD_BOUND;

// The number of a slot, from 0 on: it is below 1,024. The slot's arrival position is one more.
#[derive(Clone, Copy)]
pub(crate) struct Slot {
    pub(crate) number: u16,
    ghost within: { number < 1024 },
}

impl Slot {
    ghost use Rattle.std.specs.Prelude.{◌≡◌, if◌then◌else◌, nat_lt};
    ghost use Rattle.counting.specs.Slots.{number_of};

    // The slot of that number, if there is one.
    pub(crate) fn new(number: u16) -> Option<Slot>
        ensures { number_of result ≡ (if nat_lt number 1024 then Some number else None) }
    {
        if number < ADD_BOUND {
            Some(Slot { number })
        } else {
            None
        }
    }
}
