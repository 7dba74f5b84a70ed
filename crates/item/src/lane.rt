// The lane of a stamp: six bits.
ghost use Rattle.std.specs.Prelude.{◌≡◌};
ghost use Rattle.item.specs.Lanes.{lane_number, lane_named};

use crate::fault::ItemFault;

// A lane, from 0 to 63: six single bits, so that every value of the type is a lane.
// Kept (rule of the project): the type has its 64 values by its form alone, and no value outside them can be written.
#[derive(Clone, Copy, PartialEq, Eq, Debug)]
pub struct Lane {
    bit5: bool,
    bit4: bool,
    bit3: bool,
    bit2: bool,
    bit1: bool,
    bit0: bool,
}

// The lane of a number, or a refusal above 63.
impl TryFrom<u8> for Lane {
    type Error = ItemFault;

    ghost try_from_gives = { λ n r. r ≡ lane_named n };

    fn try_from(number: u8) -> Result<Lane, ItemFault> {
        if number > 63 {
            return Err(ItemFault::OutsideType);
        }
        Ok(Lane {
            bit5: number / 32 % 2 == 1,
            bit4: number / 16 % 2 == 1,
            bit3: number / 8 % 2 == 1,
            bit2: number / 4 % 2 == 1,
            bit1: number / 2 % 2 == 1,
            bit0: number % 2 == 1,
        })
    }
}

// The lane's number.
impl From<Lane> for u8 {
    ghost from_gives = { λ l r. r ≡ lane_number l };

    fn from(lane: Lane) -> u8 {
        let high = 32 * u8::from(lane.bit5) + 16 * u8::from(lane.bit4) + 8 * u8::from(lane.bit3);
        high + 4 * u8::from(lane.bit2) + 2 * u8::from(lane.bit1) + u8::from(lane.bit0)
    }
}
