// Items of type 1: a serial of 32 bits, or a lane with a count of 32 bits.
ghost use Rattle.item.specs.Stamps.{stamp_number, StampFits, stamp_named};
ghost use Rattle.item.specs.StampNumbers.{stamp_there, stamp_back};
ghost use Rattle.std.proofs.Common.{rules};

use crate::fault::ItemFault;
use crate::item::Item;
use crate::lane::Lane;

// A stamp: a serial of 32 bits, or a lane with a count of 32 bits.
#[derive(Clone, Copy, PartialEq, Eq, Debug)]
pub enum Stamp {
    Serial(u32),
    InLane(Lane, u32),
}

impl Item for Stamp {
    const TYPE: u8 = 1;

    ghost TYPE = { 1 };

    ghost number = { stamp_number };

    ghost fit = { StampFits };

    ghost named = { stamp_named };

    ghost coded = { Prim.search rules };

    ghost small = { Prim.search rules };

    ghost there = { stamp_there };

    ghost back = { stamp_back };

    fn pack(&self) -> u64 {
        match *self {
            Stamp::Serial(serial) => u64::from(serial),
            Stamp::InLane(lane, count) => 0x40_0000_0000
                + u64::from(u8::from(lane)) * 0x1_0000_0000
                + u64::from(count),
        }
    }

    #[tactic(auto, using(crate::specs::StampNumbers::in_lane))]
    fn unpack(n: u64) -> Result<Stamp, ItemFault> {
        let lane = (n / 0x1_0000_0000 % 64) as u8;
        let rest = (n % 0x1_0000_0000) as u32;
        match n / 0x40_0000_0000 {
            0 if lane == 0 => Ok(Stamp::Serial(rest)),
            1 => Ok(Stamp::InLane(Lane::try_from(lane)?, rest)),
            _ => Err(ItemFault::OutsideType),
        }
    }
}
