// Items of type 0: a number of 32 bits.
ghost use Rattle.std.specs.Prelude.{ℕ, ◌^◌, ◌<◌};
ghost use Rattle.item.specs.Tickets.{ticket_named};
ghost use Rattle.std.proofs.Common.{rules};

use crate::fault::ItemFault;
use crate::item::Item;

// A ticket: a number of 32 bits, which is its own item number.
#[derive(Clone, Copy, PartialEq, Eq, Debug)]
pub struct Ticket {
    pub number: u32,
}

impl Item for Ticket {
    const TYPE: u8 = 0;

    ghost TYPE = { 0 };

    ghost number = { λ x. x.number };

    ghost fit = { λ x. x.number < 2 ^ 32 };

    ghost named = { ticket_named };

    ghost coded = { Prim.search rules };

    ghost small = { Prim.search rules };

    ghost there = { Prim.search rules };

    ghost back = { Prim.search rules };

    fn pack(&self) -> u64 {
        u64::from(self.number)
    }

    fn unpack(n: u64) -> Result<Ticket, ItemFault> {
        u32::try_from(n)
            .map(|number| Ticket { number })
            .map_err(|_| ItemFault::OutsideType)
    }
}
