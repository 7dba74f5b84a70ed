// The queue by counting.
ghost use Rattle.std.specs.Prelude.{◌≡◌, ◌≤◌, [], length, slice_index_or};
ghost use Rattle.holder.specs.Kinds.{queue_seat};
ghost use Rattle.counting.specs.Slots.{codes, FreeFrom, HasPosition, StandsAtPosition};
ghost use Rattle.counting.specs.Codes.{codes_once, codes_below, codes_few};
ghost use Rattle.std.proofs.Common.{rules};

use crate::arrivals::Arrivals;
use crate::slot::Slot;
use holder::fault::HolderFault;
use holder::holder::{ADD_BOUND, CODE_BOUND, Holder};

// Kept (rule of the project): an array of 1,024 in the struct, since a holder is fixed memory with no heap.
#[derive(Drop)]
pub struct CountingQueue {
    arrivals: Arrivals,
    positions: [Option<Slot>; 1024],
    added: u16,
    ghost long: { length positions ≡ 1024 },
    ghost few: { added ≤ 1024 },
    ghost free: { FreeFrom added arrivals.slots },
    ghost placed: { HasPosition arrivals.slots positions },
    ghost back: { StandsAtPosition arrivals.slots positions },
}

impl CountingQueue {
    #[tactic(auto, using(crate::proofs::Kept::free_clear, crate::specs::Codes::codes_none))]
    pub fn new() -> CountingQueue
        ensures list { codes result.arrivals.slots ≡ [] }
        ensures count { result.added ≡ 0 }
    {
        CountingQueue {
            arrivals: Arrivals::new(),
            positions: [None; 1024],
            added: 0,
        }
    }

    // The slot in which a code stands, if it is held.
    fn position(&self, code: u16) -> Option<Slot>
        ensures { result ≡ slice_index_or self.now.positions code None }
    {
        *self.positions.get(code as usize)?
    }
}

impl Holder for CountingQueue {
    ghost giving = { λ q. codes q.arrivals.slots };

    ghost adds = { λ q. q.added };

    ghost seat = { queue_seat };

    ghost seated = { Prim.search rules };

    ghost sound = { λ q.
        record {
          once = codes_once q.arrivals.slots q.positions q.placed;
          below = codes_below q.arrivals.slots q.positions q.placed;
          held = codes_few q.arrivals.slots q.added q.free;
          few = q.few;
        } };

    #[tactic(auto, using(crate::specs::Codes::length_all))]
    fn count(&self) -> u16 {
        self.arrivals.used_before(ADD_BOUND)
    }

    #[tactic(auto, using(crate::proofs::Held::not_held, crate::proofs::Held::place_held))]
    fn rank(&self, code: u16) -> Result<u16, HolderFault> {
        let slot = self.position(code).ok_or(HolderFault::NotHeld)?;
        Ok(self.arrivals.used_before(slot.number))
    }

    fn at(&self, place: u16) -> Result<u16, HolderFault> {
        if place >= self.count() {
            return Err(HolderFault::NoSuchPlace);
        }
        let slot = self.arrivals.select(place);
        self.arrivals.get(slot).ok_or(HolderFault::NoSuchPlace)
    }

    fn front(&self, buffer: &mut [u16]) -> usize {
        self.arrivals.front(buffer)
    }

    fn clear(&mut self) {
        *self = CountingQueue::new();
    }

    #[tactic(auto, using(crate::proofs::Held::not_held, crate::proofs::Held::held))]
    fn add(&mut self, code: u16) -> Result<(), HolderFault> {
        if code >= CODE_BOUND {
            return Err(HolderFault::CodeTooLarge);
        }
        if self.position(code).is_some() {
            return Err(HolderFault::AlreadyHeld);
        }
        let slot = Slot::new(self.added).ok_or(HolderFault::AddsUsedUp)?;
        self.arrivals.put(slot, Some(code));
        self.positions[code as usize] = Some(slot);
        self.added += 1;
        Ok(())
    }

    #[tactic(auto, using(crate::proofs::Held::not_held, crate::proofs::Held::place_held, giving::proofs::Places::times_absent, giving::proofs::Places::without_absent))]
    fn take(&mut self, code: u16) -> Result<(), HolderFault> {
        let slot = self.position(code).ok_or(HolderFault::NotHeld)?;
        self.arrivals.put(slot, None);
        self.positions[code as usize] = None;
        Ok(())
    }
}
