// The arrival positions, as slots from 0 on, and the sum of the block that ends at each position. A used slot has a
// code.
ghost use Rattle.std.specs.Prelude.{◌≡◌, ◌<◌, ◌≤◌, min, IsSome, length, replicate, slice_index_or, slice_set};
ghost use Rattle.holder.specs.Answers.{front_over};
ghost use Rattle.counting.specs.Blocks.{used_upto, BlockSums};
ghost use Rattle.counting.specs.Slots.{codes};

use crate::blocks::{Change, block_len};
use crate::slot::Slot;
use holder::holder::ADD_BOUND;
use std::mem::replace;

// Kept (rule of the project): arrays of 1,024 in the struct, since a holder is fixed memory with no heap.
#[derive(Drop)]
pub struct Arrivals {
    slots: [Option<u16>; 1024],
    sums: [u16; 1025],
    ghost slotted: { length slots ≡ 1024 },
    ghost summed: { length sums ≡ 1025 },
    ghost right: { BlockSums sums slots },
}

// Writes the codes of the used slots over the front of the buffer, until it is full, and answers how many.
fn write_codes(slots: &[Option<u16>], buffer: &mut [u16]) -> usize
    ensures answer { result ≡ min (length (codes slots.now)) (length buffer.old) }
    ensures written { buffer.new ≡ front_over (codes slots.now) buffer.old }
{
    let mut written = 0;
    for slot in slots {
        if written == buffer.len() {
            break;
        }
        if let Some(code) = *slot {
            // Kept (proof): by index, since after a zip with `iter_mut` no fact says what an element is.
            buffer[written] = code;
            written += 1;
        }
    }
    written
}

impl Arrivals {
    pub(crate) fn new() -> Arrivals
        ensures { result.slots ≡ replicate 1024 None }
    {
        Arrivals {
            slots: [None; 1024],
            sums: [0; 1025],
        }
    }

    pub(crate) fn get(&self, slot: Slot) -> Option<u16>
        ensures { result ≡ slice_index_or self.now.slots slot.number None }
    {
        self.slots[slot.number as usize]
    }

    pub(crate) fn put(&mut self, slot: Slot, code: Option<u16>)
        ensures { self.new.slots ≡ slice_set self.old.slots slot.number code }
    {
        let before = replace(&mut self.slots[slot.number as usize], code);
        let change = Change {
            slot,
            before,
            after: code,
        };
        change.apply(&mut self.sums);
    }

    // How many of the first n slots are used: from block to block, down to the first.
    pub(crate) fn used_before(&self, n: u16) -> u16
        requires { n ≤ 1024 }
        ensures { result ≡ used_upto self.now.slots n }
    {
        let mut sum: u16 = 0;
        let mut at = n;
        // Kept (no plainer): it goes by whole blocks, as no range does; successors, take_while, map and sum say it in more.
        while at > 0 {
            sum += self.sums[at as usize];
            at -= block_len(at);
        }
        sum
    }

    // The used slot that has `rank` used slots before it: each turn halves the blocks that are left to look at.
    pub(crate) fn select(&self, rank: u16) -> Slot
        requires { rank < used_upto self.now.slots 1024 }
        ensures before { used_upto self.now.slots result.number ≡ rank }
        ensures held { IsSome (slice_index_or self.now.slots result.number None) }
    {
        let mut at: u16 = 0;
        let mut rest = rank;
        let mut width: u16 = ADD_BOUND;
        // Kept (no plainer): the halved width is no index; a `for` over the widths has `at` and `rest` beside it just so.
        while width > 1 {
            width /= 2;
            let sum = self.sums[(at + width) as usize];
            if sum <= rest {
                at += width;
                rest -= sum;
            }
        }
        Slot { number: at }
    }

    // The slots from the first used one on.
    fn from_first(&self) -> &[Option<u16>]
        ensures { codes result.now ≡ codes self.now.slots }
    {
        let first = if self.used_before(ADD_BOUND) > 0 {
            self.select(0).number
        } else {
            ADD_BOUND
        };
        &self.slots[first as usize..]
    }

    // Writes the first codes over the front of the buffer, as many as it has entries for, and answers how many.
    pub(crate) fn front(&self, buffer: &mut [u16]) -> usize
        ensures answer { result ≡ min (length (codes self.now.slots)) (length buffer.old) }
        ensures written { buffer.new ≡ front_over (codes self.now.slots) buffer.old }
    {
        write_codes(self.from_first(), buffer)
    }
}
