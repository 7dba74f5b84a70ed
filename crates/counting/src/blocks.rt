// Blocks of arrival positions 1 to 1,024: one ends at each position.
ghost use Rattle.std.specs.Prelude.{◌≡◌, ℕ, ◌+◌, ◌-◌, ◌<◌, ◌≤◌, length, slice_index};
ghost use Rattle.counting.specs.Blocks.{block, worth, counted_from, Changed};

use crate::slot::Slot;
use holder::holder::ADD_BOUND;

// How long the block is that ends at a position: the lowest one bit of the position's number.
#[tactic(auto, using(crate::specs::LowestBit::block_le), unfolding(crate::specs::Blocks::block))]
pub(crate) fn block_len(position: u16) -> u16
    requires { 0 < position }
    ensures value { result ≡ block position }
    ensures some { 0 < result }
    ensures within { result ≤ position }
{
    1u16 << position.trailing_zeros()
}

// What a slot counts for: 1 if it has a code.
fn counted(code: Option<u16>) -> u16
    ensures { result ≡ worth code }
{
    u16::from(code.is_some())
}

// What a slot has before and after a write.
#[derive(Clone, Copy)]
pub(crate) struct Change {
    pub(crate) slot: Slot,
    pub(crate) before: Option<u16>,
    pub(crate) after: Option<u16>,
}

impl Change {
    // Brings the sum of each block that has the slot's position up to date.
    pub(crate) fn apply(&self, sums: &mut [u16; 1025])
        requires room { (p : ℕ) → 0 < p → p ≤ 1024 → slice_index sums.old p ≤ 1024 }
        requires enough { (p : ℕ) → 0 < p → p ≤ 1024 → counted_from (self.now.slot.number + 1) (worth self.now.before) p ≤ slice_index sums.old p + counted_from (self.now.slot.number + 1) (worth self.now.before) (p - block p) }
        ensures long { length sums.new ≡ 1025 }
        ensures changed { Changed (self.now.slot.number + 1) (worth self.now.before) (worth self.now.after) sums.old sums.new }
    {
        let less = counted(self.before);
        let more = counted(self.after);
        let mut p = self.slot.number + 1;
        // Kept (no plainer): it goes by whole blocks, each as long as its own position says, as no range does.
        while p <= ADD_BOUND {
            sums[p as usize] = sums[p as usize] + more - less;
            p += block_len(p);
        }
    }
}
