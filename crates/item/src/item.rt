// What an item is: it has a number of 40 bits, and is made of one again.
ghost use Rattle.std.specs.Prelude.{◌≡◌, ℕ, ◌^◌, ◌<◌, Ok, Result, MatchResult, ◌==◌, ◌≢◌};
ghost use Rattle.item.specs.declared.fault.ItemFault.{ItemFault};

use crate::fault::ItemFault;

// An item type. Each item has an item number below 2^40, no two items have the same one, and a number names at most one item.
pub trait Item: Copy {
    // the type's own number, from 0 to 15
    // Kept (rule of the project): an item type is told by a number, an associated constant of the type.
    const TYPE: u8;

    ghost TYPE: { ℕ };

    // the item number
    ghost number: { Self → ℕ };

    // the item's fields fit their widths, as those of every item in memory do
    ghost fit: { Self → Type 0 };

    // the item that a number names, or the fault
    ghost named: { ℕ → Result Self ItemFault };

    // Whether two items are the same: exactly when their numbers are equal.
    // Kept (rule of the project): the pairing compares items by the item's own `same`, and not by a derived ==.
    fn same(&self, other: &Self) -> bool
        ensures { result ≡ (number self.now == number other.now) }
    {
        self.pack() == other.pack()
    }

    // The item number.
    fn pack(&self) -> u64
        ensures number { result ≡ number self.now }
        ensures fit { fit self.now };

    // The item that has the number, or a refusal exactly where no item has it.
    fn unpack(n: u64) -> Result<Self, ItemFault>
        ensures named { result ≡ named n }
        ensures exact { MatchResult result (λ x. (number x ≡ n) × fit x) (λ _. (x : Self) → fit x → number x ≢ n) };

    ghost coded: { TYPE < 16 };

    ghost small: { (x : Self) → fit x → number x < 2 ^ 40 };

    ghost there: { (x : Self) → fit x → named (number x) ≡ Ok x };

    ghost back: { (n : ℕ) (x : Self) → named n ≡ Ok x → (number x ≡ n) × fit x };
}
