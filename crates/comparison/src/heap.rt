// Memory from the heap, for the calls of a case.
ghost use Rattle.std.specs.Prelude.{◌≡◌, ◌/◌, false, ◌||◌, [], ◌∷◌, ◌++◌, length, replicate, is_ok, is_err, IfOk, if◌then◌else◌};
ghost use Rattle.frame.specs.Orders.{numbers_of};

use std::alloc::{AllocError, Global};

// The heap, and whether it has refused memory. No other file asks it, and `noted` alone says that it has refused.
#[derive(Drop)]
pub struct Heap {
    global: Global,
    refused: bool,
}

impl Heap {
    ghost use Rattle.comparison.specs.Heaps.{has_refused};

    // The heap, which has refused nothing yet.
    pub fn new(global: Global) -> Heap
        ensures { has_refused result ≡ false }
    {
        Heap {
            global,
            refused: false,
        }
    }

    // An answer of the heap, noted where it is a refusal.
    fn noted<T>(&mut self, answer: Result<T, AllocError>) -> Result<T, AllocError>
        ensures same { result ≡ answer }
        ensures refused { has_refused self.new ≡ (is_err result || has_refused self.old) }
    {
        self.refused = answer.is_err() || self.refused;
        answer
    }

    // So many of one value.
    pub(crate) fn copies<T: Copy>(&mut self, value: T, count: u16) -> Result<Vec<T>, AllocError>
        ensures items { IfOk result (λ v. v.items ≡ replicate count value) }
        ensures refused { has_refused self.new ≡ (is_err result || has_refused self.old) }
    {
        let answer = (0..count).map(|_| value).collect(self.global);
        self.noted(answer)
    }

    // The numbers that bytes say, two bytes for each; an odd byte at the end counts for nothing.
    pub(crate) fn numbers(&mut self, bytes: &[u8]) -> Result<Vec<u16>, AllocError>
        ensures items { IfOk result (λ v. v.items ≡ numbers_of (length bytes.now / 2) bytes.now) }
        ensures refused { has_refused self.new ≡ (is_err result || has_refused self.old) }
    {
        let answer = bytes
            .as_chunks::<2>()
            .0
            .iter()
            .map(|pair| u16::from_be_bytes(*pair))
            .collect(self.global);
        self.noted(answer)
    }

    // A list of nothing, which takes no memory.
    pub(crate) fn nothing<T>(&self) -> Vec<T>
        ensures { result.items ≡ [] }
    {
        Vec::new(self.global)
    }

    // Puts an item behind those of a list.
    pub(crate) fn push<T: Drop>(&mut self, list: &mut Vec<T>, item: T) -> Result<(), AllocError>
        ensures items { list.new.items ≡ (if is_ok result then list.old.items ++ item ∷ [] else list.old.items) }
        ensures refused { has_refused self.new ≡ (is_err result || has_refused self.old) }
    {
        let answer = list.push(item).map_err(AllocError::from);
        self.noted(answer)
    }
}
