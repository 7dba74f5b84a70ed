// What a certificate is written from.
ghost use Rattle.std.specs.Prelude.{◌≡◌, ℕ, map, ◌<◌, ◌≤◌, max, ◌==◌, length, position, IfSome};
ghost use Rattle.std.specs.List.{fold, sum_by};
ghost use Rattle.std.specs.Borrow.{Bor};
ghost use Rattle.order.specs.Times.{earliest};
ghost use Rattle.giving.specs.Fronts.{over};
ghost use Rattle.calls.specs.Rules.{summed_up};
ghost use Rattle.docket.specs.InAgreement.{ops_of, steps_of, lates_of, errors_of};

use crate::entry::Entry;
use crate::ledger::Ledger;
use crate::step::Step;
use calls::certificate::Certificate;

// The sum of the rank errors.
fn total_of_ranks(order: &[Step]) -> u32
    requires { length order.now ≤ 1024 }
    ensures { result ≡ sum_by (λ s. s.rank) order.now }
{
    order.iter().map(|step| step.cost()).sum()
}

// The largest rank error, and 0 where there is none.
fn largest_rank(order: &[Step]) -> u16
    ensures { result ≡ fold (λ m s. max m s.rank) 0 order.now }
{
    order.iter().fold(0, |largest, step| step.rank.max(largest))
}

// The first step that has the rank error.
fn first_with_rank(order: &[Step], rank: u16) -> Option<usize>
    ensures within { IfSome result (λ k. k < length order.now) }
    ensures first { result ≡ position (λ s. s.rank == rank) order.now }
{
    order.iter().position(|step| step.rank == rank)
}

// Writes what `of` says of each item over the front of the buffer.
fn write_over<T, F: Fn(&T) -> u16>(items: &[T], of: F, buffer: &mut [u16])
    requires room { length items.now ≤ length buffer.old }
    requires callable { F.IsAlwaysCallable of }
    ensures { (f : T → ℕ) → ((x : Bor T) (r : ℕ) → F.post of x r → r ≡ f x.now) → buffer.new ≡ over (map f items.now) buffer.old }
{
    for (i, item) in items.iter().enumerate() {
        // Kept (proof): by index, since after a zip with `iter_mut` no fact says what an element is.
        buffer[i] = of(item);
    }
}

impl Ledger {
    // Writes the rank errors over the front of the buffer.
    pub(crate) fn write_ranks(&self, buffer: &mut [u16])
        requires { self.now.placed ≤ length buffer.old }
        ensures { buffer.new ≡ over (errors_of self.now) buffer.old }
    {
        write_over(self.order(), |step| step.rank, buffer);
    }

    // Writes the earliest instants over the front of the buffer.
    pub(crate) fn write_instants(&self, buffer: &mut [u64])
        requires { self.now.placed ≤ length buffer.old }
        ensures { buffer.new ≡ over (earliest (ops_of self.now) (steps_of self.now)) buffer.old }
    {
        let mut last: u64 = 0;
        let order = self.order();
        for (i, step) in order.iter().enumerate() {
            let start = self.entries[step.operation as usize].paired.start;
            last = last.max(start);
            // Kept (proof): by index, since after a zip with `iter_mut` no fact says what an element is.
            buffer[i] = last;
        }
    }

    // Writes the latenesses of the operations over the front of the buffer.
    pub(crate) fn write_latenesses(&self, buffer: &mut [u16])
        requires { self.now.count ≤ length buffer.old }
        ensures { buffer.new ≡ over (lates_of self.now) buffer.old }
    {
        write_over(self.table(), |entry| entry.late, buffer);
    }

    // The sum of the rank errors, the largest, and the first step that has it.
    pub(crate) fn sum_up(&self) -> Certificate
        ensures { result ≡ summed_up (errors_of self.now) }
    {
        let order = self.order();
        let largest = largest_rank(order);
        let first = first_with_rank(order, largest);
        Certificate {
            total: total_of_ranks(order),
            largest,
            first: first.unwrap_or(0) as u16,
        }
    }
}
