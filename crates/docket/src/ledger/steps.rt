// Steps written down and taken out again, and made on a holder.
ghost use Rattle.std.specs.Prelude.{◌≡◌, ℕ, [], ◌+◌, ◌-◌, ◌<◌, true, false, length, take, slice_index, slice_set};
ghost use Rattle.holder.specs.Meanings.{meaning};
ghost use Rattle.docket.specs.Kept.{entry_of, numbers_in, ranks_in};
ghost use Rattle.docket.specs.InAgreement.{steps_of};
ghost use Rattle.docket.specs.Moves.{with_flag, changed_at, replayed};

use crate::docket::parts::step;
use crate::entry::Entry;
use crate::ledger::Ledger;
use crate::step::Step;
use holder::holder::Holder;

impl Ledger {
    // The entries of the operations.
    pub(crate) fn table(&self) -> &[Entry]
        ensures entries { result.now ≡ take self.now.count self.now.entries }
        ensures long { length result.now ≡ self.now.count }
    {
        &self.entries[..self.count as usize]
    }

    // The placed steps.
    pub(crate) fn order(&self) -> &[Step]
        ensures steps { result.now ≡ take self.now.placed self.now.steps }
        ensures long { length result.now ≡ self.now.placed }
    {
        &self.steps[..self.placed as usize]
    }

    // Writes a new step down. The end of its operation is awaited no longer.
    pub(crate) fn add_step(&mut self, operation: u16, rank: u16)
        requires within { operation < self.old.count }
        requires new { (entry_of self.old.entries operation).placed ≡ false }
        ensures entries { self.new.entries ≡ changed_at (with_flag true) self.old.entries operation }
        ensures steps { numbers_in self.new.steps ≡ slice_set (numbers_in self.old.steps) self.old.placed operation }
        ensures ranks { ranks_in self.new.steps ≡ slice_set (ranks_in self.old.steps) self.old.placed rank }
        ensures placed { self.new.placed ≡ self.old.placed + 1 }
        ensures count { self.new.count ≡ self.old.count }
        ensures bound { self.new.k ≡ self.old.k }
    {
        let placed = self.placed;
        self.entries[operation as usize].placed = true;
        self.steps[placed as usize] = Step { operation, rank };
        self.placed = placed + 1;
        self.awaited.set(operation, u64::MAX);
    }

    // Takes the last step out again, and answers it. The end of its operation is awaited again.
    pub(crate) fn remove_last_step(&mut self) -> Step
        requires { 0 < self.old.placed }
        ensures operation { result.operation ≡ slice_index (numbers_in self.old.steps) (self.old.placed - 1) }
        ensures rank { result.rank ≡ slice_index (ranks_in self.old.steps) (self.old.placed - 1) }
        ensures entries { self.new.entries ≡ changed_at (with_flag false) self.old.entries result.operation }
        ensures steps { self.new.steps ≡ self.old.steps }
        ensures placed { self.new.placed ≡ self.old.placed - 1 }
        ensures count { self.new.count ≡ self.old.count }
        ensures bound { self.new.k ≡ self.old.k }
    {
        let placed = self.placed - 1;
        let last = self.steps[placed as usize];
        let entry = &mut self.entries[last.operation as usize];
        entry.placed = false;
        self.awaited.set(last.operation, entry.paired.end);
        self.placed = placed;
        last
    }

    // Clears the holder, and makes the placed steps on it, from the first on.
    pub(crate) fn replay<H: Holder>(&self, holder: &mut H)
        ensures { meaning (H.Holder.giving holder.new) (H.Holder.adds holder.new) ≡ replayed H.Holder.seat self.now.entries (meaning [] 0) (steps_of self.now) }
    {
        holder.clear();
        let order = self.order();
        for placed in order {
            let deed = self.entries[placed.operation as usize].paired.deed;
            step(holder, placed.operation, deed);
        }
    }
}
