// The calls that place steps and take them back.
ghost use Rattle.std.specs.Prelude.{◌≡◌, false, is_ok};
ghost use Rattle.calls.specs.Faults.{code_of};
ghost use Rattle.calls.specs.Rules.{joined, judged_answer, lift_answer, lowest, rank_if_any, without_last};
ghost use Rattle.docket.specs.Kept.{entry_of};
ghost use Rattle.docket.specs.Moves.{waits};
ghost use Rattle.docket.specs.Agreed.{ops_in, steps_in, bound_in, placing, running};

use crate::docket::Docket;
use crate::docket::parts::{change_latenesses, rank_of, step};
use calls::fault::{DocketFault, RefusalCode};
use holder::holder::Holder;

// Kept (no plainer): `table` and `bound` relate the docket before and after a call, which no type can hold; each is one equation, and those who cite them need them apart.
impl<H: Holder> Docket<H> {
    // What placing the operation is answered: the rules in their order.
    #[tactic(auto, unfolding(calls::specs::Rules::judged_answer))]
    fn judge(&self, operation: u16) -> Result<u16, DocketFault>
        ensures { result ≡ judged_answer self.now.ledger.placed self.now.ledger.count operation self.now.ledger.k (entry_of self.now.ledger.entries operation).placed (lowest (waits self.now.ledger.entries (entry_of self.now.ledger.entries operation).paired.start) 0 self.now.ledger.count) (rank_if_any (entry_of self.now.ledger.entries operation).paired.deed (H.Holder.giving self.now.holder)) }
    {
        let ledger = &self.ledger;
        let placed = ledger.placed;
        if operation >= ledger.count {
            return Err(DocketFault::NoSuchOperation { placed });
        }
        let entry = ledger.entries[operation as usize];
        if entry.placed {
            return Err(DocketFault::PlacedAlready { placed });
        }
        if let Some(waiting) = ledger.waiting(entry.paired.start) {
            return Err(DocketFault::TooEarly { placed, waiting });
        }
        let found = rank_of(&self.holder, entry.paired.deed);
        let rank_error = found.ok_or(DocketFault::NotHeld { placed })?;
        if rank_error > ledger.k {
            return Err(DocketFault::AboveBound { placed, rank_error });
        }
        Ok(rank_error)
    }

    // Places the operation as the next step, and answers its rank error. Refused, it changes nothing.
    pub fn place(&mut self, operation: u16) -> Result<u16, DocketFault>
        ensures answer { result ≡ placing H.Holder self.old operation }
        ensures steps { steps_in self.new ≡ joined (steps_in self.old) operation result }
        ensures table { ops_in self.new ≡ ops_in self.old }
        ensures bound { bound_in self.new ≡ bound_in self.old }
        ensures refused { is_ok result ≡ false → self.new ≡ self.old }
    {
        let rank = self.judge(operation)?;
        let deed = self.ledger.entries[operation as usize].paired.deed;
        change_latenesses(&self.holder, &mut self.ledger.entries, rank, |late| {
            late.saturating_add(1)
        });
        step(&mut self.holder, operation, deed);
        self.ledger.add_step(operation, rank);
        Ok(rank)
    }

    // Places the operations one after another until the first refusal. Answers how many were placed, and that refusal.
    pub fn place_all(&mut self, order: &[u16]) -> (u16, Option<DocketFault>)
        ensures count { result.0 ≡ (running H.Holder self.old order.now).new }
        ensures stopped { result.1 ≡ (running H.Holder self.old order.now).stopped }
        ensures steps { steps_in self.new ≡ (running H.Holder self.old order.now).steps }
        ensures table { ops_in self.new ≡ ops_in self.old }
        ensures bound { bound_in self.new ≡ bound_in self.old }
    {
        for (placed, operation) in order.iter().enumerate() {
            if let Err(fault) = self.place(*operation) {
                return (placed as u16, Some(fault));
            }
        }
        (order.len() as u16, None)
    }

    // Places the operations one after another until the first refusal. Answers how many were placed, and that refusal in
    // plain numbers, all 0 for none.
    // Kept (rule of the project): a run answers a pair of plain numbers.
    pub fn run(&mut self, order: &[u16]) -> (u16, RefusalCode)
        ensures answer { (result.0 ≡ (running H.Holder self.old order.now).new) × (result.1 ≡ code_of (running H.Holder self.old order.now).stopped) }
        ensures steps { steps_in self.new ≡ (running H.Holder self.old order.now).steps }
        ensures table { ops_in self.new ≡ ops_in self.old }
        ensures bound { bound_in self.new ≡ bound_in self.old }
    {
        let (placed, stopped) = self.place_all(order);
        (placed, RefusalCode::from(stopped))
    }

    // Takes the last step back, and answers its operation; all else is as before that step.
    pub fn lift(&mut self) -> Result<u16, DocketFault>
        ensures answer { result ≡ lift_answer (steps_in self.old) }
        ensures steps { steps_in self.new ≡ without_last (steps_in self.old) }
        ensures table { ops_in self.new ≡ ops_in self.old }
        ensures bound { bound_in self.new ≡ bound_in self.old }
        ensures refused { is_ok result ≡ false → self.new ≡ self.old }
    {
        if self.ledger.placed == 0 {
            return Err(DocketFault::NothingToLift);
        }
        let last = self.ledger.remove_last_step();
        self.ledger.replay(&mut self.holder);
        change_latenesses(&self.holder, &mut self.ledger.entries, last.rank, |late| {
            late.saturating_sub(1)
        });
        Ok(last.operation)
    }
}
