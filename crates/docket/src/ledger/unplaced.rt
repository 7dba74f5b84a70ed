// The operations that are not placed.
ghost use Rattle.std.specs.Prelude.{◌≡◌, ℕ, ◌<◌, not, ◌&&◌, nat_lt, length, position, IfSome};
ghost use Rattle.calls.specs.Rules.{lowest};
ghost use Rattle.docket.specs.Moves.{waits, not_placed};

use crate::entry::Entry;
use crate::ledger::Ledger;

// The first entry that is not placed and had ended before `start`.
fn first_waiting(table: &[Entry], start: u64) -> Option<usize>
    ensures within { IfSome result (λ k. k < length table.now) }
    ensures first { result ≡ position (λ e. not e.placed && nat_lt e.paired.end start) table.now }
{
    table
        .iter()
        .position(|entry| !entry.placed && entry.paired.end < start)
}

// The first entry that is not placed.
fn first_unplaced(table: &[Entry]) -> Option<usize>
    ensures within { IfSome result (λ k. k < length table.now) }
    ensures first { result ≡ position (λ e. not e.placed) table.now }
{
    table.iter().position(|entry| !entry.placed)
}

impl Ledger {
    // The lowest operation that is not placed and had ended before `start`. The table is looked through only where there is
    // one: the soonest end that is awaited says so.
    pub(crate) fn waiting(&self, start: u64) -> Option<u16>
        ensures { result ≡ lowest (waits self.now.entries start) 0 self.now.count }
    {
        if self.awaited.soonest() >= start {
            return None;
        }
        first_waiting(self.table(), start).map(|number| number as u16)
    }

    // The lowest operation that is not placed.
    pub(crate) fn missing(&self) -> Option<u16>
        ensures { result ≡ lowest (not_placed self.now.entries) 0 self.now.count }
    {
        first_unplaced(self.table()).map(|number| number as u16)
    }
}
