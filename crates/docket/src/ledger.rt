// The ledger: all of a docket but the holder.
ghost use Rattle.std.specs.Prelude.{ℕ, take};
ghost use Rattle.giving.specs.Lists.{Once};
ghost use Rattle.docket.specs.Kept.{ArrayLengths, CountsFit, StepsAreOperations, Flagged, Awaits, numbers_in};

use crate::entry::Entry;
use crate::ledger::awaited::Awaited;
use crate::step::Step;

pub mod awaited;
pub mod certificate;
pub mod copying;
pub mod steps;
pub mod unplaced;

// The table of the operations, the bound, the placed steps, and the ends of the operations that are not placed.
// Kept (rule of the project): arrays of 1,024 with a count beside each, which is memory of a fixed size.
#[derive(Drop)]
pub struct Ledger {
    pub entries: [Entry; 1024],
    pub count: u16,
    pub k: u16,
    pub steps: [Step; 1024],
    pub placed: u16,
    pub awaited: Awaited,
    ghost lengths: { ArrayLengths entries steps },
    ghost counts_fit: { CountsFit count placed },
    ghost known: { StepsAreOperations count (numbers_in steps) placed },
    ghost once: { Once (take placed (numbers_in steps)) },
    ghost flagged: { Flagged entries count (numbers_in steps) placed },
    ghost ends: { Awaits awaited.least count entries },
}
