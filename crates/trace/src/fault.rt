// Why a trace is not read, not written or not copied.
ghost use Rattle.std.specs.Prelude.{◌≡◌};
ghost use Rattle.trace.specs.declared.fault.EntryFault.TheVariants.{Record, Sheet};
ghost use Rattle.trace.specs.declared.fault.ReadFault.TheVariants.{Frame, Entry};
ghost use Rattle.trace.specs.declared.fault.CopyFault.TheVariants.{Reading, Writing};
ghost use Rattle.trace.specs.Faults.{entry_refusal, read_refusal, write_refusal, copy_refusal};

use frame::fault::FrameFault;
use record::fault::RecordFault;
use refusal::{Layer, Refusal};
use sheet::fault::SheetFault;

// Why a record's operation is not entered.
#[derive(Clone, Copy, PartialEq, Eq, Debug)]
pub enum EntryFault {
    Record(RecordFault),
    Sheet(SheetFault),
}

// A fault with the number of the record that has it.
#[derive(Clone, Copy, PartialEq, Eq, Debug)]
pub struct RefusedRecord {
    pub place: u16,
    pub fault: EntryFault,
}

// Why a trace is not accepted.
#[derive(Clone, Copy, PartialEq, Eq, Debug)]
pub enum ReadFault {
    Frame(FrameFault),
    Entry(RefusedRecord),
}

// Why a trace is not written.
#[derive(Clone, Copy, PartialEq, Eq, Debug)]
pub enum WriteFault {
    // the kind is above 2
    Kind,
    // the order has not as many numbers as there are operations
    OrderLength,
    // the memory is too short
    Memory,
}

// Why a trace is not read and written back.
#[derive(Clone, Copy, PartialEq, Eq, Debug)]
pub enum CopyFault {
    Reading(ReadFault),
    Writing(WriteFault),
}

impl EntryFault {
    // The refusal of the record at that place.
    // Kept (no plainer): a From is given the fault alone, and the refusal needs the place too.
    pub fn refusal(&self, place: u16) -> Refusal
        ensures { result ≡ entry_refusal place self.now }
    {
        match *self {
            EntryFault::Record(fault) => fault.refusal(place),
            EntryFault::Sheet(fault) => Refusal::from(fault),
        }
    }
}

impl From<RefusedRecord> for Refusal {
    ghost from_gives = { λ e r. r ≡ entry_refusal e.place e.fault };

    fn from(refused: RefusedRecord) -> Refusal {
        refused.fault.refusal(refused.place)
    }
}

impl From<ReadFault> for Refusal {
    ghost from_gives = { λ fault r. r ≡ read_refusal fault };

    fn from(fault: ReadFault) -> Refusal {
        match fault {
            ReadFault::Frame(fault) => Refusal::from(fault),
            ReadFault::Entry(refused) => Refusal::from(refused),
        }
    }
}

impl From<WriteFault> for Refusal {
    ghost from_gives = { λ fault r. r ≡ write_refusal fault };

    fn from(fault: WriteFault) -> Refusal {
        let number = match fault {
            WriteFault::Kind => 3,
            WriteFault::OrderLength => 52,
            WriteFault::Memory => 51,
        };
        Refusal {
            layer: Layer::Frame,
            number,
            place: 0,
            detail: 0,
        }
    }
}

impl From<CopyFault> for Refusal {
    ghost from_gives = { λ fault r. r ≡ copy_refusal fault };

    fn from(fault: CopyFault) -> Refusal {
        match fault {
            CopyFault::Reading(fault) => Refusal::from(fault),
            CopyFault::Writing(fault) => Refusal::from(fault),
        }
    }
}

impl From<RecordFault> for EntryFault {
    ghost from_gives = { λ e r. r ≡ Record e };

    fn from(fault: RecordFault) -> EntryFault {
        EntryFault::Record(fault)
    }
}

impl From<SheetFault> for EntryFault {
    ghost from_gives = { λ e r. r ≡ Sheet e };

    fn from(fault: SheetFault) -> EntryFault {
        EntryFault::Sheet(fault)
    }
}

impl From<FrameFault> for ReadFault {
    ghost from_gives = { λ e r. r ≡ Frame e };

    fn from(fault: FrameFault) -> ReadFault {
        ReadFault::Frame(fault)
    }
}

impl From<RefusedRecord> for ReadFault {
    ghost from_gives = { λ e r. r ≡ Entry e };

    fn from(refused: RefusedRecord) -> ReadFault {
        ReadFault::Entry(refused)
    }
}

impl From<ReadFault> for CopyFault {
    ghost from_gives = { λ e r. r ≡ Reading e };

    fn from(fault: ReadFault) -> CopyFault {
        CopyFault::Reading(fault)
    }
}

impl From<WriteFault> for CopyFault {
    ghost from_gives = { λ e r. r ≡ Writing e };

    fn from(fault: WriteFault) -> CopyFault {
        CopyFault::Writing(fault)
    }
}
