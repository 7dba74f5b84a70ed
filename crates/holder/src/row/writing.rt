// What is done to a row, as what is done to the list of its codes.
ghost use Rattle.std.specs.Prelude.{◌≡◌, ◌+◌, ◌<◌, [], ◌∷◌, ◌++◌, length, is_ok, if◌then◌else◌};
ghost use Rattle.std.specs.List.{remove};
ghost use Rattle.giving.specs.Lists.{times, without};
ghost use Rattle.holder.specs.Answers.{add_answer, take_answer};
ghost use Rattle.holder.specs.Rows.{row_list};

use crate::fault::HolderFault;
use crate::holder::{ADD_BOUND, CODE_BOUND};
use crate::row::Row;

impl Row {
    pub(crate) fn new() -> Row
        ensures list { row_list result ≡ [] }
        ensures count { result.added ≡ 0 }
    {
        Row {
            codes: [0; 1024],
            len: 0,
            added: 0,
        }
    }

    pub(crate) fn clear(&mut self)
        ensures list { row_list self.new ≡ [] }
        ensures count { self.new.added ≡ 0 }
    {
        self.len = 0;
        self.added = 0;
    }

    // Puts a code that is not in the row at its end.
    fn push(&mut self, code: u16)
        requires room { self.old.added < 1024 }
        requires small { code < 1024 }
        requires new { times code (row_list self.old) ≡ 0 }
        ensures list { row_list self.new ≡ row_list self.old ++ code ∷ [] }
        ensures count { self.new.added ≡ self.old.added + 1 }
    {
        self.codes[self.len as usize] = code;
        self.len += 1;
        self.added += 1;
    }

    // Takes out the code at a place: those behind it move up by one.
    fn remove(&mut self, i: u16)
        requires { i < length (row_list self.old) }
        ensures list { row_list self.new ≡ remove (row_list self.old) i }
        ensures count { self.new.added ≡ self.old.added }
    {
        let at = i as usize;
        let end = self.len as usize;
        self.codes.copy_within(at + 1..end, at);
        self.len -= 1;
    }

    // Adds a code at the end of the row, or says why not.
    #[tactic(auto, using(giving::proofs::Places::times_absent))]
    pub(crate) fn add(&mut self, code: u16) -> Result<(), HolderFault>
        ensures answer { result ≡ add_answer (row_list self.old) self.old.added code }
        ensures list { row_list self.new ≡ (if is_ok result then row_list self.old ++ code ∷ [] else row_list self.old) }
        ensures count { self.new.added ≡ (if is_ok result then self.old.added + 1 else self.old.added) }
    {
        if code >= CODE_BOUND {
            return Err(HolderFault::CodeTooLarge);
        }
        if self.find(code).is_some() {
            return Err(HolderFault::AlreadyHeld);
        }
        if self.added >= ADD_BOUND {
            return Err(HolderFault::AddsUsedUp);
        }
        self.push(code);
        Ok(())
    }

    // Takes a code out of the row, or says that it is not held.
    #[tactic(auto, using(giving::proofs::Places::times_absent, giving::proofs::Places::without_absent, giving::proofs::Places::removed_without))]
    pub(crate) fn take(&mut self, code: u16) -> Result<(), HolderFault>
        ensures answer { result ≡ take_answer (row_list self.old) code }
        ensures list { row_list self.new ≡ without code (row_list self.old) }
        ensures count { self.new.added ≡ self.old.added }
    {
        let i = self.find(code).ok_or(HolderFault::NotHeld)?;
        self.remove(i);
        Ok(())
    }
}
