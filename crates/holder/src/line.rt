// A line: a holder that gives the codes of its row from one end, and its type says from which: the queue and the stack.
ghost use Rattle.std.specs.Prelude.{◌≡◌, ℕ, List, []};
ghost use Rattle.giving.specs.Lists.{SeatRule};
ghost use Rattle.holder.specs.Ends.{EndLaws};
ghost use Rattle.holder.specs.Rows.{row_list};
ghost use Rattle.holder.specs.Given.{line_sound};

use crate::fault::HolderFault;
use crate::holder::Holder;
use crate::row::Row;
use std::marker::PhantomData;

// The end of a row at which its giving list begins.
pub trait End {
    // The giving list of a row of codes.
    ghost given: { List ℕ → List ℕ };

    // The seat of a new code, which comes in at the end of the row.
    ghost seat: { SeatRule };

    // Where in a row of n codes the i-th of its giving list stands.
    ghost across: { ℕ → ℕ → ℕ };

    // The place in a row of n codes of what stands at place i of its giving list, and the other way round.
    fn place(n: u16, i: u16) -> u16
        ensures { result ≡ across n i };

    ghost laws: { EndLaws given seat across };
}

#[derive(Drop)]
pub struct Line<E> {
    row: Row,
    end: PhantomData<E>,
}

impl<E: End> Line<E> {
    pub fn new() -> Line<E>
        ensures list { E.given (row_list result.row) ≡ [] }
        ensures count { result.row.added ≡ 0 }
    {
        Line {
            row: Row::new(),
            end: PhantomData,
        }
    }
}

impl<E: End> Holder for Line<E> {
    ghost giving = { λ l. E.given (row_list l.row) };

    ghost adds = { λ l. l.row.added };

    ghost seat = { E.seat };

    ghost seated = { E.laws.seated };

    ghost sound = { λ l. line_sound E.given E.seat E.across E.laws l.row };

    fn count(&self) -> u16 {
        self.row.len()
    }

    fn rank(&self, code: u16) -> Result<u16, HolderFault> {
        let i = self.row.find(code).ok_or(HolderFault::NotHeld)?;
        Ok(E::place(self.row.len(), i))
    }

    fn at(&self, place: u16) -> Result<u16, HolderFault> {
        let n = self.row.len();
        if place >= n {
            return Err(HolderFault::NoSuchPlace);
        }
        Ok(self.row.get(E::place(n, place)))
    }

    fn front(&self, buffer: &mut [u16]) -> usize {
        let n = self.row.len();
        let written = buffer.len().min(n as usize);
        for (i, code) in buffer[..written].iter_mut().enumerate() {
            *code = self.row.get(E::place(n, i as u16));
        }
        written
    }

    fn clear(&mut self) {
        self.row.clear();
    }

    fn add(&mut self, code: u16) -> Result<(), HolderFault> {
        self.row.add(code)
    }

    fn take(&mut self, code: u16) -> Result<(), HolderFault> {
        self.row.take(code)
    }
}
