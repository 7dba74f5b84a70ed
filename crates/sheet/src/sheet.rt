// The sheet: operations in the order in which they are entered, in memory that is lent to it.
ghost use Rattle.std.specs.Prelude.{◌≡◌, ℕ, ◌≤◌, [], ◌∷◌, ◌++◌, length, take, is_ok, if◌then◌else◌};
ghost use Rattle.std.specs.List.{slice_get};
ghost use Rattle.sheet.specs.Consistency.{Consistent};
ghost use Rattle.sheet.specs.Entering.{enter_answer, repeated_fault};
ghost use Rattle.sheet.specs.Pairing.{pair_of, Pairs};

use crate::alike::first_alike;
use crate::fault::SheetFault;
use crate::operation::{Method, Operation};
use crate::pairing::add_of;
use item::item::Item;

// The operations entered so far, at the front of the records that the caller lends.
// Kept (no plainer): no impl Model, since contracts use three things of a sheet, each by its name: entered, room and memory.
#[derive(Drop)]
pub struct Sheet<'a, I> {
    records: &'a mut [Operation<I>],
    // Kept (rule of the project): a sheet is a lent slice of operations and a count; it allocates nothing.
    count: usize,
    ghost within: { count ≤ length records.now },
    ghost bounded: { count ≤ 1024 },
    ghost consistent: { ∥ Consistent [] (take count records.now) ∥₁ },
}

// The fault of an operation that does again what an earlier one did.
fn repeated<I: Item>(method: &Method<I>, place: u16, earlier: u16) -> SheetFault
    ensures { result ≡ repeated_fault method.now place earlier }
{
    match *method {
        Method::Add(_) => SheetFault::AddedAlready { place, earlier },
        _ => SheetFault::TakenAlready { place, earlier },
    }
}

impl<'a, I: Item> Sheet<'a, I> {
    ghost use Rattle.sheet.specs.Sheets.{memory, entered, room, SameLoan};

    // An empty sheet over the records.
    pub fn new(records: &'a mut [Operation<I>]) -> Sheet<'a, I>
        ensures entered { entered result ≡ [] }
        ensures memory { memory result ≡ records.old }
        ensures lender { result.records.ghost_name ≡ records.entry.ghost_name }
    {
        Sheet { records, count: 0 }
    }

    // How many operations the sheet takes: 1,024, or as many as there are records if fewer.
    pub fn room(&self) -> usize
        ensures { result ≡ room self.now }
    {
        self.records.len().min(1024)
    }

    // What `enter` would answer.
    pub fn judge(&self, op: &Operation<I>) -> Result<u16, SheetFault>
        ensures { result ≡ enter_answer I.Item.number (room self.now) (entered self.now) op.now }
    {
        let entered = self.all();
        let place = entered.len() as u16;
        if entered.len() >= self.room() {
            return Err(SheetFault::Full { place });
        }
        if op.end < op.start {
            return Err(SheetFault::EndBeforeStart { place });
        }
        match first_alike(entered, &op.method) {
            Some(earlier) => Err(repeated(&op.method, place, earlier as u16)),
            None => Ok(place),
        }
    }

    // Enters an operation and answers its number, or refuses it and changes nothing.
    pub fn enter(&mut self, op: Operation<I>) -> Result<u16, SheetFault>
        ensures answer { result ≡ enter_answer I.Item.number (room self.old) (entered self.old) op }
        ensures entered { entered self.new ≡ (if is_ok result then entered self.old ++ op ∷ [] else entered self.old) }
        ensures loan { SameLoan self.old self.new }
    {
        let number = self.judge(&op)?;
        self.records[self.count] = op;
        self.count += 1;
        Ok(number)
    }

    // Empties the sheet; the records stay as they are.
    pub fn clear(&mut self)
        ensures entered { entered self.new ≡ [] }
        ensures loan { SameLoan self.old self.new }
    {
        self.count = 0;
    }

    // How many operations are entered.
    pub fn count(&self) -> usize
        ensures { result ≡ length (entered self.now) }
    {
        self.all().len()
    }

    // The operations entered, in the order of their numbers.
    pub fn all(&self) -> &[Operation<I>]
        ensures entered { result.now ≡ entered self.now }
        ensures few { length result.now ≤ 1024 }
        ensures consistent { ∥ Consistent [] result.now ∥₁ }
    {
        &self.records[..self.count]
    }

    // The operation of a number, or none.
    pub fn operation(&self, number: usize) -> Option<Operation<I>>
        ensures { result ≡ slice_get (entered self.now) number }
    {
        self.all().get(number).copied()
    }

    // The pairing: the number of the add that the take of that number belongs to, or none.
    pub fn pair(&self, number: usize) -> Option<usize>
        ensures answer { result ≡ pair_of I.Item.number (entered self.now) (slice_get (entered self.now) number) }
        ensures lowest_add_of_the_item { Pairs I.Item.number (entered self.now) (slice_get (entered self.now) number) result }
    {
        match self.operation(number)?.method {
            Method::Take(item) => add_of(self.all(), &item),
            _ => None,
        }
    }
}
