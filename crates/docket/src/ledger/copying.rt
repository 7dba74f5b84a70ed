// A ledger made from a sheet.
ghost use Rattle.std.specs.Prelude.{◌≡◌, ℕ, Some, replicate, slice_index_or};
ghost use Rattle.std.specs.List.{slice_get};
ghost use Rattle.sheet.specs.Sheets.{entered};
ghost use Rattle.docket.specs.Pairs.{paired_of, paired_all};
ghost use Rattle.docket.specs.InAgreement.{ops_of};
ghost use Rattle.order.specs.Steps.{no_operation};
ghost use Rattle.docket.specs.Kept.{fresh, entry_of};

use crate::entry::Entry;
use crate::ledger::Ledger;
use crate::ledger::awaited::Awaited;
use crate::step::Step;
use item::item::Item;
use order::operation::{Deed, Paired};
use sheet::operation::{Method, Operation};
use sheet::sheet::Sheet;

// The operation of that number, paired.
pub(crate) fn paired<I: Item>(sheet: &Sheet<I>, number: usize, operation: &Operation<I>) -> Paired
    requires { slice_get (entered sheet.now) number ≡ Some operation.now }
    ensures { result ≡ paired_of I.Item.number (entered sheet.now) operation.now }
{
    let deed = match operation.method {
        Method::Add(_) => Deed::Add,
        Method::Take(_) => match sheet.pair(number) {
            Some(add) => Deed::Take(add as u16),
            None => Deed::TakeOfNone,
        },
        Method::FoundEmpty => Deed::FoundEmpty,
    };
    Paired {
        deed,
        thread: operation.thread,
        start: operation.start,
        end: operation.end,
    }
}

// A ledger of the operations of the sheet, with no step placed. It is inlined, so that its parts are not copied once more.
#[inline(always)]
pub(crate) fn copied<I: Item>(sheet: &Sheet<I>, k: u16) -> Ledger
    ensures table { ops_of result ≡ paired_all I.Item.number (entered sheet.now) }
    ensures entries { (x : ℕ) → entry_of result.entries x ≡ fresh (slice_index_or (paired_all I.Item.number (entered sheet.now)) x no_operation) }
    ensures steps { result.steps ≡ replicate 1024 (record { operation = 0; rank = 0 }) }
    ensures placed { result.placed ≡ 0 }
    ensures bound { result.k ≡ k }
{
    // Kept (no plainer): a `Default` of `Paired` would say that an operation is an add by itself.
    let none = Entry::from(Paired {
        deed: Deed::Add,
        thread: 0,
        start: 0,
        end: 0,
    });
    let mut entries = [none; 1024];
    let operations = sheet.all();
    for (number, operation) in operations.iter().enumerate() {
        entries[number] = Entry::from(paired(sheet, number, operation));
    }
    let count = operations.len();
    let awaited = Awaited::of(&entries[..count]);
    Ledger {
        entries,
        count: count as u16,
        k,
        steps: [Step::default(); 1024],
        placed: 0,
        awaited,
    }
}
