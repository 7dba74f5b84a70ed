// The parts of a call: each works on the holder and the table as they stand.
ghost use Rattle.std.specs.Prelude.{◌≡◌, ℕ, length, take};
ghost use Rattle.giving.specs.Lists.{Below};
ghost use Rattle.holder.specs.Meanings.{meaning};
ghost use Rattle.calls.specs.Rules.{rank_if_any};
ghost use Rattle.docket.specs.Moves.{stepped, with_late, changed_all};

use crate::entry::Entry;
use holder::holder::Holder;
use order::operation::Deed;

// The rank error of a step, where it has one: an answer of the holder.
#[tactic(auto, unfolding(calls::specs::Rules::rank_if_any))]
pub(crate) fn rank_of<H: Holder>(holder: &H, deed: Deed) -> Option<u16>
    ensures { result ≡ rank_if_any deed (H.Holder.giving holder.now) }
{
    match deed {
        Deed::Add => Some(0),
        Deed::Take(add) => holder.rank(add).ok(),
        Deed::TakeOfNone => None,
        Deed::FoundEmpty => Some(holder.count()),
    }
}

// Makes a step on the holder: an add by `add`, and a take of an added item by `take`.
pub(crate) fn step<H: Holder>(holder: &mut H, operation: u16, deed: Deed)
    ensures { meaning (H.Holder.giving holder.new) (H.Holder.adds holder.new) ≡ stepped H.Holder.seat operation deed (meaning (H.Holder.giving holder.old) (H.Holder.adds holder.old)) }
{
    match deed {
        Deed::Add => {
            let _ = holder.add(operation);
        }
        Deed::Take(add) => {
            let _ = holder.take(add);
        }
        Deed::TakeOfNone | Deed::FoundEmpty => {}
    }
}

// Changes the lateness of the operation of each code.
fn change_each<F: Fn(u16) -> u16>(codes: &[u16], entries: &mut [Entry], change: F)
    requires long { length entries.old ≡ 1024 }
    requires below { Below 1024 codes.now }
    requires callable { F.IsAlwaysCallable change }
    ensures { (f : ℕ → ℕ) → ((n r : ℕ) → F.post change n r → r ≡ f n) → entries.new ≡ changed_all (with_late f) entries.old codes.now }
{
    for code in codes {
        let entry = &mut entries[*code as usize];
        entry.late = change(entry.late);
    }
}

// The first codes of the giving list, as many as the buffer has entries for.
fn first_codes<'a, H: Holder>(holder: &H, buffer: &'a mut [u16]) -> &'a [u16]
    ensures { result.now ≡ take (length buffer.old) (H.Holder.giving holder.now) }
{
    let held = holder.front(buffer);
    &buffer[..held]
}

// Changes the lateness of each of the first codes of the giving list, as many as are passed over.
pub(crate) fn change_latenesses<H: Holder, F: Fn(u16) -> u16>(
    holder: &H,
    entries: &mut [Entry],
    passed: u16,
    change: F,
)
    requires long { length entries.old ≡ 1024 }
    requires callable { F.IsAlwaysCallable change }
    ensures { (f : ℕ → ℕ) → ((n r : ℕ) → F.post change n r → r ≡ f n) → entries.new ≡ changed_all (with_late f) entries.old (take passed (H.Holder.giving holder.now)) }
{
    if passed == 0 {
        return;
    }
    // Kept (rule of the project): an array of 1,024, since a docket needs no heap.
    let mut codes = [0; 1024];
    let most = codes.len().min(passed as usize);
    change_each(first_codes(holder, &mut codes[..most]), entries, change);
}
