// The ends of the operations that are not placed, which are awaited, and the soonest of them.
ghost use Rattle.std.specs.Prelude.{◌≡◌, ℕ, ◌+◌, ◌-◌, ◌*◌, ◌^◌, ◌<◌, ◌≤◌, min, nat_lt, length, slice_index, slice_set};
ghost use Rattle.docket.specs.Kept.{entry_of, end_at, end_if, Lesser};

use crate::entry::Entry;

// A tree of instants. At 1,024 plus the number of an operation stands its end while it is awaited, and at each other place
// from 1,024 on the last instant of all; at each lower place from 1 on, the lesser of the two at twice the place and after it.
// Place 0 is unused.
// Kept (rule of the project): an array, which is memory of a fixed size.
#[derive(Drop)]
pub struct Awaited {
    least: [u64; 2048],
    ghost long: { length least ≡ 2048 },
    ghost lesser: { Lesser least },
}

// The lesser of the two instants that stand below that place.
fn lesser_below(least: &[u64; 2048], place: usize) -> u64
    requires long { length least.now ≡ 2048 }
    requires within { place < 1024 }
    ensures { result ≡ min (slice_index least.now (2 * place)) (slice_index least.now (2 * place + 1)) }
{
    least[2 * place].min(least[2 * place + 1])
}

// Writes the end of the operation, and then the places above it, up to 1.
fn write_upward(least: &mut [u64; 2048], number: usize, end: u64)
    requires long { length least.old ≡ 2048 }
    requires lesser { Lesser least.old }
    requires within { number < 1024 }
    ensures long { length least.new ≡ 2048 }
    ensures lesser { Lesser least.new }
    ensures ends { (x : ℕ) → end_at least.new x ≡ end_at (slice_set least.old (1024 + number) end) x }
    ensures unused { slice_index least.new 0 ≡ slice_index least.old 0 }
{
    let mut place = 1024 + number;
    least[place] = end;
    // Kept (no plainer): it goes by halves, as no range does; successors and take_while say it in more.
    while place > 1 {
        place /= 2;
        least[place] = lesser_below(least, place);
    }
}

// Writes the ends of the operations of the table at their places, where the last instant of all stands everywhere.
fn write_ends(least: &mut [u64; 2048], table: &[Entry])
    requires long { length least.old ≡ 2048 }
    requires few { length table.now ≤ 1024 }
    requires last { (p : ℕ) → p < 2048 → slice_index least.old p ≡ 2 ^ 64 - 1 }
    ensures long { length least.new ≡ 2048 }
    ensures ends { (x : ℕ) → x < 1024 → end_at least.new x ≡ end_if (nat_lt x (length table.now)) (entry_of table.now x) }
    ensures below { (p : ℕ) → p < 1024 → slice_index least.new p ≡ 2 ^ 64 - 1 }
{
    for (number, entry) in table.iter().enumerate() {
        least[1024 + number] = entry.paired.end;
    }
}

// Writes the lesser of the two instants below it at each place from `first` to before `past`, from the last on.
fn write_level(least: &mut [u64; 2048], first: usize, past: usize)
    requires long { length least.old ≡ 2048 }
    requires within { past ≤ 1024 }
    requires above { 1 ≤ first }
    requires ordered { first ≤ past }
    ensures long { length least.new ≡ 2048 }
    ensures lesser { (p : ℕ) → first ≤ p → p < past → slice_index least.new p ≡ min (slice_index least.new (2 * p)) (slice_index least.new (2 * p + 1)) }
    ensures before { (p : ℕ) → p < first → slice_index least.new p ≡ slice_index least.old p }
    ensures after { (p : ℕ) → past ≤ p → slice_index least.new p ≡ slice_index least.old p }
{
    for place in (first..past).rev() {
        least[place] = lesser_below(least, place);
    }
}

impl Awaited {
    // The ends of the operations of the table, and past it the last instant of all. On each level of the tree only the
    // places above operations are written, since at the others stands the last instant of all already.
    pub(crate) fn of(table: &[Entry]) -> Awaited
        requires { length table.now ≤ 1024 }
        ensures ends { (x : ℕ) → x < 1024 → end_at result.least x ≡ end_if (nat_lt x (length table.now)) (entry_of table.now x) }
        ensures unused { slice_index result.least 0 ≡ 2 ^ 64 - 1 }
    {
        let mut least = [u64::MAX; 2048];
        write_ends(&mut least, table);
        let mut first = 1024;
        let mut past = 1024 + table.len();
        // Kept (no plainer): it goes by halves, as no range does; successors and take_while say it in more.
        while first > 1 {
            first /= 2;
            past = past.div_ceil(2);
            write_level(&mut least, first, past);
        }
        Awaited { least }
    }

    // Writes the end of the operation of that number.
    pub(crate) fn set(&mut self, number: u16, end: u64)
        requires { number < 1024 }
        ensures own { end_at self.new.least number ≡ end }
        ensures others { (x : ℕ) → (x ≡ number → ⊥) → end_at self.new.least x ≡ end_at self.old.least x }
        ensures unused { slice_index self.new.least 0 ≡ slice_index self.old.least 0 }
    {
        write_upward(&mut self.least, number as usize, end);
    }

    // The soonest end.
    pub(crate) fn soonest(&self) -> u64
        ensures { result ≡ slice_index self.now.least 1 }
    {
        self.least[1]
    }
}
