// A row: codes in the order in which they came, in an array, and how many were added.
ghost use Rattle.std.specs.Prelude.{◌≡◌, ◌≤◌, length, take};
ghost use Rattle.giving.specs.Lists.{Once, Below};

mod reading;
mod writing;

#[derive(Drop)]
pub struct Row {
    // Kept (rule of the project): an array of 1,024 and a length beside it, since a holder is fixed memory with no heap.
    codes: [u16; 1024],
    len: u16,
    added: u16,
    ghost long: { length codes ≡ 1024 },
    ghost once: { Once (take len codes) },
    ghost below: { Below 1024 (take len codes) },
    ghost few: { (len ≤ added) × (added ≤ 1024) },
}
