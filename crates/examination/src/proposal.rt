// What is examined.

// An order of a sheet's operations, and the bound that no rank error may be above.
#[derive(Clone, Copy, PartialEq, Eq, Debug)]
pub struct Proposal<'a> {
    pub k: u16,
    pub order: &'a [u16],
}
