// The memory that a certificate is written into.
ghost use Rattle.std.specs.Prelude.{◌≡◌};
ghost use Rattle.calls.specs.Rules.{is_too_short};
ghost use Rattle.docket.specs.Buffers.{held};

// Three buffers that a caller lends: for the rank errors and the earliest instants by step, and for the latenesses by
// operation.
// Kept (C interface): three slices of two types with no count beside them, which callers in C lend one by one.
// Kept (no plainer): `SameSlices` stays in the contracts: it relates the buffers before and after a call, which no type can hold.
#[derive(Drop)]
pub struct Buffers<'a> {
    pub ranks: &'a mut [u16],
    pub instants: &'a mut [u64],
    pub latenesses: &'a mut [u16],
}

impl Buffers<'_> {
    // Whether one of them has fewer entries than needed.
    pub fn is_too_short(&self, needed: usize) -> bool
        ensures { result ≡ is_too_short needed (held self.now) }
    {
        self.ranks.len() < needed || self.instants.len() < needed || self.latenesses.len() < needed
    }
}

// Three buffers of one's own, as a call in a list has them.
#[derive(Drop)]
pub struct OwnBuffers {
    pub ranks: Vec<u16>,
    pub instants: Vec<u64>,
    pub latenesses: Vec<u16>,
}
