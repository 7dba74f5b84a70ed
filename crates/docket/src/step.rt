// A placed step.
ghost use Rattle.std.specs.Prelude.{◌≡◌, ◌≤◌};

// Its operation, and its rank error.
#[derive(Clone, Copy, PartialEq, Eq, Default, Debug)]
pub struct Step {
    pub operation: u16,
    pub rank: u16,
}

impl Step {
    // Its rank error, as a part of a sum.
    pub(crate) fn cost(&self) -> u32
        ensures value { result ≡ self.now.rank }
        ensures small { result ≤ 65535 }
    {
        u32::from(self.rank)
    }
}
