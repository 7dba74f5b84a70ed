// What a granted certificate says of an order.
#[derive(Clone, Copy, PartialEq, Eq, Debug)]
pub struct Certificate {
    // The sum of the rank errors.
    pub total: u32,
    // The largest of them, and the first step that has it; both 0 where there is no step.
    // Kept (rule of the project): the certificate of an empty sheet is all 0.
    pub largest: u16,
    pub first: u16,
}
