// An operation as it was paired: each take with the add of its item.

// What an operation does.
#[derive(Clone, Copy, PartialEq, Eq, Debug)]
pub enum Deed {
    // It adds an item, which has the operation's own number as its code.
    Add,
    // It takes the item that the operation of that number added.
    Take(u16),
    // It takes an item that no operation added.
    // Kept (no plainer): the rules have it as a case of its own; as Take of an Option each of them would have two in one.
    TakeOfNone,
    // It found nothing to take.
    FoundEmpty,
}

// What an operation does, by which thread, and from when to when.
#[derive(Clone, Copy, PartialEq, Eq, Debug)]
pub struct Paired {
    pub deed: Deed,
    pub thread: u16,
    pub start: u64,
    pub end: u64,
}
