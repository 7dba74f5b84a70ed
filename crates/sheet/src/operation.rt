// What an operation did: it added an item, took an item, or found nothing to take.
#[derive(Clone, Copy)]
pub enum Method<I> {
    Add(I),
    Take(I),
    FoundEmpty,
}

// One operation of a history: its method with its item, the thread that ran it, and when it started and ended, in nanoseconds.
#[derive(Clone, Copy)]
pub struct Operation<I> {
    pub method: Method<I>,
    pub thread: u16,
    pub start: u64,
    pub end: u64,
}
