//! Entries of a journal, and calls with their places.

/// One call of a machine: which pass asked, what, and what the machine answered.
#[derive(Clone, Copy, Debug)]
pub struct Entry<Q, A> {
    pub pass: u32,
    pub ask: Q,
    pub answer: A,
}

/// A call of a pass, with its place in the journal.
#[derive(Clone, Copy, Debug)]
pub struct Placed<Q, A> {
    pub place: u64,
    pub ask: Q,
    pub answer: A,
}
