//! Where tickets are.

/// Where an issued ticket is, with the number of the worker or of the deque.
#[derive(Clone, Copy, Debug, PartialEq, Eq)]
pub enum Spot {
    /// It was issued to this worker, and nothing happened to it.
    Issued(u32),
    /// It stands in this deque.
    Waiting(u32),
    /// This worker took it from a deque.
    Held(u32),
    /// This worker claimed it.
    Claimed(u32),
    /// It was filed.
    Filed,
}
