//! A gate at which a worker may wait.

/// A gate that a worker passes once for each ticket that it was given, before it judges it.
pub trait Gate {
    /// Passes with this ticket. It may wait.
    fn pass(&self, ticket: u32);
}

/// The gate that is always open: passing does nothing.
#[derive(Clone, Copy, Debug, PartialEq, Eq)]
pub struct FreeGate;

impl Gate for FreeGate {
    fn pass(&self, _ticket: u32) {}
}
