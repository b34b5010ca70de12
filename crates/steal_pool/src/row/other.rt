//! What a thief does at the deque of another worker.

ghost use Rattle.steal_pool.specs.Rows.{other_view, IsSameSeat, TakesOne};

use super::OtherRow;
use crate::rule::Takes;
use crossbeam_deque::Steal;

/// What a steal gives.
#[derive(Clone, Copy, Debug, PartialEq, Eq)]
pub enum Stolen {
    /// The first ticket.
    Ticket(u32),
    /// At one moment the deque held nothing.
    Nothing,
    /// Another thread was at the deque, and it may be tried again.
    Again,
}

impl OtherRow {
    /// Steals the first ticket.
    pub fn steal(&mut self) -> Stolen
        ensures same { IsSameSeat self.old self.new }
        ensures taken { TakesOne (other_view self.old) (other_view self.new) result }
    {
        match self.deque.steal_as::<Takes>(&mut self.seat) {
            Steal::Success(ticket) => Stolen::Ticket(ticket),
            Steal::Empty => Stolen::Nothing,
            Steal::Retry => Stolen::Again,
        }
    }
}
