//! What the owner of a deque does.

ghost use Rattle.std.specs.Prelude.{◌≡◌, ℕ, List, ◌∷◌, [], ◌++◌, length, IfOk, MatchResult, MatchOption};
ghost use Rattle.steal_pool.specs.Rule.{seat_view, new_seat, WasEmpty, IsHeldBeside};
ghost use Rattle.steal_pool.specs.Rows.{own_view, other_view, IsSameDeque, IsSeatOf};

use super::{OtherRow, OwnRow};
use crate::rule::{Holds, Pushes, Seats, Takes};
use crossbeam_deque::Worker;
use dns_data::NoMemory;
use std::alloc::Global;

impl OwnRow {
    /// A deque that holds nothing. It begins with places for `capacity` tickets.
    pub fn new(alloc: Global, capacity: usize) -> Result<OwnRow, NoMemory>
        ensures { IfOk result (λ row. own_view row ≡ new_seat) }
    {
        let deque = Worker::fifo_as(alloc, capacity)?;
        Ok(OwnRow { deque })
    }

    /// Pushes a ticket at the back. Where the deque refuses it, it comes back and nothing was done.
    pub fn push(&mut self, ticket: u32) -> Result<(), u32>
        ensures same { IsSameDeque self.old self.new }
        ensures pushed { MatchResult result (λ _. own_view self.new ≡ seat_view ((own_view self.old).pushed ++ ticket ∷ []) (own_view self.old).taken) (λ back. (back ≡ ticket) × (own_view self.new ≡ own_view self.old)) }
    {
        self.deque.push_as::<Pushes>(ticket)
    }

    /// Takes the first ticket. `None` says that at one moment the deque held nothing.
    pub fn pop(&mut self) -> Option<u32>
        ensures same { IsSameDeque self.old self.new }
        ensures taken { MatchOption result ((own_view self.new ≡ own_view self.old) × WasEmpty (own_view self.old)) (λ ticket. own_view self.new ≡ seat_view (own_view self.old).pushed ((own_view self.old).taken ++ ticket ∷ [])) }
    {
        self.deque.pop_as::<Takes>()
    }

    /// Makes a seat for another worker.
    pub fn other(&self) -> Result<OtherRow, NoMemory>
        ensures { IfOk result (λ row. (other_view row ≡ new_seat) × IsSeatOf self.now row) }
    {
        let deque = self.deque.stealer()?;
        let seat = deque.pass();
        Ok(OtherRow { deque, seat })
    }

    /// Splits a seat off this one, which keeps what it has seen.
    pub fn split(&mut self) -> Result<OtherRow, NoMemory>
        ensures same { IsSameDeque self.old self.new }
        ensures view { own_view self.new ≡ own_view self.old }
        ensures split { IfOk result (λ row. (other_view row ≡ new_seat) × IsSeatOf self.old row) }
    {
        let deque = self.deque.stealer()?;
        let seat = self.deque.another::<Seats>();
        Ok(OtherRow { deque, seat })
    }

    /// Joins another seat at this deque to this one. It is spent.
    pub fn join(&mut self, other: OtherRow)
        requires { IsSeatOf self.old other }
        ensures same { IsSameDeque self.old self.new }
        ensures both { own_view self.new ≡ seat_view (own_view self.old).pushed ((own_view self.old).taken ++ (other_view other).taken) }
    {
        self.deque.absorb::<Seats>(other.seat)
    }

    /// How many tickets the deque held at one moment. At that moment they, and what all seats had taken,
    /// balanced what was pushed.
    pub fn held(&mut self) -> usize
        ensures same { IsSameDeque self.old self.new }
        ensures view { own_view self.new ≡ own_view self.old }
        ensures balance { (tickets : List ℕ) × (length tickets ≡ result) × IsHeldBeside (own_view self.old) tickets }
    {
        self.deque.len_as::<Holds>()
    }
}
