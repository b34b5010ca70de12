//! The tickets that a deque holds.

ghost use Rattle.std.specs.Prelude.{◌≡◌, ◌==◌, ◌∷◌, ◌++◌, [], length, IfNone, IfSome, OnOk, OnErr};

use dns_data::NoMemory;
use std::alloc::Global;
use std::collections::VecDeque;
use std::marker::Model;

/// Tickets in the order in which they are taken.
#[derive(Debug, Drop)]
pub(crate) struct Queue {
    tickets: VecDeque<u32>,
}

impl Model for Queue {
    ghost use Rattle.std.specs.Prelude.{List, ℕ};

    ghost Value = { List ℕ };

    ghost view = { λ queue. queue.tickets.items };
}

impl Queue {
    /// The queue without a ticket.
    pub(crate) fn new(alloc: Global) -> Queue
        ensures { result ≡ [] }
    {
        Queue {
            tickets: VecDeque::new(alloc),
        }
    }

    /// Whether it holds no ticket.
    pub(crate) fn is_empty(&self) -> bool
        ensures { result ≡ (length self.now == 0) }
    {
        self.tickets.is_empty()
    }

    /// Puts a ticket at the back. After an error the queue is as it was.
    pub(crate) fn push_back(&mut self, ticket: u32) -> Result<(), NoMemory>
        ensures ok { OnOk result (self.new ≡ self.old ++ ticket ∷ []) }
        ensures err { OnErr result (self.new ≡ self.old) }
    {
        self.tickets.push_back(ticket)?;
        Ok(())
    }

    /// Takes the first ticket.
    pub(crate) fn pop_front(&mut self) -> Option<u32>
        ensures first { IfSome result (λ ticket. self.old ≡ ticket ∷ self.new) }
        ensures none { IfNone result (self.old ≡ []) }
        ensures stays { IfNone result (self.new ≡ self.old) }
    {
        self.tickets.pop_front()
    }
}
