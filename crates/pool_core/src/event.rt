//! What workers do.

ghost use Rattle.std.specs.Prelude.{◌≡◌};
ghost use Rattle.pool_core.specs.Shadow.{history_entry};

use crate::history::HistoryEntry;

/// Why a pool was stopped.
#[derive(Clone, Copy, Debug, PartialEq, Eq)]
pub enum StopCause {
    /// More tickets would have been issued than the limit.
    Full,
    /// Memory ran out.
    NoMemory,
}

/// One atomic step of a worker. Deque `w` belongs to worker `w`.
#[derive(Clone, Copy, Debug, PartialEq, Eq)]
pub enum Event {
    /// The worker pushes a ticket that was issued to it on the back of its deque.
    Push {
        worker: u32,
        ticket: u32,
    },
    /// The worker takes the first ticket of its own deque.
    Pop {
        worker: u32,
    },
    /// The worker takes the first ticket of the deque `from`.
    Steal {
        worker: u32,
        from: u32,
    },
    /// The worker claims a ticket that it took, or one that was issued to it and that its deque refused.
    Claim {
        worker: u32,
        ticket: u32,
    },
    /// The worker files a ticket that it claimed, and the next `children` numbers are issued to it.
    File {
        worker: u32,
        ticket: u32,
        children: u32,
    },
    /// Some worker stops the pool: from then on no ticket is claimed.
    Stop {
        cause: StopCause,
    },
}

impl Event {
    /// The entry that the event makes in the history of the verdict book, or `None` where it makes none.
    pub fn entry(self) -> Option<HistoryEntry>
        ensures { result ≡ history_entry self }
    {
        match self {
            Event::Claim { ticket, .. } => Some(HistoryEntry::Claim { ticket }),
            Event::File {
                ticket,
                children,
                ..
            } => Some(HistoryEntry::File { ticket, children }),
            Event::Stop { cause } => Some(HistoryEntry::Stop { cause }),
            Event::Push { .. } | Event::Pop { .. } | Event::Steal { .. } => None,
        }
    }
}
