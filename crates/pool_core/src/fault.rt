//! Refusals of events.

ghost use Rattle.std.specs.Prelude.{◌≡◌};
ghost use Rattle.pool_core.specs.declared.fault.StepFault.TheVariants.{NoMemory};

use crate::spot::Spot;
use dns_data::NoMemory;
use thiserror::Error;

/// Why an event was refused.
#[derive(Clone, Copy, Debug, PartialEq, Eq, Error)]
pub enum StepFault {
    /// A worker or a deque that is not below the number of workers.
    #[error("there is no worker {0}")]
    NoWorker(u32),
    /// A ticket that was not issued.
    #[error("ticket {0} was not issued")]
    NoTicket(u32),
    /// The ticket is where the event moves none from: its spot is `kept`.
    #[error("ticket {ticket} is not where the event takes it from, but {kept:?}")]
    Illegal { ticket: u32, kept: Spot },
    /// The deque holds no ticket.
    #[error("deque {0} is empty")]
    EmptyDeque(u32),
    /// The issued tickets and the children are together more than the limit.
    #[error("{issued} tickets are issued, and the limit is {limit}")]
    TooMany { issued: u32, limit: u32 },
    /// A claim after a stop.
    #[error("the pool was stopped")]
    Stopped,
    /// Memory ran out. It comes only where no other refusal does.
    #[error("no memory")]
    NoMemory,
}

impl From<NoMemory> for StepFault {
    ghost from_gives = { λ _ fault. fault ≡ NoMemory };

    fn from(_fault: NoMemory) -> StepFault {
        StepFault::NoMemory
    }
}
