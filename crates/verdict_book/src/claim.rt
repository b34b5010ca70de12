//! Claims of tickets.

ghost use Rattle.std.specs.Prelude.{◌≡◌};
ghost use Rattle.verdict_book.specs.Refusals.{is_claimed};
ghost use Rattle.verdict_book.specs.declared.claim.ClaimFault.TheVariants.{NoMemory};

use dns_data::NoMemory;
use pool_core::StopCause;
use thiserror::Error;

/// What a book keeps of a ticket.
#[derive(Clone, Copy, Debug, PartialEq, Eq)]
pub enum Kept {
    /// It was not issued.
    Unknown,
    /// It was issued, and not claimed.
    Issued,
    /// It was claimed, and not filed.
    Claimed,
    /// It was filed.
    Filed,
}

/// A ticket that was claimed, with a copy of its item.
#[derive(Debug, Drop)]
pub struct Claim<I> {
    pub ticket: u32,
    pub item: I,
}

/// Why no claim was given.
#[derive(Clone, Copy, Debug, PartialEq, Eq, Error)]
pub enum ClaimFault {
    /// The book was stopped, for this cause.
    #[error("the book was stopped: {0:?}")]
    Stopped(StopCause),
    /// The ticket is not issued and unclaimed: this is what is kept of it.
    #[error("the ticket cannot be claimed: {0:?}")]
    Gone(Kept),
    /// Memory ran out. It comes only where no other refusal does.
    #[error("no memory")]
    NoMemory,
}

/// Whether a ticket is kept as claimed and unfiled.
pub(crate) fn is_claimed(kept: Kept) -> bool
    ensures { result ≡ is_claimed kept }
{
    matches!(kept, Kept::Claimed)
}

impl From<NoMemory> for ClaimFault {
    ghost from_gives = { λ _ fault. fault ≡ NoMemory };

    fn from(_fault: NoMemory) -> ClaimFault {
        ClaimFault::NoMemory
    }
}
