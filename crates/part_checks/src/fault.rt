//! Why names make no part.

use dns_data::{Name, WantOfMemory};
use thiserror::Error;

/// A condition that the names of a part keep.
#[derive(Clone, Copy, Debug, PartialEq, Eq)]
pub enum PartRule {
    /// Each name that is held by itself is an origin or owner of what is left.
    Met,
    /// A held name that exists in a zone exists in what is left of it.
    Exists,
    /// A name right below a held one that isn't held itself is longer than the first unnamed name there.
    Short,
    /// The target of an alias is held, or begins with a name that is told as no name of the whole.
    Alias,
    /// So is the target of a redirection.
    Redirects,
    /// All names of the whole at or below the owner and the target of a redirection are held.
    Apart,
    /// So is a name server of a delegation that may have glue there, or whose address may have to be learnt.
    Referral,
    /// The own names of the whole are held.
    Own,
    /// A name that is told as no name of the whole is none.
    Away,
}

/// Why names make no part.
#[derive(Debug, Drop, Error)]
pub enum PartFault {
    /// A condition doesn't hold of this name.
    #[error("a name breaks a rule of parts")]
    Breaks(PartRule, Name),
    /// Memory ran out.
    #[error("no memory")]
    NoMemory,
}

impl<E: WantOfMemory + Drop> From<E> for PartFault {
    ghost use Rattle.std.specs.Prelude.{◌≡◌};
    ghost use Rattle.part_checks.specs.declared.fault.PartFault.TheVariants.{NoMemory};

    ghost from_gives = { λ _ fault. fault ≡ NoMemory };

    fn from(_fault: E) -> PartFault {
        PartFault::NoMemory
    }
}
