//! Why walks are not given.

ghost use Rattle.std.specs.Prelude.{◌≡◌};
ghost use Rattle.plain_resolver.specs.declared.fault.ResolveFault.TheVariants as resolve_fault;
ghost use Rattle.plain_resolver.specs.declared.fault.LearntFault.TheVariants as learnt_fault;

use dns_data::{Name, NoMemory, WantOfMemory};
use thiserror::Error;

/// Why the walks of a query are not given.
#[derive(Clone, Copy, Debug, PartialEq, Eq, Error)]
pub enum ResolveFault {
    #[error("there are more walks than are allowed")]
    WalksPassed,
    #[error("no memory")]
    NoMemory,
}

/// Why the servers whose addresses are learnt are not given: the name of one has more walks than are allowed.
#[derive(Debug, Drop)]
pub enum LearntFault {
    WalksPassed(Name),
    NoMemory,
}

impl<E: WantOfMemory + Drop> From<E> for ResolveFault {
    ghost from_gives = { λ _ fault. fault ≡ resolve_fault.NoMemory };

    fn from(_fault: E) -> ResolveFault {
        ResolveFault::NoMemory
    }
}

impl From<NoMemory> for LearntFault {
    ghost from_gives = { λ _ fault. fault ≡ learnt_fault.NoMemory };

    fn from(_fault: NoMemory) -> LearntFault {
        LearntFault::NoMemory
    }
}
