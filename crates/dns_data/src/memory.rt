//! `NoMemory`, and the faults that come of it.

ghost use Rattle.std.specs.Prelude.{◌≡◌};
ghost use Rattle.dns_data.specs.declared.fault.JoinFault.TheVariants as join_fault;
ghost use Rattle.dns_data.specs.declared.fault.NameFault.TheVariants as name_fault;

use crate::fault::{JoinFault, NameFault};
use std::alloc::{AllocError, AllocFailed};
use thiserror::Error;

/// Memory ran out.
#[derive(Clone, Copy, Debug, PartialEq, Eq, Error)]
#[error("no memory")]
pub struct NoMemory;

/// A fault that says that memory ran out, and nothing else. The faults of calls that take memory come of each by `?`.
pub trait WantOfMemory {}

impl WantOfMemory for AllocError {}

impl<T: Drop> WantOfMemory for AllocFailed<T> {}

impl WantOfMemory for NoMemory {}

impl From<AllocError> for NoMemory {
    fn from(_fault: AllocError) -> NoMemory {
        NoMemory
    }
}

impl<T: Drop> From<AllocFailed<T>> for NoMemory {
    fn from(_fault: AllocFailed<T>) -> NoMemory {
        NoMemory
    }
}

impl<E: WantOfMemory + Drop> From<E> for NameFault {
    ghost from_gives = { λ _ fault. fault ≡ name_fault.NoMemory };

    fn from(_fault: E) -> NameFault {
        NameFault::NoMemory
    }
}

impl<E: WantOfMemory + Drop> From<E> for JoinFault {
    ghost from_gives = { λ _ fault. fault ≡ join_fault.NoMemory };

    fn from(_fault: E) -> JoinFault {
        JoinFault::NoMemory
    }
}
