//! Why reports of parts aren't merged.

use dns_data::WantOfMemory;
use thiserror::Error;

/// Why reports of parts aren't merged. Reports are counted from 0.
#[derive(Clone, Copy, Debug, PartialEq, Eq, Error)]
pub enum MergeFault {
    /// This report allows another number of rewrites than the first.
    #[error("other rewrites")]
    OtherRewrites(u64),
    /// This report doesn't begin where the one before it ends, or the first at the root; or it ends where it begins, or
    /// before.
    #[error("not the next part")]
    NotNext(u64),
    /// The last report ends before the last name, or there is none.
    #[error("not the last part")]
    NotLast,
    /// There are more names or classes than a number of 64 bits counts.
    #[error("too many names")]
    TooMany,
    /// Memory ran out.
    #[error("no memory")]
    NoMemory,
}

impl<E: WantOfMemory + Drop> From<E> for MergeFault {
    ghost use Rattle.std.specs.Prelude.{◌≡◌};
    ghost use Rattle.part_form.specs.declared.fault.MergeFault.TheVariants.{NoMemory};

    ghost from_gives = { λ _ fault. fault ≡ NoMemory };

    fn from(_fault: E) -> MergeFault {
        MergeFault::NoMemory
    }
}
