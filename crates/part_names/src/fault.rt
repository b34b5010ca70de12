//! Why a file isn't read as the names of a part.

use dns_data::WantOfMemory;
use thiserror::Error;

/// Why a file isn't read as the names of a part.
#[derive(Clone, Copy, Debug, PartialEq, Eq, Error)]
pub enum NamesFault {
    /// This line, counted from 1, has no word of these files, or no name behind it, or tells a bound a second time.
    #[error("line {0} tells no name of a part")]
    Line(u32),
    /// Memory ran out.
    #[error("no memory")]
    NoMemory,
}

impl<E: WantOfMemory + Drop> From<E> for NamesFault {
    ghost use Rattle.std.specs.Prelude.{◌≡◌};
    ghost use Rattle.part_names.specs.declared.fault.NamesFault.TheVariants.{NoMemory};

    ghost from_gives = { λ _ fault. fault ≡ NoMemory };

    fn from(_fault: E) -> NamesFault {
        NamesFault::NoMemory
    }
}
