//! Why words are no job.

ghost use Rattle.std.specs.Prelude.{◌≡◌};
ghost use Rattle.groot_line.specs.declared.fault.LineFault.TheVariants as line_fault;

use dns_data::WantOfMemory;
use thiserror::Error;

/// Why words are no job.
#[derive(Clone, Copy, Debug, PartialEq, Eq, Error)]
pub enum LineFault {
    /// The words ask for nothing that the program does.
    #[error("the words ask for nothing that the program does")]
    Usage,
    /// Memory ran out.
    #[error("no memory")]
    NoMemory,
}

impl<E: WantOfMemory + Drop> From<E> for LineFault {
    ghost from_gives = { λ _ fault. fault ≡ line_fault.NoMemory };

    fn from(_fault: E) -> LineFault {
        LineFault::NoMemory
    }
}
