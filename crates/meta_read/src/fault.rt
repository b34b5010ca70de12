//! Why octets are no metadata.

ghost use Rattle.std.specs.Prelude.{◌≡◌};
ghost use Rattle.meta_read.specs.Codes.{meta_code};
ghost use Rattle.meta_read.specs.declared.fault.MetaFault.TheVariants as meta_fault;

use dns_data::{Name, WantOfMemory};
use thiserror::Error;

/// Why octets are no metadata. A row is its number, counted from 1, or 0 where the fault is in none.
#[derive(Debug, Drop, Error)]
pub enum MetaFault {
    /// The octets are no value that `serde_json` reads: no text of JSON, or one with a number past the greatest float, an
    /// escape of a lone surrogate, or values within one another to a depth over 127.
    #[error("not JSON")]
    NotJson,
    /// A member isn't there or isn't of its kind.
    #[error("row {row}: a member isn't there or isn't of its kind")]
    Shape { row: u32 },
    /// A text is no name (RFC 1035 section 5.1).
    #[error("row {row}: a text is no name")]
    BadName { row: u32 },
    /// No row names this top server.
    #[error("a top server has no zone file")]
    TopUnhosted(Name),
    /// The list of top servers is empty.
    #[error("no top server")]
    NoTops,
    /// There are more rows than are read.
    #[error("more rows than are read")]
    TooManyRows,
    /// Memory ran out.
    #[error("no memory")]
    NoMemory,
}

impl MetaFault {
    /// The code of the fault, a word that is printed.
    pub fn code(&self) -> &'static str
        ensures { result.now ≡ meta_code self.now }
    {
        match self {
            MetaFault::NotJson => "not-json",
            MetaFault::Shape { .. } => "bad-shape",
            MetaFault::BadName { .. } => "bad-name",
            MetaFault::TopUnhosted(_) => "top-unhosted",
            MetaFault::NoTops => "no-tops",
            MetaFault::TooManyRows => "too-many-rows",
            MetaFault::NoMemory => "no-memory",
        }
    }
}

impl<E: WantOfMemory + Drop> From<E> for MetaFault {
    ghost from_gives = { λ _ fault. fault ≡ meta_fault.NoMemory };

    fn from(_fault: E) -> MetaFault {
        MetaFault::NoMemory
    }
}
