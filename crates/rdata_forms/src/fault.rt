//! Why tokens are no data.

ghost use Rattle.std.specs.Prelude.{◌≡◌};
ghost use Rattle.rdata_forms.specs.Codes.{data_code};
ghost use Rattle.rdata_forms.specs.declared.fault.RdataFault.TheVariants as rdata_fault;

use dns_data::{NameFault, WantOfMemory};
use thiserror::Error;

/// Why tokens are no data of a type.
#[derive(Clone, Copy, Debug, PartialEq, Eq, Error)]
pub enum RdataFault {
    #[error("the type has another number of fields")]
    FieldCount,
    #[error("a field is no number, no time or no tag")]
    BadNumber,
    #[error("a field is no address")]
    BadAddress,
    #[error("a field is no name")]
    BadName(NameFault),
    #[error("a text has too many octets")]
    TextTooLong,
    #[error("the generic form has no length or other than so many octets")]
    BadHex,
    #[error("the type has a form of its own in place of the generic one")]
    GenericKnown,
    #[error("no memory")]
    NoMemory,
}

impl RdataFault {
    /// The code of the fault, a word that is printed.
    pub fn code(&self) -> &'static str
        ensures { result.now ≡ data_code self.now }
    {
        match self {
            RdataFault::FieldCount => "field-count",
            RdataFault::BadNumber => "bad-number",
            RdataFault::BadAddress => "bad-address",
            RdataFault::BadName(_) => "bad-name",
            RdataFault::TextTooLong => "text-too-long",
            RdataFault::BadHex => "bad-hex",
            RdataFault::GenericKnown => "generic-known",
            RdataFault::NoMemory => "no-memory",
        }
    }
}

impl<E: WantOfMemory + Drop> From<E> for RdataFault {
    ghost from_gives = { λ _ fault. fault ≡ rdata_fault.NoMemory };

    fn from(_fault: E) -> RdataFault {
        RdataFault::NoMemory
    }
}
