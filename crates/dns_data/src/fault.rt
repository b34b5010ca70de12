//! Why octets are no label, a text no name, and labels no longer name.

use thiserror::Error;

/// Why octets are no label or a text is no name.
#[derive(Clone, Copy, Debug, PartialEq, Eq, Error)]
pub enum NameFault {
    #[error("a label has no octet")]
    EmptyLabel,
    #[error("a label has more than 63 octets")]
    LabelTooLong,
    #[error("the name has more than 255 octets")]
    NameTooLong,
    #[error("a backslash stands before no octet and no three digits up to 255")]
    BadEscape,
    #[error("no memory")]
    NoMemory,
}

/// Why labels were not put below a name.
#[derive(Clone, Copy, Debug, PartialEq, Eq, Error)]
pub enum JoinFault {
    #[error("the name would have more than 255 octets")]
    TooLong,
    #[error("no memory")]
    NoMemory,
}
