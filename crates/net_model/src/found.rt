//! What a lookup in a zone finds.

use dns_data::{List, Name, Rdata};

/// What a zone answers to a name and a type (RFC 1034 section 4.3.2, RFC 4592 section 3.3, RFC 6672
/// section 3.2).
#[derive(Debug, Drop)]
pub enum Found {
    /// The name is delegated: the zone cut, and its name servers in the order of their names.
    Referral {
        cut: Name,
        names: List<Name>,
    },
    /// The name is rewritten by the owner's DNAME or CNAME record.
    Rewrite {
        by_dname: bool,
        owner: Name,
        to: Name,
    },
    /// The name that the owner's DNAME record makes would have more than 255 octets.
    TooLong {
        owner: Name,
    },
    /// The data of the type, in the order of their texts.
    Answer(List<Rdata>),
    /// The name exists and owns no record of the type.
    NoData,
    /// The name doesn't exist, and no wildcard stands for it.
    NxDomain,
}
