//! What texts give.

use dns_data::{List, Rr};

/// The records of a zone's files.
#[derive(Debug, Drop)]
pub struct ZoneText {
    /// The records in order, without those of types that are dropped.
    pub rrs: List<Rr>,
    /// How many record entries the files have, those that are dropped among them.
    pub seen: u32,
    /// How many files were included.
    pub included: u32,
}
