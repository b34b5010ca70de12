//! What metadata say.

use dns_data::{List, Name, Text};

/// Metadata: the servers at which a query begins, each once, and the rows of zone files in order.
#[derive(Debug, Drop)]
pub struct Meta {
    pub tops: List<Name>,
    pub rows: List<MetaRow>,
}

/// A zone file, the server that holds its zone, and the zone's origin where the row states it.
#[derive(Debug, Drop)]
pub struct MetaRow {
    pub file: Text,
    pub server: Name,
    pub origin: Option<Name>,
}
