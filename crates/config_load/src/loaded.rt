//! A configuration with the names of the files from which its zones were read.

use dns_data::{List, Name, Text};
use net_model::Config;

/// A row of the metadata whose zone was read: its server, the origin of its zone, and the names under which the zone's
/// files were opened, in that order. The file number of a record of the zone is a place among them, counted from 0.
#[derive(Debug, Drop)]
pub struct RowFiles {
    pub server: Name,
    pub origin: Name,
    pub files: List<Text>,
}

/// A configuration, and the rows of its metadata in their order.
#[derive(Debug, Drop)]
pub struct Loaded {
    pub config: Config,
    pub rows: List<RowFiles>,
}
