//! Sets of learnt addresses.

use dns_data::{List, Name};

/// The least and the greatest set of learnt addresses, each in the order of the configured servers.
#[derive(Debug, Drop)]
pub struct Deps {
    pub least: List<Name>,
    pub greatest: List<Name>,
}
