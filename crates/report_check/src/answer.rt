//! What is answered to a report.

use thiserror::Error;

/// What is said of the entries of a report.
#[derive(Clone, Copy, Debug, PartialEq, Eq)]
pub enum Checked {
    /// Each is right; how many there are.
    Right { entries: u64 },
    /// The number of the first that isn't, counted from 1.
    Wrong { entry: u64 },
}

/// Why nothing is said of the entries of a report.
#[derive(Clone, Copy, Debug, PartialEq, Eq, Error)]
pub enum CheckFault {
    /// The octets are no value that `serde_json` reads; or it has no whole number of 1 to 64 at `rewrites`, or no list
    /// at `faults`.
    #[error("not a report")]
    NotReport,
    /// The query of the entry with this number, counted from 1, has more walks than are followed
    /// (`MOST_WALKS_FOLLOWED`); with the number 0, the name of a server has more, whose address is to be learnt.
    #[error("more walks for entry {entry} than are followed")]
    Walks { entry: u64 },
    /// Memory ran out.
    #[error("no memory")]
    NoMemory,
}
