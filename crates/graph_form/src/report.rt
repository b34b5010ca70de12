//! Reports, as plain values.

use dns_data::{List, Name, RrType};
use net_model::{Fault, Walk};

/// A fault, with the type that shows it first.
#[derive(Debug, Drop)]
pub struct Seen {
    pub fault: Fault,
    pub rtype: RrType,
}

/// An entry of a report: a fault, the query that shows it first, whether its first walk comes to a server twice with
/// one name, and the first walk that shows it, or the first pair of walks.
#[derive(Debug, Drop)]
pub struct ReportEntry {
    pub seen: Seen,
    pub query: Name,
    pub repeats: bool,
    pub walks: List<Walk>,
}

/// A report: how many classes and names there are, how many rewrites a query may use, and the entries.
#[derive(Debug, Drop)]
pub struct Report {
    pub classes: u32,
    pub names: u32,
    pub rewrites: u32,
    pub entries: List<ReportEntry>,
}
