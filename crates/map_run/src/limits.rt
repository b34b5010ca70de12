//! The limit of what a query may use.

/// How many rewrites a query may use.
pub(crate) const REWRITES: u32 = 12;
