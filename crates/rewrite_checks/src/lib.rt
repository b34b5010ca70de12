//! Rewrite limits, blackholes, differing answers and overlong rewrites that a query shows, from the graph of its walks.
//!
//! The layer above may rest on this: the list is exactly what the query shows of these kinds, each with its first type, in
//! fault order.
//!
//! Costs: each branch of the graph is passed over once, and once more for each type; what is found is sorted. No walk is
//! listed.
#![tactic(auto)]

mod answers;
mod rewrites;

pub use rewrites::rewrite_faults;
