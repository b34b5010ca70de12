//! Faults of delegations that a query shows, from the graph of its walks: lame and differing delegations, missing and
//! differing glue, cyclic dependencies, and name servers without an address.
//!
//! The layer above may rest on this: the list is exactly what the query shows of these kinds, each with its first type, in
//! fault order.
//!
//! Costs: each branch of the graph is passed over once. What the zones at both sides of a zone cut show is told by a table
//! that is made once for all graphs: it is asked once for each state that refers, and where it has nothing to tell the
//! state's branches aren't looked at. Whether a name is among the learnt ones is found in sets that are made once for all
//! graphs. What is found is sorted. No walk is listed.
#![tactic(auto)]

mod cut_faults;
mod delegations;

pub use delegations::{delegation_faults, delegation_faults_with};
