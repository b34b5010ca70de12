//! The base names of configurations: the root, and all prefixes of the origins and owners, with the pairs of the DNAME
//! records.
//!
//! The layer above may rest on this: `base_graph` makes the label graph of a configuration's base names, and
//! `joint_base_graph` that of several configurations and of some names more. Both answer `NoMemory` where there is no room.
//!
//! Costs: the names of each zone come from its tree, where they stand in order, zone after zone in the order of their
//! origins: so the sort of all names finds them nearly in order. Each name is copied once. Of equal zones, which share a
//! tree, one counts.
#![tactic(auto)]

mod base;

pub use base::{base_graph, joint_base_graph};
