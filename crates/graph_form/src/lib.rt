//! Graphs of the walks of one query for all types at once, and reports, as plain values.
//!
//! The layer above may rest on this: the paths of a type in a graph whose branches tell the steps of its states are the
//! walks of the query with this type, number by number (`paths_are_walks`); and `trails` gives the first of them that
//! shows a fault. Which fault an end shows stands once: `walk_fault` tells it of a walk, and `put_end_faults` of the ends
//! of a graph.
//!
//! Costs: the readers take no memory; `pairs` goes over the arms of all nodes. `trails` passes over each node twice at most
//! for each walk that it gives, and keeps two marks a node.
#![tactic(auto)]

mod branches;
mod end_faults;
mod first_faults;
mod first_path;
mod first_walks;
mod graph;
mod laws;
mod node;
mod picked_faults;
mod repeated;
mod report;
mod shows;
mod verdict;

pub use branches::{TypedBranch, typed_branches};
pub use end_faults::{EndFault, is_overlong_end, walk_fault};
pub use first_faults::{OfFault, first_of_each};
pub use first_walks::trails;
pub use graph::{Graph, type_count};
pub use laws::{pairs_are_reached, paths_are_walks, walks_and_zones_show};
pub use net_model::Deps;
pub use node::{Arm, Branch, Node};
pub use picked_faults::{PicksFaults, put_end_faults};
pub use repeated::repeats;
pub use report::{Report, ReportEntry, Seen};
pub use shows::{is_authoritative, is_same_answer};
pub use verdict::first_types;
