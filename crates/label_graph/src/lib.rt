//! The label graph of base names and DNAME redirections (RFC 6672 section 2.2): the live set of a name, which has the
//! base names to which the name reads on, found label by label. A name is named where its live set isn't empty.
//!
//! The layer above may rest on this: `build` makes the graph of names that others gather, by `put_names` and the like.
//! `start` and `advance` give the live set of a name in a graph, `has_next` tells whether a label makes a named name below
//! a name with that live set, and `next_names` gives all labels that do, with the live sets of the names that they make.
//!
//! Costs: `build` sorts the names that it is given: it compares each with the next alone where they stand in order, and
//! merges runs that do. The names move into the graph's table as they are, which keeps a number of eight octets for each.
//! Then the target of each DNAME record is followed label by label from the root, and what is found is put down for its
//! owner; since that may let other targets lead further, this is done again until nothing new is found, mostly once more.
//! Lists behind the last owner of a DNAME record take no memory. A live set has at most one place where no DNAME record
//! plays a part, and one of one place takes no memory of its own; a label more costs a binary search among the names
//! behind each place, and no more where none of the names found is redirected. Else each place that is found is compared
//! with those found before it, so a live set of n places costs n times n. The labels below one place are listed in order
//! without a search for a label or a sort, each with its own live set, by a list of their places that is made first and let
//! go of then; those below several are sorted, and looked for.
#![tactic(auto)]

mod base;
mod below;
mod closing;
mod following;
mod fronts;
mod graph;
pub mod laws;
mod live;
mod next;
mod pair;
mod rows;
mod sorting;

pub use base::{put_names, put_pairs};
pub use fronts::put_new_fronts;
pub use graph::LabelGraph;
pub use live::LiveSet;
pub use next::NextName;
pub use pair::Pair;
