//! Classes of query names: the class of a name, the representative of a class, and the class tree, over the graph of base
//! names and DNAME redirections.
//!
//! The layer above may rest on this: each name is in the one class that `class_of` answers; a class that isn't empty
//! has a representative, which is in it and no longer than any of its names; of a named name all prefixes are named.
//! `class_tree` lists the names of the class tree at or below a name in order, each with the representative of the class
//! below it; and `TreeName` is such a name as an item of a work, whose children are those of the tree. What holds of all
//! names at or below an item holds of all at or below its children, which keep the mark that says so.
//!
//! Costs: a name is walked label by label from the root. A live name keeps its live set, so that the names below it are
//! one step away; the whole tree takes two steps for each of its names, since they are counted before a row is made, and
//! the names that wait are those beside the way down. A representative tries labels in order until one is free, so at
//! most one more than there are named names one label below.
#![tactic(auto)]

mod below;
mod class;
mod fault;
mod free;
pub mod laws;
mod level;
mod live_name;
mod on_ground;
mod tree;
mod tree_name;
mod trial;

pub use class::{class_of, representative};
pub use fault::TreeFault;
pub use level::children;
pub use live_name::LiveName;
pub use on_ground::OnGround;
pub use tree::{ClassRow, class_tree};
pub use tree_name::TreeName;
