//! The names that a part holds, in a set, and how many names and classes of a class tree are the part's own.
//!
//! The layers above may rest on this: a name of a class tree is counted exactly where the longest prefix of it that the
//! part holds is one of the part's own names.
//!
//! Costs: each held name and each prefix of it is looked for once and kept once. A name of the tree is looked for in the
//! set, and, where it isn't held, its prefixes from the longest on until one is.
#![tactic(auto)]

mod counts;
mod held;

pub use counts::{OwnCounts, own_counts};
pub use held::HeldNames;
