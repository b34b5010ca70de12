//! Names in order, with each the one a label above it: where a name stands, and which stand one label below another.
//!
//! The layer above may rest on this: a table has the names that it is made of, in their order. A name is found there, or it
//! isn't among them; the last name that doesn't stand behind another is found too. The names one label below another are
//! told in their order, and one of them is found by its last label. No condition is put on the names but that they are in
//! order, the first above the others, each with the name one label above it.
//!
//! Costs: a table keeps each name and one number of eight octets, a key: the first eight octets of the label that the name
//! has right below the first. A name is found in as many steps as the logarithm of their number: each compares two keys,
//! and names only where the keys are one, as they are of names below one label. A name that stands right behind a place is
//! found in a few comparisons of names. A label below a name is looked for in steps that double: one comparison tells that
//! no name stands there, and mostly whether the asterisk label does. The next name one label below another is found in as
//! many comparisons as twice the logarithm of how many names stand below the one before it: in one where none does.
#![tactic(auto)]

mod below;
mod keys;
mod places;
mod table;

pub use keys::key_if_below;
pub use table::NameTable;
