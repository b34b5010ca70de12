//! The existing names of a zone as a tree, with what each of them owns.
//!
//! The layer above may rest on this: a tree has one node for each name that exists in its zone, empty non-terminals
//! among them, and what a node tells of its name is what the definitions say of it in the zone. So is what decides at a
//! name, and at a name with an open tail, and so are the answers of a zone cut and of the records of a name. No condition
//! is put on the zone.
//!
//! Costs: a tree sorts the runs of its zone, which are records of one owner that stand one behind the other, by their
//! owners once, and then passes over them once. It keeps each name, and of a single record of a type a reference; only data
//! of several records of one name and type are copied. What a name owns takes 16 octets where that is nothing, or one datum
//! of a type other than NS, beside data of none of the twelve types. Else it takes 48 octets more, and 32 for each type,
//! beside its several data and eight octets for each name server; all stand in a few lists of the whole tree. The name
//! servers of a name, and its several targets of one type, are put in their places one by one where it owns up to 16
//! records; no texts are made of targets whose last labels tell their order. Other data of several records are put in order
//! by texts that are made of each once. For each name it keeps two numbers of eight octets more: the place of the first
//! name from the origin down to it that decides at those below it, and a key, the first eight octets of its label right
//! below the origin. A name is found among the existing ones in as many steps as the logarithm of their number: each
//! compares two keys, and names only where the keys are one, as they are of names below one label. Owners are compared so
//! too when the runs are sorted. A name is found in a few comparisons of names where it stands right behind a node's; one
//! tells that no name stands below a node's, and mostly whether the asterisk label does. What decides at a name takes one
//! search, however many labels the name has. A closest encloser or a source of synthesis takes one, or a second one where
//! the name before in order isn't the encloser itself. A tree once more takes no memory of its own, and no time.
#![tactic(auto)]

mod answers;
mod decider;
mod enclosers;
mod first_deciders;
mod names;
mod node;
mod order;
mod owned_data;
mod owned_lists;
mod owners;
mod preceding;
mod records;
mod runs;
mod texts;
mod tree;

pub use answers::{at_name, referral};
pub use decider::{Decider, deciding, open_deciding};
pub use enclosers::{encloser, source};
pub use node::NodeId;
pub use tree::Tree;
