//! The file of a part's names: one line for each name, with a word that says what the name is to the part.
//!
//! The layer above may rest on this: `read_part_names` gives what the definition `names_in` says of the file's octets, or
//! the number of the first line that says nothing.
//!
//! Costs: each octet is looked at three times. No more is kept than the names.
#![tactic(auto)]

mod fault;
mod lines;
mod names;
mod reading;

pub use fault::NamesFault;
pub use names::PartNames;
pub use reading::read_part_names;
