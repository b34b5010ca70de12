//! Reports of parts of a configuration, as texts of JSON (RFC 8259), and the one report that they make.
//!
//! The layers above may rest on this: `read_part` gives what the definition `part_in` says of a file's octets; and
//! `merged_text` gives the text of the reports merged, of each fault the entry with the least class, or says why they
//! aren't those of all parts, in order.
//!
//! Costs: a file's octets are read once, and of its value the entries are kept. The entries of all reports are sorted by
//! fault and class, and passed over once.
#![tactic(auto)]

mod entries;
mod fault;
pub mod laws;
mod merging;
mod places;
mod stated;
mod text;

pub use fault::MergeFault;
pub use merging::{MergedText, merged_text};
pub use stated::{StatedPart, read_part};
