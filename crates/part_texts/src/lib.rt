//! The text of the report of a part, from the texts of its entries.
//!
//! The layer above may rest on this: `part_text` gives the text of part_form's definition, in UTF-8.
//!
//! Costs: the text is written into one buffer, and each entry's text is copied once.
#![tactic(auto)]

mod writing;

pub use writing::{ClassedText, PartNumbers, part_text};
