//! What is compared of two copies of a zone, and how they stand to each other.
//!
//! The layer above may rest on this: `version_of` gives what is compared of a zone, and `copy_word` how a copy stands to
//! the first one, as the definitions say. Zones that `have_same_records` are compared by the same.
//!
//! Costs: a version takes a text for each record, and sorts these texts once. Two versions are compared in one pass, up to
//! the first difference. Whether two zones have the same records is told record by record, without a text.
#![tactic(auto)]

mod compared;
mod same;
mod version;

pub use same::have_same_records;
pub use version::{CopyWord, Version, copy_word, serial_in, version_of};
