//! The law that the files of a drill always read, as the contract of a function without a body.
//!
//! The layer above may rest on this: for each number of zones that a drill may have, its files give a configuration.
#![tactic(auto)]

mod laws;

pub use laws::drill_files_read;
