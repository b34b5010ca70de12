//! Files to try the program on, made from a number.
//!
//! The layer above may rest on this: the files that `make` gives are those of the definition `drill`, held under their
//! names. `DrillFiles` are the same files, at which no call fails.
//!
//! Costs: each file's text is made once and copied once.
#![tactic(auto)]

mod files;
mod source;
mod texts;

pub use files::make;
pub use source::DrillFiles;
