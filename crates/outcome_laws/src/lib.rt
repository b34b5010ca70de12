//! The laws that outcomes exist, as contracts of functions without a body.
//!
//! The layers above may rest on these: each configuration has a report (`report_exists`), which is what the three parts of
//! the headline say (`report_parts`); and what each command gives of what it read there is
//! (`outcomes_exist`). By `one_report` and `one_outcome` of groot_run it is one.
#![tactic(auto)]

mod laws;

pub use laws::{outcomes_exist, report_exists, report_parts};
