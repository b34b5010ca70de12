//! The report of a part of a configuration: what is left of the configuration is judged, and what is the part's own is
//! told.
//!
//! The layer above may rest on this: `write_part` ends a run with the text of the part's report, of which `IsReportOf` says
//! what it tells of the whole configuration; or it says which budget is passed.
//!
//! Costs: those of a check of what is left, and of its class tree, which is listed once more. Each entry is kept as its
//! text. The class of each entry's query is looked for in the judge's graph of base names.
#![tactic(auto)]

mod classed;
mod entry;
mod judged;
mod named;
mod written;

pub use judged::write_part;
