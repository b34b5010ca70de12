//! The report of a whole, gathered from the reports of its parts, as contracts of functions without a body.
//!
//! A part shows what local queries show in the whole (`part_shows`). If some parts cover the whole, it shows what some part
//! shows (`parts_show`), and passes a limit of states if some part does (`parts_pass`). If each base name is moreover own
//! to exactly one part, as it is where bounds that rise part the names (`parting_names`), what is gathered from the entries
//! and counts of the parts is the report of the whole (`gathered_report`).
#![tactic(auto)]

mod laws;

pub use laws::{gathered_report, merged_report, part_shows, parting_names, parts_pass, parts_show};
