//! The top call: what the program does with its words, its files and its two outputs, and the clauses that say so. For
//! files that read, the text for out is exactly the report of the configuration that their octets give, for every
//! number of workers and every schedule; every other ending has its cause in the words, in what the files give or in a
//! count of failures that rose, or memory ran out.
#![tactic(auto)]

mod ask;
mod check;
mod classes;
mod counts;
mod drill;
mod ending;
mod held_view;
mod job;
mod kept_text;
mod laws;
mod load;
mod name_list;
mod recheck;
mod run;
mod same;
mod scope;
mod scopes;
mod shown;
mod site;

pub use groot_line::Program;
pub use laws::{drills_read, one_outcome, one_report, query_classes};
pub use run::{groot, groot_with_sites, run_program, run_words};
pub use run_endings::{Ending, EndingLine, Status};
