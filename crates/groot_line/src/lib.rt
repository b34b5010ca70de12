//! The words of the command line.
//!
//! The layer above may rest on this: what `read_words_of` answers is what the definition `job_asked` says of the words: the
//! job that they ask of the program, and `Usage` for all words that the format doesn't have. `groot` and `groot-large` read
//! the same words, but for the most and the usual number of names, for how many digits a number has, and for `scopes`,
//! which `groot-large` alone has.
//!
//! Costs: `clap` is told the command and its options in each call, and goes over the words once; what a job keeps of
//! them is copied.
#![tactic(auto)]

mod arguments;
mod command;
mod fault;
mod job;
mod line_option;
mod number;
mod operands;
mod program;
mod usage;

pub use fault::LineFault;
pub use job::{Job, Task, read_words, read_words_of};
pub use line_option::{USUAL_REWRITES, USUAL_WORKERS};
pub use program::Program;
pub use usage::usage_line;
