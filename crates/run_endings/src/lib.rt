//! How a run of a program ends: its status, its text for out and its line for err, and the writing of both.
//!
//! The layer above may rest on this: an ending is the one that its definition says, or that of `NoMemory`; a text is
//! written whole, or the sink's count of failures rose and a front of it was written.
#![tactic(auto)]

mod ending;
mod line;
mod output;
mod status;
mod text;

pub use ending::{Ending, more_than, refusal_line};
pub use line::EndingLine;
pub use output::{tell, tell_no_memory, write_all, write_ending};
pub use status::Status;
pub use text::OutText;
