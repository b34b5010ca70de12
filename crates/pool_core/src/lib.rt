//! The pool machine: tickets that workers push on deques, take from them, claim and file, as a pure
//! machine without threads. A layer above may rest on this: after every list of events each issued
//! ticket has one spot, is claimed at most once and filed at most once, after its claim; and what the
//! workers claimed, filed and stopped is a legal history of the verdict book.
//!
//! No program runs `Core`: it says what the pool of threads is to do, and verdict_book takes the types of its history.
#![tactic(auto)]

mod event;
mod fault;
mod history;
pub mod laws;
mod machine;
mod queue;
mod spot;

pub use event::{Event, StopCause};
pub use fault::StepFault;
pub use history::HistoryEntry;
pub use machine::Core;
pub use spot::Spot;
