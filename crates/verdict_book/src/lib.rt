//! The verdict book: each item of a work has a ticket, which is claimed once and filed once with a
//! verdict, and filing it issues tickets for its children. A layer above may rest on this: each value
//! of a book has a legal history that replays to it, and a book in which nothing is unfiled gives the
//! reached items of its work, each once, in order, with their verdicts. Nothing here knows what items
//! are, nor of threads.
#![tactic(auto)]

mod book;
mod claim;
mod filed;
mod filing;
pub mod laws;
mod order;
mod row;
mod sharing;
mod walk;
mod work;

pub use book::Book;
pub use claim::{Claim, ClaimFault, Kept};
pub use filed::Filed;
pub use filing::{Back, FileFault, Issued};
pub use walk::{PoolFault, walk_tree};
pub use work::{JudgeShare, Judged, Work};
