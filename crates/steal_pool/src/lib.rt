//! Workers that judge the items of a work in threads. Each has a deque of tickets of its own and steals from
//! those of the others; claims and filings go into one book under a lock. One worker is the caller's own thread,
//! with neither deque nor lock. A layer above may rest on this: for every number of workers and every schedule a
//! run that returns gives the whole tree of the work, each item once, in order, with its verdict. Nothing here
//! knows what items are.
#![tactic(auto)]

mod count;
mod finish;
mod gather;
pub mod laws;
mod locked;
mod row;
mod rule;
mod run;
mod slot;
mod slots;
mod taking;
mod turn;

pub use count::PoolCount;
pub use locked::{Capped, LockedBook};
pub use row::{OtherRow, OwnRow, Stolen};
pub use rule::SeatView;
pub use run::{run_tree, run_tree_counted};
pub use slot::{Ended, Slot};
pub use verdict_book::PoolFault;
