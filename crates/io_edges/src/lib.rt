//! The outside as the program sees it: files that are read, sinks that are written to, a gate at which a worker may wait,
//! and the words of the command line. A layer above is generic over the three traits and rests on their clauses alone. A
//! source of files tells name by name what it holds, and what it told it tells from then on: a reading gives octets that
//! are told after it. Where a sink tells its bytes a writing appends exactly the front that it says. A failure is
//! answered only where the count of failures of that very file or sink rose. The forms in memory tell all from the
//! start, and fail exactly when they are told to. Files of a disk tell a name from its first reading on; the sink over a
//! writer tells nothing of what it took, and passed on what the writer holds.
//!
//! Costs: a file of a disk is read once, and its octets stay in memory until the source is told to let go of them, which a
//! reader does when it is done; what was told stays told.
#![tactic(auto)]

mod calls;
mod counts;
mod disk_files;
mod failed;
mod files;
mod fill;
mod gate;
mod laws;
mod memory_files;
mod memory_sink;
mod named_files;
mod out_sink;
mod sink;
mod words;

pub use disk_files::DiskFiles;
pub use failed::Failed;
pub use files::Files;
pub use gate::{FreeGate, Gate};
pub use laws::memory_tells_all;
pub use memory_files::MemoryFiles;
pub use memory_sink::MemorySink;
pub use out_sink::OutSink;
pub use sink::Sink;
pub use words::{borrowed_words, command_words};
