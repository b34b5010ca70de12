//! The history of the verdict book.

use crate::event::StopCause;

/// An entry in the history of the verdict book, which knows no worker.
#[derive(Clone, Copy, Debug, PartialEq, Eq)]
pub enum HistoryEntry {
    /// The ticket was claimed.
    Claim { ticket: u32 },
    /// The ticket was filed, and the next `children` numbers were issued.
    File { ticket: u32, children: u32 },
    /// The book was stopped.
    Stop { cause: StopCause },
}
