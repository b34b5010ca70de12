//! What is taken of a text.

use crate::entry::Entry;

/// What a lexer has to give.
#[derive(Debug, Drop)]
pub enum Taken {
    /// The next entry.
    Entry(Entry),
    /// Nothing, until more is fed.
    More,
    /// Nothing any more.
    End,
}
