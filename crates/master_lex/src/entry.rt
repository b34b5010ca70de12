//! Tokens and entries.

use dns_data::{List, Octets};

/// A token of an entry, with its escapes as they are written (RFC 1035 section 5.1).
#[derive(Debug, Drop)]
pub struct Token {
    /// The octets as they are written, without the quotes around them.
    pub raw: Octets,
    /// Whether the token stands in quotes.
    pub quoted: bool,
}

/// An entry of a master file (RFC 1035 section 5.1).
#[derive(Debug, Drop)]
pub struct Entry {
    /// The line of the first token, counted from 1.
    pub line: u32,
    /// Whether the line on which the entry begins has a space or a tab in front.
    pub blank_start: bool,
    /// The tokens in order, at least one.
    pub tokens: List<Token>,
}
