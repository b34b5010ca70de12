//! The entries of a master file (RFC 1035 section 5.1), from octets that come in pieces.
//!
//! A `Lexer` is fed pieces, and gives the entries in order with their lines, or the first fault with
//! its line. It looks at each octet a bounded number of times, and keeps the entries that weren't taken and the
//! entry under way, and no text. `pass_line` passes over a plain line at once, and gives its tokens as they stand in the
//! text, so that nothing is copied: an entry begins with such a line, and it has no backslash, no parenthesis and no quotes
//! that it doesn't close, and stands whole among the octets.
//!
//! The layer above may rest on this: what a lexer gives of a text are the entries and the fault that the
//! definitions `text_entries` and `text_fault` say of it, whichever pieces it came in; a piece that is
//! refused leaves nothing; and a fault is given as soon as no later octet can change which one counts.
#![tactic(auto)]

mod entry;
mod fault;
mod last;
mod laws;
mod lexer;
mod line;
mod octet;
mod plain;
mod position;
mod reading;
mod scanner;
mod taken;
mod text_token;
mod undo;

pub use entry::{Entry, Token};
pub use fault::{LexFault, LexKind, TakeFault};
pub use laws::{pieces_spell_the_text, what_is_whole_stays};
pub use lexer::Lexer;
pub use line::PlainLine;
pub use reading::{Reading, read_entries};
pub use taken::Taken;
pub use text_token::{TextEntry, TextToken, tokens_in_text};
