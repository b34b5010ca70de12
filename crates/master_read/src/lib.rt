//! The records of master files (RFC 1035 section 5), from octets that come in pieces.
//!
//! A `ZoneReader` is fed the text of a zone's file, and then those of the files that it asks for, one for each
//! `$INCLUDE`. It gives the records in order with their files and lines, or the first fault with its file and line.
//! It reads the entries of each piece and keeps their records alone; from an `$INCLUDE` on it holds the entries of
//! that file until the included files are read. Behind a fault it passes the rest over.
//!
//! The layer above may rest on this: what `finish` answers is what the definition `zone_text` says of the texts that
//! were fed, so the pieces don't count, and `end_file` asks for a file exactly where that definition does; the
//! definition is that of the texts' entries (master_lex's `text_entries`), each read in the context that those before
//! it leave; and a fault that lies in a name or in data is never `NoMemory`.
//!
//! Costs: each octet is looked at a bounded number of times, by the lexer and by the reading of its entry. The tokens of
//! a plain line (`Lexer::pass_line`) are read where they stand in the piece; those of another entry are held until it ends.
//! A record takes memory for its data and its owner, and the last owner is kept once more, and again for each file around.
//! None is taken for the comparison of a word.
#![tactic(auto)]

mod asked;
mod context;
mod directive;
mod fault;
mod file;
mod front;
mod laws;
mod reader;
mod records;
mod rr;
mod words;
mod zone_text;

pub use asked::AfterFile;
pub use fault::{TextCause, TextFault};
pub use laws::{
    asks_within_the_limit, front_is_whole, no_text_wants_memory, seen_counts_record_entries,
};
pub use reader::ZoneReader;
pub use zone_text::ZoneText;
