//! The texts of JSON that go to out (RFC 8259).
//!
//! The layers above may rest on these: `report_text`, `entry_text`, `walk_text`, `ask_text`, `sites_text` and
//! `scope_text` give the octets that the definitions of the same names say, and those of a report are UTF-8; the texts
//! are read as the values that they are of (`laws::texts_read_back`); and two texts of entries, or of walks, are equal
//! exactly where the values are (`laws::texts_tell_values`).
//!
//! Costs: a text is written into one buffer as its values are gone through, once, and no tree of values is made. The
//! text of a name or of data takes memory of its own while it is copied. A line is gone through once more by serde_json,
//! which gives no text that isn't UTF-8. A report whose entries' texts are there and whose entries aren't is written in
//! pieces: `entry_piece` gives that of an entry, in no more memory than it has octets, and `report_pieces` and
//! `scope_pieces` put the rest around them and copy none.
#![tactic(auto)]

mod ask;
mod fault;
pub mod laws;
mod object;
mod pieces;
mod report;
mod sites;
mod walk;
mod written;

pub use ask::ask_text;
pub use pieces::{ReportNumbers, entry_piece, report_pieces, scope_pieces};
pub use report::{entry_text, report_text};
pub use sites::{scope_text, sites_text};
pub use walk::walk_text;
