//! Metadata of a configuration: the servers at which a query begins, and for each zone file the server that holds
//! it, from a text of JSON (RFC 8259).
//!
//! The layer above may rest on this: what `read_metadata` answers is what the definition `metadata_of` says of the
//! octets, step by step in the order of the format, so the first fault decides, with the number of its row.
//! `read_metadata_within` is told how many rows there may be. `list_at` and `text_at` give what stands at a key of an
//! object, of that kind alone.
//!
//! Costs: rows are read one after another, each twice, and one at a time is held as a value; what doesn't read so, or has
//! a fault, is read once more as one value, which is held until the fault is found. Names of top servers are made
//! single, and looked up among the servers of rows, by sets in the order of names, so a list of any length takes its
//! length times a logarithm. A list of more rows than there may be is refused before a row of that value is looked at.
#![tactic(auto)]

mod fault;
mod hosted;
mod members;
mod meta;
mod names;
mod read;
mod row_by_row;
mod rows;
mod tops;

pub use fault::MetaFault;
pub use members::{list_at, text_at};
pub use meta::{Meta, MetaRow};
pub use read::{USUAL_ROWS, read_metadata, read_metadata_within};
