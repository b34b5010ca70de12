//! The data of records, from their tokens (RFC 1035 sections 3.3, 3.4 and 5.1), and times.
//!
//! `read_rdata` reads the data of the twelve types, `read_other` keeps those of any other type as their tokens were
//! written, `read_ttl` reads a time, and `resolve` resolves the escapes of a token. Octets are passed over once, those
//! of a string, a tag, an IPv4 address or the generic form twice, those of an IPv6 address at most five times. Memory
//! is taken for what the data keep, for a string in one buffer, and for a list of the tokens where these aren't given as
//! they stand in a text.
//!
//! The layer above may rest on this: each call answers what the format says, and of several faults the first: the
//! generic form of a known type, the number of tokens, then the fields from left to right. A call that takes memory
//! may answer `NoMemory` in its place. A text stands for at most one address and for at most one time, and that
//! is the one that is read.
#![tactic(auto)]

mod fault;
mod field;
mod forms;
mod generic;
mod ipv4;
mod ipv6;
mod laws;
mod piece;
mod rdata;
mod texts;
mod times;

pub use fault::RdataFault;
pub use laws::{one_address, one_time};
pub use rdata::{read_other, read_other_in_text, read_rdata, read_rdata_in_text};
pub use texts::resolve;
pub use times::read_ttl;
