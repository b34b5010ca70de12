//! The octets of data that are kept as their tokens were written: the numbers of their types, and what DS, CDS, DNSKEY and
//! CDNSKEY records and those in the generic form hold.
//!
//! The layer above may rest on this: each call answers what the definition says, however the digits are cut into tokens.
//!
//! Costs: a word is compared with those of a table one after another. Digits are put together once and decoded once.
#![tactic(auto)]

mod numbers;
mod octets;

pub use numbers::kept_number;
pub use octets::kept_octets;
