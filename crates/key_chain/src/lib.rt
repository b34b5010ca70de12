//! Delegations' signers and the keys that they match (RFC 4034, RFC 4509, RFC 6605).
//!
//! The layer above may rest on this: `is_ds` and `is_dnskey` tell the type of data; `signer_in` and `key_in` give what data
//! of a DS and of a DNSKEY record hold, or `None` where they don't have their form; `is_zone_key`, `is_entry_point` and
//! `is_tried` tell which are looked at; `digests_of` gives a key's digests, and `matches` tells whether a signer is that of
//! a key, as the definitions say.
//!
//! Costs: data are read once in each call, and a key is hashed once by each of the three functions in each `digests_of`. To
//! match a signer with a key takes no hashing.
#![tactic(auto)]

mod digests;
mod keys;
mod records;

pub use digests::{KeyDigests, digests_of, matches, wire_of};
pub use keys::{Key, Signer, is_entry_point, is_strong, is_tried, is_zone_key};
pub use records::{is_dnskey, is_ds, is_malformed, key_in, signer_in};
