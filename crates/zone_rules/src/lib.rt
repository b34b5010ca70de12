//! The rules of a zone, checked on its records in file order.
//!
//! The layer above may rest on this: what `check_zone` answers is what the definition `zone_of` says of the origin and
//! the records: of identical records the first is kept, the origin is the stated one or the owner of the only SOA
//! record, records outside are dropped, and the first of the others that breaks a rule is the fault. A zone that
//! isn't refused keeps the rules of `KeepsRules` (`zones_keep_rules`).
//!
//! Costs: records are looked at three times, once more where no origin is given, and their keys, of 16 octets each, nine
//! times. The keys fall into buckets, four for a record, by one half of numbers that identical records share, and those
//! that share a bucket there into others, sixteen for a key, by the other half; and again by numbers of their owners. Only
//! a record that shares both its buckets, and at the rules each DNAME record, is put into an ordered set and looked for
//! there; such records, and SOA and NS records, are looked at once more. So a usual zone is passed over in a time that
//! grows with its octets, and any zone, also one made so that all records share their buckets, takes at most five searches
//! in sets for each record. No record is copied.
#![tactic(auto)]

mod apex;
mod buckets;
mod check;
mod fault;
mod fingerprint;
mod identical;
mod laws;
mod rules;
mod types;

pub use check::check_zone;
pub use fault::{RuleCause, RuleFault};
pub use laws::zones_keep_rules;
