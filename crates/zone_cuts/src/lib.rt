//! The zone cuts of a zone that a query meets, and the NS records there and at the origin.
//!
//! The layer above may rest on this: `is_cut` and `has_servers` tell of a name whether the zone's lookup of it is a
//! referral at that very name, and whether it is such a one or the origin; `is_glued` tells whether the zone refers a name
//! and holds an address of it; and `NsRecords` gives the NS record of an owner that names a name server, as the definitions
//! say. The cuts among the names of a zone's tree are its cuts, in the order of names (`cuts_among` of proofs/OrderedCuts).
//!
//! Costs: what decides at a name is looked for once in each call. `NsRecords` keeps both names of each NS record in an
//! ordered map.
#![tactic(auto)]

mod cut_names;
mod ns_records;

pub use cut_names::{has_servers, is_cut, is_glued};
pub use ns_records::NsRecords;
