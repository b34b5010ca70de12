//! The laws of parts, as contracts of functions without a body.
//!
//! A configuration, the whole, is restricted to some held names: servers stay, and zones and records with other names go. A
//! name is local if each of its prefixes that is a base name of the whole is held. If the held names meet the conditions of
//! a part, the layers above may rest on these: in what is left a local name has the walks (`part_walks`), the learnt
//! addresses (`part_addresses`), the class and the representative (`part_classes`) that it has in the whole, shows the same
//! faults (`part_faults`), and reaches as many states (`part_states`). The conditions can be checked record by record
//! (`part_conditions`).
#![tactic(auto)]

mod laws;

pub use laws::{
    part_addresses, part_classes, part_conditions, part_faults, part_states, part_walks,
};
