//! Whether names make a part of a configuration, and what is left of it where they are held.
//!
//! The layer above may rest on this: who takes the zones of a configuration one after another has what is left of the whole
//! where the names of a part are held, if they make a part and all own names of the whole are held; else a condition that
//! doesn't hold, with a name of which it doesn't. Zones with origins that a part skips may be taken without records
//! (`zones_may_be_skipped`).
//!
//! Costs: records that are left are moved, and none is copied. An owner is looked for once for all records of it that
//! follow each other, and most owners that aren't held are told by one look at a mark. Of the names that aren't held those
//! are kept where the zones leave the held ones, one of those that stand beside each other.
#![tactic(auto)]

mod fault;
mod lasting;
mod laws;
mod left;
mod limits;
mod marks;
mod outside;
mod owners;
mod part;
mod sets;
mod skipped;
mod starts;
mod taker;
mod targets;
mod zones;

pub use fault::{PartFault, PartRule};
pub use laws::zones_may_be_skipped;
pub use taker::PartTaker;
