//! The plain values of hosted zones and of the queries that are followed through them, and the
//! definitions that every promise of the crates above is stated in: existence, lookup, walks, classes
//! and faults. The definitions stand in `specs/`; the laws over them are the contracts of `walk_laws`.
#![tactic(auto)]

mod class;
mod config;
mod deps;
mod fault;
mod follow;
mod found;
mod place;
mod walk;

pub use class::Class;
pub use config::{Config, Server, Zone};
pub use deps::Deps;
pub use fault::Fault;
pub use follow::{held_zone, is_among, may_follow};
pub use found::Found;
pub use place::{Cut, Place};
pub use walk::{Hop, Leaf, State, Walk, copied_hops, copied_states};
