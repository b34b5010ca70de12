//! The lookup of a name with an open tail, for several types at once.
//!
//! The layer above may rest on this: `find_sym` answers for each type what the definition `found` says of the name with
//! its tail, and where there is a tail, one answer stands for all tails.
//!
//! Open tails are a promise of the library alone. The program asks for several types at once, but it follows the
//! representative of each class by its whole name, so its names have no tail.
//!
//! Costs: what decides is looked for once, along the labels of the known name. All types that go the same way share one
//! answer, and no data are looked at but those that are answered.
#![tactic(auto)]

mod answers;
mod decider;
mod lookup;
mod typed_found;

pub use lookup::find_sym;
pub use typed_found::TypedFound;
