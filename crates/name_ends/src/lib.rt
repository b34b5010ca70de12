//! How the walks of a name end that a query for its address begins.
//!
//! The layer above may rest on this: `Asker::ends` gives for the walks of type A and for those of type AAAA of each kind of
//! end whether some walk ends so, or that there are more walks than are followed, as the definitions say.
//!
//! Costs: a name takes a lookup at each top server where these tell how its walks end, and there are at most 8. Else it is
//! asked once, by following its walks, of which at most 1,000 of each type.
#![tactic(auto)]

mod asker;
mod at_once;
mod ends;
mod kinds;

pub use asker::{Asker, MOST_WALKS};
pub use ends::{NameEnds, TypeEnds};
pub use kinds::EndKind;
