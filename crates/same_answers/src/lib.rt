//! Two configurations compared: whether some query that both bound has other outcomes in the one than in the other.
//!
//! The layer above may rest on this: each query of at most 255 octets that both configurations bound has the same
//! outcomes in both, with each type, exactly where so has the representative of each class that they bound, under the
//! ground of both (`laws::comparing`); so what `Pairing` finds of representatives holds of all queries. `Pairing` is
//! a work whose items are the names of the class tree of that ground, whose children are those of the tree and whose
//! verdicts are the one that each name has.
//!
//! Costs: `prepare` makes what query_verdicts prepares, for both configurations, and one graph of the base names of
//! both. Where the walks of a class's representative are seen to go straight in both, their ends are compared, type by
//! type, and no memory is taken for them. Else judging the class makes the graph of these walks in each, for all types
//! at once; the ends with a type are compared by an ordered set of each side's, in which they aren't copied. No walk is
//! listed. A verdict takes no memory of its own.
#![tactic(auto)]

mod ends;
mod graph_found;
pub mod laws;
mod naming;
mod outcomes;
mod pairing;
mod sameness;
mod search;
mod straight;
mod verdict;

pub use naming::{JointGround, PairNaming};
pub use pairing::Pairing;
pub use query_verdicts::JudgeFault;
pub use sameness::Sameness;
pub use verdict::PairEnd;
