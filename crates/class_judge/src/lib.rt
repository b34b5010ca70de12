//! The judge of class trees: which faults each class shows, of a whole configuration or at or below a name.
//!
//! The layer above may rest on this: some query shows a fault exactly where the representative of some class does
//! (`laws::carrying`), so a report of representatives is one of all queries; and `Judge` is a work whose items are the
//! names of the class tree of a subject at or below the subject's name, whose children are those of the tree and whose
//! verdicts are the one that each name has. The subject of `prepare` is the whole configuration.
//!
//! Costs: `prepare` makes what query_verdicts prepares, and the graph of base names, once. What a verdict and a report
//! cost is said there.
#![tactic(auto)]

mod judge;
pub mod laws;
mod naming;

pub use judge::Judge;
pub use naming::{Naming, OfNaming};
pub use query_verdicts::{ClassVerdict, FiledVerdict, JudgeFault, NameVerdict};
