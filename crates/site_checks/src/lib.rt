//! Checks that an operator brings: what a class of queries ends in, shown to a check of his own.
//!
//! The layer above may rest on this: a view has all ends of its query's walks (`view`); a check means its name, what it
//! holds, and what it holds once it was shown one more view (`SiteCheck`); and it does what it means. `all_findings` asks
//! boxed checks for their names and their findings.
//!
//! Costs: `view` passes over each node of the graph once for all types that go the same way at each node, and keeps a mark
//! a node; it compares each end with those that were found at its server. With the other types the ends are copied. `AOnly`
//! goes over a view's ends twice at most. `Answering` compares the line of each answering end with those that it holds.
#![tactic(auto)]

mod a_only;
mod alike;
mod answering;
mod check;
mod end_set;
mod ends;
mod laws;
mod line;
mod shown;
mod views;

pub use a_only::AOnly;
pub use answering::Answering;
pub use check::SiteCheck;
pub use ends::view;
pub use laws::views_are_one;
pub use line::{Line, copied_lines};
pub use shown::{SiteFindings, all_findings};
pub use views::{TypedEnd, View};
