//! The report of a configuration, or on the queries at or below a name, judged by workers within the budgets of a run; or
//! how a run ends that passes one of them.
//!
//! The layers above may rest on this: `report_of` gives what is kept of the report of a whole configuration, and
//! `report_by_judge` of that of a judge's subject, the same for every number of workers and every schedule; each error is
//! the ending of a run that has too many names, or else a query with too many states, or of one for which memory ran out.
//!
//! Costs: those of the judge, of its work and of the pool. Where DNAME records may give the class tree of a configuration
//! more names than the limit, they are counted before one is judged, and no counted name is kept. Whether they may is told
//! by the fronts of the owners and by the names below each target, which are counted once for records of one target that
//! follow each other.
#![tactic(auto)]

mod bounds;
mod counting;
mod judging;
mod states;

pub use counting::{count_redirected, either_redirects};
pub use judging::{CheckLimits, counted, report_by_judge, report_of};
pub use states::too_many_states;
