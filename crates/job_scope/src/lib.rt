//! The scope of a name: which faults some query at or below it shows, also where no record names it.
//!
//! The layer above may rest on this: some query of at most 255 octets at or below a name shows a fault if and only if
//! the representative of some class of the name's scope does (`laws::scope_law`), so the report that `ScopeJudge` makes
//! of the representatives is one of all these queries; and a `ScopeJudge` is a work whose items are the names of the
//! scope. The names of a scope are told apart by the configuration's own base names and all prefixes of the scope's
//! name. The class at the place of differing answers stays that of the configuration's own base names, and so does the
//! representative of an overlong rewrite.
//!
//! The judging is class_judge's, whose `Judge` a `ScopeJudge` lends by `as_judge` to whoever judges subjects of both kinds,
//! as groot_run does; a `ScopeJudge` is a work itself, with a `report` of its own, for other programs. The judges of many
//! scopes of one configuration share a `ScopeGraphs`, one after the other.
//!
//! Costs: `prepare` makes what query_verdicts prepares of the whole configuration, and two graphs of base names, once. A
//! `ScopeGraphs` makes one, and another for each name that exists in no zone; each server is asked whether it does.
//! What is judged is the names of the scope alone. What a verdict and a report cost is said in query_verdicts.
#![tactic(auto)]

pub mod laws;
mod scope_graphs;
mod scope_judge;

pub use class_judge::{
    ClassVerdict as ScopeEnd, FiledVerdict, JudgeFault, NameVerdict as ScopeVerdict,
};
pub use scope_graphs::ScopeGraphs;
pub use scope_judge::ScopeJudge;
