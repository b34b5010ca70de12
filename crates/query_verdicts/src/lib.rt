//! The verdicts of queries: the graphs of their walks and the faults that these show, of a query by itself and of the
//! names of a class tree, and the report of a subject from these verdicts.
//!
//! The layer above may rest on this: `QueryGraphs` tells of each query the graph of its walks while the servers of the
//! least set are followed, or without one what they end in where they go straight, and the faults that it shows; and
//! some query at or below a subject's name shows a fault exactly where the representative of some class of the
//! subject's tree does (`laws::carrying`), so the report that `NameJudge` makes of representatives is one of all
//! queries. A subject is a configuration with its limits, the names that are told apart in it, and the name at or below
//! which queries are looked at.
//!
//! The way of a fault, from the graph of a query's walks to its entry, goes through five files: `verdicts` finds the faults
//! in the graph, `verdict` has the verdicts of a class and of a name and how they are filed, `name_judge` judges the two
//! classes of a name, `first_classes` keeps of each fault the first class that shows it, and `report` makes the entry.
//!
//! Costs: `prepare` makes the trees of all zones and, where it isn't seen at once that walks of a server's name end at
//! the top servers, a graph of that name, once; and a table that tells of each zone cut what its referrals show, which
//! all graphs share. A name of the tree keeps its own live set, found once, one label on from that of the name above it:
//! none is walked to from the root to be judged, and judging copies neither the name nor its live set. Judging a name
//! makes a graph for each of its classes, which is dropped when its faults are found: a verdict keeps no walk, and takes
//! no memory of its own where no class of the name shows a fault, nor where it is seen to be the same as another. No
//! graph is made where the representative's walks are seen to go straight to their ends. Where each server refers the
//! name to servers elsewhere, holds no zone for it, or answers it by data of its own and has no wildcard below it, the
//! class below is judged by the same search, and its representative isn't made. Where each refers it elsewhere or holds
//! no zone for it, and no zone's origin stands below it, no name below it is searched for at all. A graph is restricted
//! to the least set of learnt addresses only where some configured server is neither in that set nor a top server. The
//! class of a query under the configuration's own names is asked only where a graph was made and the subject tells other
//! names apart. The report takes room for each fault, and not for each class that shows it. Where one top server is asked
//! and each state of the first class's representative leads to one thing alone, with the fault's type, the entry follows
//! that walk, step by step. Else it makes one graph more for each class that is the first to show some fault, and finds the
//! first walks of all these faults in it.
//! Where the zones have many more names than redirected ones, `prepare` makes one graph more for each redirected name: that
//! of a name right below it. Where the servers to which its walks come know nothing of names with its last label, all
//! names below the redirected one, as long as they aren't too long, show what it shows, and no graph of them is made.
#![tactic(auto)]

mod alike;
mod alike_rows;
mod equal;
mod first_classes;
mod graphs;
mod kept;
mod known_classes;
pub mod laws;
mod learnt;
mod name_judge;
mod only_walk;
mod open_graph;
mod own_class;
mod passed;
mod queries;
mod report;
mod servers;
mod subject;
mod verdict;
mod verdicts;

pub use graphs::QueryGraphs;
pub use kept::{Kept, KeptReport};
pub use name_judge::NameJudge;
pub use own_class::OwnClass;
pub use queries::MOST_STATES;
pub use report::JudgeFault;
pub use subject::{OnSubject, SubjectGround};
pub use verdict::{ClassVerdict, FiledVerdict, NameVerdict};
