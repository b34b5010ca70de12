//! A report checked entry by entry, by a second way: with walks alone, and without the graphs and the workers that
//! made it. Servers' names that rest are looked up as a check does (zone_lookup).
//!
//! The layer above may rest on this: `check_report` answers what `IsChecked` says of the configuration and the octets.
//! A yes means that the walks of each entry are walks of its query, and show its fault; that no fault is missing it
//! doesn't say. To each configuration and octets there is one answer beside `NoMemory` (`laws::one_answer`). Each
//! entry of a report that `check` makes is right (`laws::a_report_checks`), so that the answer to its text, which
//! `report_text` gives in UTF-8, is yes, or too many walks, or `NoMemory`.
//!
//! Nothing in an entry is taken apart but its query, its type, and the server and the name of each step of its walks. The
//! walks that come to these are followed, the faults that a walk shows are found, and the entry that would be right is
//! written and compared with the one in hand.
//!
//! Costs: the trees of all zones are built once, and the two sets of learnt addresses are found once, by as many rounds
//! as there are servers at most. The walks of each query with its type are counted once, up to 10,000, and none is made
//! for that; of a counted query its name and the type are kept. Of each entry the walks are followed that it has, and each
//! is written once, or once more for each walk that may be its first where there are two. The graph of base names is made
//! once, and only where an entry has two walks, or is right but for the question whether its query represents a class.
#![tactic(auto)]

mod answer;
mod asked;
mod check;
mod checker;
mod classes;
mod counted;
mod entries;
mod entry;
mod faults;
pub mod laws;
mod learning;
mod members;
mod right_entry;
mod steps;
mod texts;

pub use answer::{CheckFault, Checked};
pub use check::check_report;
