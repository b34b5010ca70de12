//! What stands beside a report: where each record of a configuration was read, which rows a query for their zone reaches,
//! which targets lead nowhere, and what a clean report doesn't tell: of delegations, old copies, name servers, aliases into
//! zones beside, the chain of trust.
//!
//! The layer above may rest on this: for files that read, `groot_map` writes row by row the records of each row's zone,
//! each with the file and the line from which it was read; or each row, with whether a walk of its zone's SOA query ends
//! in an answer at its server; or exactly the lines of `targets`, `delegations`, `copies`, `servers`, `aliases` or `chain`,
//! with status 1 if one counts. Every other ending has its cause in the words, in what the files give or in a count of
//! failures that rose, or memory ran out. By what is told of the files a job has at most one outcome.
//!
//! Costs: each file is read once. A row's zone is looked for among its server's zones. For rows the graph of each origin is
//! made once, and so is the view of its ends; each row is then looked for among the servers that answer, in a set without
//! an order. For targets, delegations and servers the trees of the zones and the set of servers that are followed are made
//! once; how the walks of a name end takes a lookup at each top server, or is asked once, by following them, and of a name
//! that no record names it isn't asked. For delegations and the chain of trust a zone is compared with its copies where it
//! has some. For copies rows stand by their origins in an ordered map, and the records of two zones are compared in order.
//! For aliases each owner and each target is asked for once at the top servers, and each target once at each server, by
//! walks of one type; what zones tell with the other types is looked up only where these end otherwise. For the chain of
//! trust the trees are made once, rows stand by their origins and the DS records of a zone by their owners. Beside each
//! zone with a cut, the rows with the delegated zone are compared with each other, and their keys read and hashed, once.
#![tactic(auto)]

mod aliases;
mod answered;
mod by_ends;
mod chain;
mod chain_lines;
mod columns;
mod copies;
mod delegations;
mod held;
mod known_rows;
mod laws;
mod limits;
mod lines;
mod name_key;
mod name_lists;
mod namings;
mod ns_lines;
mod placed;
mod reached;
mod reached_rows;
mod records;
mod row_zone;
mod run;
mod servers;
mod shown;
mod signed;
mod targets;
mod versions;
mod words;

pub use laws::one_outcome;
pub use reached::Reached;
pub use run::groot_map;
pub use words::{MapJob, MapView};
