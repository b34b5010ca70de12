//! The runs of groot-parts, which checks a part of a network, and puts the reports of its parts together.
//!
//! The layer above may rest on this: if each file that `merge` names holds what is written of a part of a configuration,
//! and the reports stand in order, out gets exactly the text of the report of the whole configuration, as `groot check`
//! writes it; and that is what `part` writes of each part. Every other ending has its cause in the words, in what the files
//! give or in a count of failures that rose, or memory ran out.
//!
//! Costs: `part` reads the configuration row by row, and keeps of each zone what the part holds before it reads the next:
//! so it keeps what is left and the zone that is read, beside the octets of the files. It judges what is left. `merge`
//! reads each file once, whole, and goes through its value once; of it the entries are kept. The entries of all files are
//! sorted once.
#![tactic(auto)]

mod fault;
mod merge;
mod part;
mod reading;
mod run;
mod words;

pub use run::groot_parts;
