//! What the targets of aliases end in: at the server that holds the alias, and from the top servers.
//!
//! The layer above may rest on this: `AliasAsker::is_found` tells whether a query for an alias finds it at a server, and
//! `AliasAsker::word` what a server answers otherwise for a target than is found from the top servers, as the definitions
//! say.
//!
//! Costs: each owner and each target is asked for once at the top servers, and each target once at each server, by walks of
//! one type, of which at most 1,000. What zones tell with the other types is looked up only where these end otherwise.
#![tactic(auto)]

mod asker;
mod known;
mod words;

pub use asker::AliasAsker;
pub use words::{AliasWord, TargetWord};
