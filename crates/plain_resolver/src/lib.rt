//! All walks of one query, and the sets of learnt addresses, by following each walk by itself.
//!
//! The layer above may rest on this: `resolve` gives all walks of the definitions, in their order, or tells that there
//! are more than the limit; `learnt` gives what the definitions' rounds give. Each builds the trees of the configuration's
//! zones; `resolve_at` and `learnt_at` are given them, where several queries are asked. `count_walks` and `ends_at` tell
//! how many walks there are and how they end, and `zone_ends` what they ask last, where the top servers or one server is
//! asked; none of these makes a walk. `resolve_tested` gives the walks whose states pass tests.
//!
//! Costs: each walk of a query is followed by itself. To learn the address of a server's name no walk is followed where it
//! is seen at once that the name rests: the name is looked up at the top servers that hold a zone for it, of those that
//! hold the same zones at one. In the next round a name is asked for again only where a server is newly followed at which
//! one of its walks ended, where more than 16 walks ended so, or where the set from which the round starts has shrunk.
#![tactic(auto)]

mod begun;
mod fault;
mod first_state;
mod known_names;
mod resolver;
mod rounds;
mod steps;
mod tested;
mod visitor;
mod walk_end;
mod walks;

pub use fault::{LearntFault, ResolveFault};
pub use rounds::{MOST_WALKS_FOLLOWED, learnt, learnt_at};
pub use tested::{StateTest, resolve_tested};
pub use walk_end::{WalkEnd, ZoneEnd};
pub use walks::{count_walks, ends_at, resolve, resolve_at, zone_ends};
