//! The graph of the walks of one query for all types at once, and the part of it that is left where some name servers
//! may not be followed.
//!
//! The layer above may rest on this: a graph that `build` makes is one of the query's walks while every configured server
//! is followed, with one node for each state and exactly the pairs of state and type that the query reaches; `restrict`
//! gives the graph of the walks that follow fewer servers. Where there are more pairs than are allowed, `build` says so.
//!
//! Costs: a state is looked up once, for all types that come to it: first those that all types reach are visited, and then
//! those that all but CNAME reach. Only the name of an alias is looked up in both turns, so that nothing of it is held
//! between them. A few states are looked through one by one, of more each is found by its hash. A state is made once, and
//! goes from the key by which it is found into the graph. No zone is copied, and no list of walks is made.
//!
//! `restrict` looks nothing up and hashes nothing. It passes over the nodes of the given graph until none gains a type,
//! and then copies each node's state and what is left of its arms. Nodes are numbered as they are found, so that mostly
//! one pass gives all types and a second finds none; there are no more passes than the longest walk has states. Whether a
//! name server may be followed is asked, in each pass, where a node would gain a type, and once more when its branch is
//! copied.
#![tactic(auto)]

mod building;
mod fault;
mod following;
mod forks;
mod key;
mod key_set;
mod limited;
mod limits;
mod reached;
mod restriction;
mod step;
mod turns;

pub use building::build;
pub use fault::GraphFault;
pub use restriction::restrict;
