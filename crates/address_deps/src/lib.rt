//! The least and the greatest set of learnt addresses, by what the graph of each server's name tells: that an address of it
//! can or can't be learnt whichever servers are followed, or the paths by which walks of it may come to one.
//!
//! The layer above may rest on this: `learnt_by_graph` gives what the graph of a name's walks tells of its address, and by
//! that of each server's name `dependencies_among` gives the two sets of the definitions, which take as many rounds as
//! there are servers.
//!
//! Costs: what a graph tells is kept without the graph, and holds for each branch of it two turns of a few octets at most.
//! A server is added to the least set, or taken from the greatest, as soon as it is found. A server is looked at once, and
//! again only when a name server was added or taken away for whose address its paths wait. Then its paths, if it has some,
//! are passed over until no node more leads to an address, from the last node to the first.
#![tactic(auto)]

mod addresses;
mod dependents;
mod direction;
mod giving;
mod paths;
mod server_set;
mod sets;

pub use addresses::{AddressLearnt, AddressPaths, Turn};
pub use paths::learnt_by_graph;
pub use sets::{dependencies, dependencies_among};
