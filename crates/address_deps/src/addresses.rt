//! What tells whether addresses of servers' names are learnt.

use dns_data::{List, Name};

/// What tells whether an address of a server's name can be learnt while some servers are followed: that it can or can't,
/// whichever these are; or the paths by which walks of the name may come to one.
#[derive(Debug, Drop)]
pub enum AddressLearnt<'a> {
    Known(bool),
    ByPaths(AddressPaths<'a>),
}

/// What a graph of a name's walks tells of its address: the numbers of the nodes in which the walks begin, and for each
/// node the turns of its branches, in order, with the type A and with the type AAAA.
#[derive(Debug, Drop)]
pub struct AddressPaths<'a> {
    pub starts: List<u32>,
    pub four: List<List<Turn<'a>>>,
    pub six: List<List<Turn<'a>>>,
}

/// What a branch of a graph is to a walk that looks for an address: the walk ends there, and gives one or fails; or it goes
/// on to the node with this number, or does so while the server of this name is followed.
#[derive(Clone, Copy, Debug)]
pub enum Turn<'a> {
    Gives,
    Fails,
    Goes(u32),
    Waits(u32, &'a Name),
}
