//! Nodes of a tree.

ghost use Rattle.std.specs.Prelude.{◌≡◌};

use std::marker::Model;

/// A node of a tree, which stands for one existing name of its zone: the name's place among them.
#[derive(Clone, Copy, Debug, PartialEq, Eq)]
pub struct NodeId {
    place: usize,
}

impl Model for NodeId {
    ghost use Rattle.std.specs.Prelude.{ℕ};

    ghost Value = { ℕ };

    ghost view = { λ node. node.place };

    ghost inverse = { λ place. record { place = place } };
}

impl NodeId {
    /// The node at a place.
    pub(crate) fn at(place: usize) -> NodeId
        ensures { result ≡ place }
    {
        NodeId { place }
    }

    /// The place of the node's name among the existing names of its zone, in order, counted from 0.
    pub fn place(&self) -> usize
        ensures value { result ≡ self.now }
    {
        self.place
    }
}
