//! Graphs of the walks of one query.

ghost use Rattle.std.specs.Prelude.{◌≡◌, ◌<◌, ◌^◌, length, Some, slice_get};
ghost use Rattle.std.specs.List.{filter};
ghost use Rattle.std.specs.Option.{option_copied};
ghost use Rattle.dns_data.specs.RrType.{types as types_in_order};
ghost use Rattle.dns_data.specs.TypeSet.{has_bit};
ghost use Rattle.graph_form.specs.Graph.{PlainGraph, node_pairs, pairs_of};

use crate::node::Node;
use dns_data::{List, RrType, TypeSet};
use std::marker::Model;

/// A graph of the walks of one query: nodes, counted from 0, and those in which the walks begin, in order.
#[derive(Debug, Drop)]
pub struct Graph {
    nodes: List<Node>,
    starts: List<u32>,
}

impl Model for Graph {
    ghost use Rattle.graph_form.specs.Graph.{PlainGraph, IsCounted};

    ghost Value = { PlainGraph };

    ghost view = { λ graph. record { nodes = graph.nodes; starts = graph.starts } };

    ghost invariant = { λ graph. IsCounted (record { nodes = graph.nodes; starts = graph.starts }) };
}

impl Graph {
    /// The graph with these nodes and starts, of which there are less than 2^32 pairs of node and type.
    pub fn new(nodes: List<Node>, starts: List<u32>) -> Graph
        requires nodes { length nodes < 2 ^ 32 }
        requires pairs { length (pairs_of (record { nodes = nodes; starts = starts })) < 2 ^ 32 }
        ensures { result ≡ record { nodes = nodes; starts = starts } }
    {
        Graph { nodes, starts }
    }

    /// How many nodes the graph has.
    pub fn nodes(&self) -> u32
        ensures { result ≡ length self.now.nodes }
    {
        self.nodes.items().len() as u32
    }

    /// How many pairs of node and type the graph has.
    pub fn pairs(&self) -> u32
        ensures { result ≡ length (pairs_of self.now) }
    {
        let mut count = 0;
        for node in self.nodes.items() {
            count += node_pairs(node);
        }
        count
    }

    /// The nodes in which the walks begin, in order.
    pub fn starts(&self) -> &[u32]
        ensures { result.now ≡ self.now.starts }
    {
        self.starts.items()
    }

    /// The node with this number.
    pub fn node(&self, i: u32) -> &Node
        requires { i < length self.now.nodes }
        ensures { slice_get self.now.nodes i ≡ Some result.now }
    {
        &self.nodes.items()[i as usize]
    }

    /// The nodes, in order.
    pub(crate) fn items(&self) -> &[Node]
        ensures { result.now ≡ self.now.nodes }
    {
        self.nodes.items()
    }

    /// The node with this number, or `None` where there is none.
    pub(crate) fn find_node(&self, i: u32) -> Option<&Node>
        ensures { option_copied result ≡ slice_get self.now.nodes i }
    {
        self.nodes.items().get(i as usize)
    }
}

/// How many pairs a node has.
fn node_pairs(node: &Node) -> u32
    requires { length (node_pairs node.now) < 2 ^ 32 }
    ensures { result ≡ length (node_pairs node.now) }
{
    let mut count = 0;
    for arm in node.arms.items() {
        count += type_count(arm.types);
    }
    count
}

/// How many types a set has. It takes no memory.
pub fn type_count(types: TypeSet) -> u32
    ensures { result ≡ length (filter (has_bit types) types_in_order) }
{
    RrType::ALL
        .iter()
        .filter(|rtype| types.has(**rtype))
        .count() as u32
}
