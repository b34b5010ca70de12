//! The ends of the graph of a query's walks.

ghost use Rattle.std.specs.Prelude.{◌≡◌, ◌++◌, map, IfOk, OnOk};
ghost use Rattle.same_answers.specs.Ends.{branch_leaves, leaves_of, graph_overlong, is_bounded, node_leaves, node_overlong};

use dns_data::{NoMemory, RrType};
use graph_form::{Branch, Graph, Node, is_overlong_end};
use net_model::Leaf;
use std::alloc::Global;

/// The leaves in which the graph ends with a type, node by node. Nothing is copied.
pub(crate) fn leaves_of<'g>(
    alloc: Global,
    graph: &'g Graph,
    rtype: RrType,
) -> Result<Vec<&'g Leaf>, NoMemory>
    ensures { IfOk result (λ ends. map (λ leaf. leaf.now) ends.items ≡ leaves_of graph.now rtype) }
{
    let mut ends = Vec::new(alloc);
    for i in 0..graph.nodes() {
        put_ends(graph.node(i), rtype, &mut ends)?;
    }
    Ok(ends)
}

/// Puts the leaves in which a node ends with a type behind the others.
fn put_ends<'g>(node: &'g Node, rtype: RrType, ends: &mut Vec<&'g Leaf>) -> Result<(), NoMemory>
    ensures { OnOk result (map (λ leaf. leaf.now) ends.new.items ≡ map (λ leaf. leaf.now) ends.old.items ++ node_leaves rtype node.now) }
{
    for branch in node.branches(rtype) {
        put_end(branch, ends)?;
    }
    Ok(())
}

/// Puts the leaf in which a branch ends behind the others, if it ends.
fn put_end<'g>(branch: &'g Branch, ends: &mut Vec<&'g Leaf>) -> Result<(), NoMemory>
    ensures { OnOk result (map (λ leaf. leaf.now) ends.new.items ≡ map (λ leaf. leaf.now) ends.old.items ++ branch_leaves branch.now) }
{
    if let Branch::End { leaf, .. } = branch {
        ends.push(leaf.get())?;
    }
    Ok(())
}

/// Whether the graph ends in no name of more than 255 octets, with any type (RFC 6672 section 2.2).
pub(crate) fn is_bounded(graph: &Graph) -> bool
    ensures { result ≡ is_bounded graph.now }
{
    RrType::ALL
        .iter()
        .all(|rtype| !ends_overlong(graph, *rtype))
}

/// Whether the graph ends in such a name with the type.
fn ends_overlong(graph: &Graph, rtype: RrType) -> bool
    ensures { result ≡ graph_overlong graph.now rtype }
{
    for i in 0..graph.nodes() {
        if node_ends_overlong(graph.node(i), rtype) {
            return true;
        }
    }
    false
}

/// Whether a node ends with the type in a name of more than 255 octets.
fn node_ends_overlong(node: &Node, rtype: RrType) -> bool
    ensures { result ≡ node_overlong rtype node.now }
{
    node.branches(rtype)
        .iter()
        .any(|branch| is_overlong_end(branch))
}
