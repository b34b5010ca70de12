//! The nodes of a graph while only some servers are followed.

ghost use Rattle.std.specs.Prelude.{◌≡◌, map, Some, length, IfOk};
ghost use Rattle.std.specs.List.{AllZip};
ghost use Rattle.graph_form.specs.declared.node.Branch.TheVariants.{End};
ghost use Rattle.net_model.specs.declared.walk.Leaf.TheVariants as leaf_as;
ghost use Rattle.interp_graph.specs.Restricted.{AreLimited, IsLimitedArm, IsLimitedNode, limited, shut_of};

use crate::limits::Limits;
use crate::reached::common;
use dns_data::{Boxed, List, Name, NoMemory, TypeSet};
use graph_form::{Arm, Branch, Graph, Node};
use net_model::{Hop, Leaf};
use std::alloc::Global;

/// The nodes of a graph, each with the branches of its arms for the types of its set.
pub(crate) fn limited_nodes(
    alloc: Global,
    limits: &Limits<'_, '_>,
    graph: &Graph,
    sets: &[TypeSet],
) -> Result<List<Node>, NoMemory>
    requires { length sets.now ≡ length graph.now.nodes }
    ensures { IfOk result (λ nodes. AreLimited (shut_of limits.now) nodes sets.now graph.now.nodes) }
{
    let mut nodes = List::new(alloc);
    for at in 0..graph.nodes() {
        nodes.push(limited_node(alloc, limits, graph.node(at), sets[at as usize])?)?;
    }
    Ok(nodes)
}

/// A node with the branches of its arms for these types.
fn limited_node(
    alloc: Global,
    limits: &Limits<'_, '_>,
    node: &Node,
    types: TypeSet,
) -> Result<Node, NoMemory>
    ensures { IfOk result (λ now. IsLimitedNode (shut_of limits.now) types now node.now) }
{
    Ok(Node {
        state: Boxed::new(alloc, node.state.get().copy(alloc)?)?,
        arms: limited_arms(alloc, limits, node.arms.items(), types)?,
    })
}

/// Arms with their branches for these types.
fn limited_arms(
    alloc: Global,
    limits: &Limits<'_, '_>,
    arms: &[Arm],
    types: TypeSet,
) -> Result<List<Arm>, NoMemory>
    ensures { IfOk result (λ now. AllZip (IsLimitedArm (shut_of limits.now) types) now arms.now) }
{
    let mut now = List::new(alloc);
    for arm in arms {
        now.push(limited_arm(alloc, limits, arm, types)?)?;
    }
    Ok(now)
}

/// An arm with its branches for these types.
fn limited_arm(
    alloc: Global,
    limits: &Limits<'_, '_>,
    arm: &Arm,
    types: TypeSet,
) -> Result<Arm, NoMemory>
    ensures { IfOk result (λ now. IsLimitedArm (shut_of limits.now) types now arm.now) }
{
    let types = common(types, arm.types);
    match types.first() {
        Some(_) => Ok(Arm {
            types,
            branches: limited_branches(alloc, limits, arm.branches.items())?,
        }),
        None => Ok(Arm {
            types,
            branches: List::new(alloc),
        }),
    }
}

/// Branches while only some servers are followed.
fn limited_branches(
    alloc: Global,
    limits: &Limits<'_, '_>,
    branches: &[Branch],
) -> Result<List<Branch>, NoMemory>
    ensures { IfOk result (λ now. now ≡ map (limited (shut_of limits.now)) branches.now) }
{
    let mut now = List::new(alloc);
    for branch in branches {
        now.push(limited_branch(alloc, limits, branch)?)?;
    }
    Ok(now)
}

/// A branch while only some servers are followed.
fn limited_branch(
    alloc: Global,
    limits: &Limits<'_, '_>,
    branch: &Branch,
) -> Result<Branch, NoMemory>
    ensures { IfOk result (λ now. now ≡ limited (shut_of limits.now) branch.now) }
{
    match branch {
        Branch::Go { hop, to } => match limits.unknown(hop.get()) {
            Some(ns) => no_address(alloc, hop, ns),
            None => Ok(Branch::Go {
                hop: copied_hop(alloc, hop)?,
                to: *to,
            }),
        },
        Branch::End {
            hop: Some(hop),
            leaf,
        } => limited_end(alloc, limits, hop, leaf),
        Branch::End { hop: None, leaf } => Ok(Branch::End {
            hop: None,
            leaf: copied_leaf(alloc, leaf)?,
        }),
    }
}

/// A branch that ends at a name server, while only some servers are followed.
fn limited_end(
    alloc: Global,
    limits: &Limits<'_, '_>,
    hop: &Boxed<Hop>,
    leaf: &Boxed<Leaf>,
) -> Result<Branch, NoMemory>
    ensures { IfOk result (λ now. now ≡ limited (shut_of limits.now) (End (Some hop.now) leaf.now)) }
{
    if let Leaf::Lame(_) = leaf.get() {
        if let Some(ns) = limits.unknown(hop.get()) {
            return no_address(alloc, hop, ns);
        }
    }
    let hop = copied_hop(alloc, hop)?;
    let leaf = copied_leaf(alloc, leaf)?;
    Ok(Branch::End {
        hop: Some(hop),
        leaf,
    })
}

/// The end at a name server for want of its address.
fn no_address(alloc: Global, hop: &Boxed<Hop>, ns: &Name) -> Result<Branch, NoMemory>
    ensures { IfOk result (λ branch. branch ≡ End (Some hop.now) (leaf_as.NoAddress ns.now)) }
{
    let leaf = Boxed::new(alloc, Leaf::NoAddress(ns.copy(alloc)?))?;
    let hop = copied_hop(alloc, hop)?;
    Ok(Branch::End {
        hop: Some(hop),
        leaf,
    })
}

/// An equal hop.
fn copied_hop(alloc: Global, hop: &Boxed<Hop>) -> Result<Boxed<Hop>, NoMemory>
    ensures { IfOk result (λ copy. copy ≡ hop.now) }
{
    Boxed::new(alloc, hop.get().copy(alloc)?)
}

/// An equal end.
fn copied_leaf(alloc: Global, leaf: &Boxed<Leaf>) -> Result<Boxed<Leaf>, NoMemory>
    ensures { IfOk result (λ copy. copy ≡ leaf.now) }
{
    Boxed::new(alloc, leaf.get().copy(alloc)?)
}
