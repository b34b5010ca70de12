//! The branches of a graph, each with its state and the first type that goes its way.

ghost use Rattle.std.specs.Prelude.{◌≡◌, ◌++◌, IfOk, OnOk, map};
ghost use Rattle.graph_form.specs.Branches.{arm_branches, node_branches, plain, plain_branch, typed_branches};

use crate::graph::Graph;
use crate::node::{Arm, Branch, Node};
use dns_data::{NoMemory, RrType};
use net_model::State;
use std::alloc::Global;

/// A branch of a graph, the state that it is of, and the first of the types that go its way.
#[derive(Clone, Copy, Debug)]
pub struct TypedBranch<'g> {
    pub state: &'g State,
    pub rtype: RrType,
    pub branch: &'g Branch,
}

/// The branches of a graph, node by node and arm by arm, each with the first type of its arm. An arm without a type has
/// none. Nothing is copied: the list holds two references for each branch.
pub fn typed_branches<'g>(alloc: Global, graph: &'g Graph) -> Result<Vec<TypedBranch<'g>>, NoMemory>
    ensures { IfOk result (λ all. map plain_branch all.items ≡ typed_branches graph.now) }
{
    let mut all = Vec::new(alloc);
    for node in graph.items() {
        put_node(node, &mut all)?;
    }
    Ok(all)
}

/// Puts the branches of a node behind the others.
fn put_node<'g>(node: &'g Node, all: &mut Vec<TypedBranch<'g>>) -> Result<(), NoMemory>
    ensures { OnOk result (map plain_branch all.new.items ≡ map plain_branch all.old.items ++ node_branches node.now) }
{
    for arm in node.arms.items() {
        put_arm(node, arm, all)?;
    }
    Ok(())
}

/// Puts the branches of an arm of a node behind the others, if it has a type.
fn put_arm<'g>(node: &'g Node, arm: &'g Arm, all: &mut Vec<TypedBranch<'g>>) -> Result<(), NoMemory>
    ensures { OnOk result (map plain_branch all.new.items ≡ map plain_branch all.old.items ++ arm_branches node.now.state arm.now) }
{
    match arm.types.first() {
        Some(rtype) => put_branches(node.state.get(), rtype, arm.branches.items(), all),
        None => Ok(()),
    }
}

/// Puts branches of a state behind the others, with the type.
fn put_branches<'g>(
    state: &'g State,
    rtype: RrType,
    branches: &'g [Branch],
    all: &mut Vec<TypedBranch<'g>>,
) -> Result<(), NoMemory>
    ensures { OnOk result (map plain_branch all.new.items ≡ map plain_branch all.old.items ++ map (plain state.now rtype) branches.now) }
{
    for branch in branches {
        all.push(TypedBranch {
            state,
            rtype,
            branch,
        })?;
    }
    Ok(())
}
