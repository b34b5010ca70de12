//! The first path of a graph that shows a fault, found without listing paths.

ghost use Rattle.std.specs.Prelude.{◌≡◌, ◌||◌, ◌*◌, ◌<◌, ℕ, List, Contains, IfOk, IfNone, IfSome, length, map, false};
ghost use Rattle.dns_data.specs.Name.{Labels};
ghost use Rattle.net_model.specs.Step.{Setting};
ghost use Rattle.graph_form.specs.FirstPath.{
  AreBarren,
  ArePassed,
  IsBarren,
  IsFirstAlong,
  IsFirstFrom,
  IsToFollowAt,
  branch_shows,
  is_to_follow,
  met_mark,
  takes_along,
};
ghost use Rattle.graph_form.specs.GraphOf.{IsGraphOf};

use crate::graph::Graph;
use crate::node::{Branch, Node};
use crate::shows::branch_shows;
use dns_data::{NoMemory, RrType};
use net_model::{Fault, Walk};
use std::alloc::Global;

/// A node on the path of a search, whether a branch before it shows the fault, and the number of its branch that is
/// followed.
#[derive(Clone, Copy, Debug)]
pub(crate) struct Turn {
    node: u32,
    taken: bool,
    number: usize,
}

/// A branch that a search follows: its number, whether it or one before it shows the fault, and the node that it goes to.
#[derive(Clone, Copy, Debug)]
pub(crate) struct Onward {
    number: usize,
    taken: bool,
    to: Option<u32>,
}

/// The numbers of the first path with the type that takes a branch that shows the fault, or `None` where none does. Of
/// differing answers one is shown in which none of the walks ends. Each node is passed over twice at most.
pub(crate) fn first_path(
    alloc: Global,
    graph: &Graph,
    rtype: RrType,
    fault: &Fault,
    walks: &[Walk],
) -> Result<Option<Vec<usize>>, NoMemory>
    requires of_query { (setting : Setting) × (query : Labels) × IsGraphOf setting query graph.now }
    ensures found { IfOk result (λ found. IfSome found (λ path. IsFirstAlong (branch_shows fault.now walks.now) graph.now rtype path.items)) }
    ensures none { IfOk result (λ found. IfNone found ((numbers : List ℕ) → takes_along (branch_shows fault.now walks.now) graph.now rtype numbers ≡ false)) }
{
    let mut marks = vec![in alloc; false; 2 * graph.nodes() as usize]?;
    let met = marks.as_mut_slice();
    for (number, at) in graph.starts().iter().enumerate() {
        let found = first_rest(alloc, graph, rtype, fault, walks, *at, met)?;
        if let Some(mut path) = found {
            path.insert(0, number)?;
            return Ok(Some(path));
        }
    }
    Ok(None)
}

/// The numbers of the first path from a start, or `None`. The nodes that are met are marked, and then lead to none.
fn first_rest(
    alloc: Global,
    graph: &Graph,
    rtype: RrType,
    fault: &Fault,
    walks: &[Walk],
    at: u32,
    met: &mut [bool],
) -> Result<Option<Vec<usize>>, NoMemory>
    requires of_query { (setting : Setting) × (query : Labels) × IsGraphOf setting query graph.now }
    requires starts { Contains graph.now.starts at }
    requires barren { AreBarren (branch_shows fault.now walks.now) graph.now rtype met.old }
    requires room { length met.old ≡ 2 * length graph.now.nodes }
    ensures found { IfOk result (λ found. IfSome found (λ path. IsFirstFrom (branch_shows fault.now walks.now) graph.now rtype false at path.items)) }
    ensures none { IfOk result (λ found. IfNone found (IsBarren (branch_shows fault.now walks.now) graph.now rtype false at)) }
    ensures barren { IfOk result (λ found. IfNone found (AreBarren (branch_shows fault.now walks.now) graph.now rtype met.new)) }
{
    let mut path = Vec::new(alloc);
    path.push(Turn {
        node: at,
        taken: false,
        number: 0,
    })?;
    while let Some(turn) = path.pop() {
        if let Some(onward) = next_branch(graph, rtype, fault, walks, met, turn) {
            path.push(Turn {
                number: onward.number,
                ..turn
            })?;
            match onward.to {
                None => return Ok(Some(numbers_of(alloc, path.as_slice())?)),
                Some(to) => {
                    met[met_mark(to, onward.taken)] = true;
                    path.push(Turn {
                        node: to,
                        taken: onward.taken,
                        number: 0,
                    })?;
                }
            }
        }
    }
    Ok(None)
}

/// The first branch of a node, from the turn's number on, that ends a path that shows the fault or goes to a node that
/// wasn't met.
fn next_branch(
    graph: &Graph,
    rtype: RrType,
    fault: &Fault,
    walks: &[Walk],
    met: &[bool],
    turn: Turn,
) -> Option<Onward>
    ensures found { IfSome result (IsToFollowAt (branch_shows fault.now walks.now) graph.now rtype met.now turn) }
    ensures passed { ArePassed (branch_shows fault.now walks.now) graph.now rtype met.now turn result }
{
    let node = graph.find_node(turn.node)?;
    let branches = node.branches(rtype);
    for number in turn.number..branches.len() {
        let branch = &branches[number];
        let taken = is_taken(fault, walks, turn.taken, node, branch);
        if is_to_follow(met, taken, branch) {
            return Some(Onward {
                number,
                taken,
                to: branch.node_behind(),
            });
        }
    }
    None
}

/// Whether the branch of the node or one before it shows the fault.
fn is_taken(fault: &Fault, walks: &[Walk], taken: bool, node: &Node, branch: &Branch) -> bool
    ensures { result ≡ (taken || branch_shows fault.now walks.now node.now.state branch.now) }
{
    taken || branch_shows(fault, walks, node.state.get(), branch)
}

/// Whether the branch ends a path that shows the fault or goes to a node that wasn't met.
fn is_to_follow(met: &[bool], taken: bool, branch: &Branch) -> bool
    ensures { result ≡ is_to_follow met.now taken branch.now }
{
    match branch {
        Branch::Go { to, .. } => match met.get(met_mark(*to, taken)) {
            Some(is_met) => !*is_met,
            None => false,
        },
        Branch::End { .. } => taken,
    }
}

/// Where it is marked that a node was met, behind a branch that shows the fault or not.
fn met_mark(at: u32, taken: bool) -> usize
    ensures { result ≡ met_mark at taken }
{
    2 * at as usize + usize::from(taken)
}

/// The numbers of the branches that are followed.
fn numbers_of(alloc: Global, path: &[Turn]) -> Result<Vec<usize>, NoMemory>
    ensures { IfOk result (λ numbers. numbers.items ≡ map (λ turn. turn.number) path.now) }
{
    Ok(path.iter().map(|turn| turn.number).collect(alloc)?)
}
