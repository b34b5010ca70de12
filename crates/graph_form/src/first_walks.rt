//! The first walk, or the first pair of walks, that shows a fault.

ghost use Rattle.std.specs.Prelude.{◌≡◌, ◌∷◌, ◌++◌, ℕ, List, None, IfOk, MatchOption, true};
ghost use Rattle.std.specs.Option.{option_to_list};
ghost use Rattle.dns_data.specs.Name.{Labels};
ghost use Rattle.graph_form.specs.FirstPath.{IsFirstWalk, branch_shows, takes_along};
ghost use Rattle.graph_form.specs.Graph.{HasBranch, path_along, path_from};
ghost use Rattle.graph_form.specs.GraphOf.{IsGraphOf};
ghost use Rattle.graph_form.specs.Trails.{AreFirst, GraphShows};
ghost use Rattle.net_model.specs.Step.{Setting};

use crate::first_path::first_path;
use crate::graph::Graph;
use crate::node::{Branch, Node};
use crate::report::Seen;
use dns_data::{Boxed, List, NoMemory, RrType};
use net_model::{Fault, Hop, Walk};
use std::alloc::Global;

/// The first walk of a graph of a query that shows the fault with the type, or the first pair of walks of which the leaves
/// differ. The graph shows it. No walks are listed: each node is passed over twice at most for each walk of the answer.
pub fn trails(alloc: Global, graph: &Graph, seen: &Seen) -> Result<List<Walk>, NoMemory>
    requires of_query { (setting : Setting) × (query : Labels) × IsGraphOf setting query graph.now }
    requires shown { GraphShows graph.now seen.now.rtype seen.now.fault }
    ensures { IfOk result (λ walks. AreFirst graph.now seen.now.rtype seen.now.fault walks) }
{
    let first = first_walk(alloc, graph, seen, &[])?;
    let mut walks = List::new(alloc);
    walks.push(first)?;
    match &seen.fault {
        Fault::Answers(_, _) => {
            let other = first_walk(alloc, graph, seen, walks.items())?;
            walks.push(other)?;
            Ok(walks)
        }
        _ => Ok(walks),
    }
}

/// The first walk that shows the fault; of differing answers, the first authoritative one whose leaf none of the walks
/// has. There is one.
fn first_walk(alloc: Global, graph: &Graph, seen: &Seen, walks: &[Walk]) -> Result<Walk, NoMemory>
    requires of_query { (setting : Setting) × (query : Labels) × IsGraphOf setting query graph.now }
    requires shown { (numbers : List ℕ) × (takes_along (branch_shows seen.now.fault walks.now) graph.now seen.now.rtype numbers ≡ true) }
    ensures { IfOk result (IsFirstWalk (branch_shows seen.now.fault walks.now) graph.now seen.now.rtype) }
{
    match first_path(alloc, graph, seen.rtype, &seen.fault, walks)? {
        Some(path) => match walk_along(alloc, graph, seen.rtype, path.as_slice())? {
            Some(walk) => Ok(walk),
            None => unreachable!(),
        },
        None => unreachable!(),
    }
}

/// The walk of the path with these numbers, or `None` where they are those of none.
fn walk_along(
    alloc: Global,
    graph: &Graph,
    rtype: RrType,
    path: &[usize],
) -> Result<Option<Walk>, NoMemory>
    ensures { IfOk result (λ walk. walk ≡ path_along graph.now rtype path.now) }
{
    let Some((first, numbers)) = path.split_first() else {
        return Ok(None);
    };
    let Some(start) = graph.starts().get(*first) else {
        return Ok(None);
    };
    walk_from(alloc, graph, rtype, *start, numbers)
}

/// The walk of the path from a node with these numbers, or `None` where they are those of none.
fn walk_from(
    alloc: Global,
    graph: &Graph,
    rtype: RrType,
    start: u32,
    numbers: &[usize],
) -> Result<Option<Walk>, NoMemory>
    ensures { IfOk result (λ walk. walk ≡ path_from graph.now rtype numbers.now start) }
{
    let mut at = start;
    let mut states = List::new(alloc);
    let mut hops = List::new(alloc);
    for (place, number) in numbers.iter().enumerate() {
        let Some((node, branch)) = branch_at(graph, rtype, at, *number) else {
            return Ok(None);
        };
        states.push(node.state.get().copy(alloc)?)?;
        match branch {
            Branch::Go { hop, to } => {
                hops.push(hop.get().copy(alloc)?)?;
                at = *to;
            }
            Branch::End { hop, leaf } => {
                if place + 1 < numbers.len() {
                    return Ok(None);
                }
                let hops = with_last(alloc, hops, hop)?;
                let leaf = leaf.get().copy(alloc)?;
                return Ok(Some(Walk { states, hops, leaf }));
            }
        }
    }
    Ok(None)
}

/// The node with this number and its branch with that one, or `None` where there is none.
fn branch_at(graph: &Graph, rtype: RrType, at: u32, number: usize) -> Option<(&Node, &Branch)>
    ensures { MatchOption result ((numbers : List ℕ) → path_from graph.now rtype (number ∷ numbers) at ≡ None) (λ found. HasBranch graph.now rtype at number found.0.now found.1.now) }
{
    let node = graph.find_node(at)?;
    let branch = node.branches(rtype).get(number)?;
    Some((node, branch))
}

/// The hops, and then the one with which a walk ends, if there is one.
fn with_last(
    alloc: Global,
    mut hops: List<Hop>,
    last: &Option<Boxed<Hop>>,
) -> Result<List<Hop>, NoMemory>
    ensures { IfOk result (λ all. all ≡ hops ++ option_to_list last.now) }
{
    if let Some(hop) = last {
        hops.push(hop.get().copy(alloc)?)?;
    }
    Ok(hops)
}
