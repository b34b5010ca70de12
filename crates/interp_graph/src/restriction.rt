//! The part of a graph that is left where some name servers may not be followed.

ghost use Rattle.std.specs.Prelude.{ℕ, ◌≡◌, IfOk};
ghost use Rattle.dns_data.specs.Name.{Labels};
ghost use Rattle.net_model.specs.Step.{following};
ghost use Rattle.graph_form.specs.GraphOf.{IsExactIn, IsGraphOf};
ghost use Rattle.interp_graph.specs.Asked.{IsBuilt};

use crate::limited::limited_nodes;
use crate::limits::Limits;
use crate::reached::types_reached;
use dns_data::{List, Name, NoMemory};
use graph_form::Graph;
use std::alloc::Global;
use zone_lookup::Hosts;

/// Of a graph that was built for the configuration of the hosts, the graph of the same query's walks while these servers
/// are followed. Its nodes and their arms stand in the order of the given graph, each with those of its types with which
/// such a walk comes there; it may be none.
pub fn restrict(
    alloc: Global,
    hosts: &Hosts<'_>,
    graph: &Graph,
    followed: &[Name],
) -> Result<Graph, NoMemory>
    requires { (rewrites : ℕ) × (query : Labels) × IsBuilt hosts.now rewrites query graph.now }
    ensures graph { IfOk result (λ restricted. (rewrites : ℕ) (query : Labels) → IsBuilt hosts.now rewrites query graph.now
        → IsGraphOf (following hosts.now rewrites followed.now) query restricted) }
    ensures exact { IfOk result (λ restricted. (rewrites : ℕ) (query : Labels) → IsBuilt hosts.now rewrites query graph.now
        → IsExactIn (following hosts.now rewrites followed.now) query restricted) }
{
    let limits = Limits { hosts, followed };
    let sets = types_reached(alloc, &limits, graph)?;
    let nodes = limited_nodes(alloc, &limits, graph, sets.as_slice())?;
    let starts = copied(alloc, graph.starts())?;
    // There are no more of either than in the given graph, where it is read that they are less than 2^32.
    let _ = (graph.nodes(), graph.pairs());
    Ok(Graph::new(nodes, starts))
}

/// Equal numbers.
fn copied(alloc: Global, numbers: &[u32]) -> Result<List<u32>, NoMemory>
    ensures { IfOk result (λ copy. copy ≡ numbers.now) }
{
    let mut copy = List::new(alloc);
    for number in numbers {
        copy.push(*number)?;
    }
    Ok(copy)
}
