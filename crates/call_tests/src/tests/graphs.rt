//! Graphs of queries, beside all their walks.

use super::configs::{alone, graph_of, graph_within, name};
use base_names::base_graph;
use dns_data::{List, Name, NoMemory, RrType};
use graph_form::{Branch, Graph};
use interp_graph::GraphFault;
use net_model::{Config, Walk};
use plain_resolver::resolve;
use query_classes::{ClassRow, TreeFault, class_tree};
use report_json::walk_text;
use std::alloc::Global;
use std::test::Fail;
use zone_lookup::Hosts;

/// A zone with an alias that leads to no name.
const ALIAS: &str = "t. 60 SOA ns.t. h.t. 1 2 3 4 5\nt. 60 NS ns.t.\na.t. 60 CNAME b.t.\n";

// The alias is asked for with twelve types, and its target with all of them but CNAME.
#[test]
fn an_alias_has_two_states_and_twenty_three_pairs(rt: HostRuntime) -> Result<(), Fail> {
    let config = alone(rt.alloc(), ALIAS)?;
    assert!(rt; has_two_states(rt.alloc(), &config)?);
    Ok(())
}

/// Whether the graph of `a.t.` has two nodes and 23 pairs, and more than 22.
fn has_two_states(alloc: Global, config: &Config) -> Result<bool, Fail> {
    let hosts = Hosts::build(alloc, config)?;
    let graph = graph_within(alloc, &hosts, name(alloc, "a.t.")?, 23)?;
    let has_two = graph.nodes() == 2 && graph.pairs() == 23;
    Ok(has_two && passes(alloc, &hosts, name(alloc, "a.t.")?, 22))
}

/// Whether the query has more pairs than the limit.
fn passes(alloc: Global, hosts: &Hosts<'_>, query: Name, limit: u32) -> bool {
    matches!(
        graph_within(alloc, hosts, query, limit),
        Err(GraphFault::StatesPassed)
    )
}

/// Zones of one server: with a wildcard's alias that leads below the wildcard's parent, with one redirection, with two one
/// behind the other, and with one that makes each name longer.
const ZONES: [&str; 4] = [
    "t. 60 SOA ns.t. h.t. 1 2 3 4 5\nt. 60 NS ns.t.\n*.a.t. 60 CNAME foo.a.t.\n",
    "t. 60 SOA ns.t. h.t. 1 2 3 4 5\nt. 60 NS ns.t.\nd.t. 60 DNAME e.t.\nwww.e.t. 60 A 10.0.0.1\n",
    "t. 60 SOA ns.t. h.t. 1 2 3 4 5\nt. 60 NS ns.t.\nd.t. 60 DNAME x.f.t.\nf.t. 60 DNAME g.t.\nw.x.g.t. 60 A 10.0.0.1\n",
    "t. 60 SOA ns.t. h.t. 1 2 3 4 5\nt. 60 NS ns.t.\na.b.t. 60 DNAME b.t.\n",
];

// No name is referred, so each query has one walk with each type.
#[test]
fn paths_of_representatives_are_their_walks(rt: HostRuntime) -> Result<(), Fail> {
    for zone in ZONES {
        let config = alone(rt.alloc(), zone)?;
        assert!(rt; are_walked(rt.alloc(), &config)?, "{zone}");
    }
    Ok(())
}

/// Whether the paths of each class's representative are its walks.
fn are_walked(alloc: Global, config: &Config) -> Result<bool, Fail> {
    let hosts = Hosts::build(alloc, config)?;
    are_rows_walked(alloc, config, &hosts)
}

/// Whether it is so in a configuration whose zones' trees are built.
fn are_rows_walked(alloc: Global, config: &Config, hosts: &Hosts<'_>) -> Result<bool, Fail> {
    let rows = rows_of(alloc, hosts)?;
    for row in rows.items() {
        if !is_row_walked(alloc, config, hosts, row)? {
            return Ok(false);
        }
    }
    Ok(true)
}

/// The names of the class tree, each with the representative of the class below it.
fn rows_of(alloc: Global, hosts: &Hosts<'_>) -> Result<List<ClassRow>, TreeFault> {
    let graph = base_graph(alloc, hosts)?;
    class_tree(alloc, &graph, &Name::root(), 1000)
}

/// Whether the paths of a name, and of the representative of the class below it, are their walks.
fn is_row_walked(
    alloc: Global,
    config: &Config,
    hosts: &Hosts<'_>,
    row: &ClassRow,
) -> Result<bool, Fail> {
    match &row.below {
        Some(below) if !is_walked(alloc, config, hosts, below)? => Ok(false),
        _ => is_walked(alloc, config, hosts, &row.name),
    }
}

/// Whether the only path of the query's graph with each type is its only walk.
fn is_walked(
    alloc: Global,
    config: &Config,
    hosts: &Hosts<'_>,
    query: &Name,
) -> Result<bool, Fail> {
    let graph = graph_of(alloc, hosts, query.copy(alloc)?)?;
    is_walked_in(alloc, config, &graph, query)
}

/// Whether it is so in this graph.
fn is_walked_in(alloc: Global, config: &Config, graph: &Graph, query: &Name) -> Result<bool, Fail> {
    for rtype in RrType::ALL {
        if !is_walked_with(alloc, config, graph, query, rtype)? {
            return Ok(false);
        }
    }
    Ok(true)
}

/// Whether it is so with this type.
fn is_walked_with(
    alloc: Global,
    config: &Config,
    graph: &Graph,
    query: &Name,
    rtype: RrType,
) -> Result<bool, Fail> {
    let walks = resolve(alloc, config, 12, &[], query, rtype, 1)?;
    Ok(is_path(alloc, graph, rtype, walks.items())?)
}

/// Whether the only path of the graph with the type is the only walk.
fn is_path(alloc: Global, graph: &Graph, rtype: RrType, walks: &[Walk]) -> Result<bool, NoMemory> {
    let path = only_path(alloc, graph, rtype)?;
    are_one(alloc, walks, &path)
}

/// Whether there is one walk, and a path with its text.
fn are_one(alloc: Global, walks: &[Walk], path: &Option<Walk>) -> Result<bool, NoMemory> {
    match (walks, path) {
        ([walk], Some(path)) => {
            let text = walk_text(alloc, walk)?;
            Ok(text.items() == walk_text(alloc, path)?.items())
        }
        _ => Ok(false),
    }
}

/// The only path with the type as a walk, or `None` where there are others.
fn only_path(alloc: Global, graph: &Graph, rtype: RrType) -> Result<Option<Walk>, NoMemory> {
    let [start] = graph.starts() else {
        return Ok(None);
    };
    let mut states = List::new(alloc);
    let mut hops = List::new(alloc);
    let mut at = *start;
    for _step in 0..graph.nodes() {
        if at >= graph.nodes() {
            return Ok(None);
        }
        let node = graph.node(at);
        states.push(node.state.get().copy(alloc)?)?;
        match node.branches(rtype) {
            [Branch::Go { hop, to }] => {
                hops.push(hop.get().copy(alloc)?)?;
                at = *to;
            }
            [Branch::End { leaf, .. }] => {
                let leaf = leaf.get().copy(alloc)?;
                return Ok(Some(Walk { states, hops, leaf }));
            }
            _ => return Ok(None),
        }
    }
    Ok(None)
}
