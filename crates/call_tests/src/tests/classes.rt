//! Classes of query names.

use super::configs::{alone, name, spells};
use base_names::base_graph;
use dns_data::{Name, NameFault, NoMemory};
use label_graph::LabelGraph;
use net_model::Class;
use query_classes::{children, class_of, representative};
use std::alloc::Global;
use std::test::Fail;
use zone_lookup::Hosts;

/// The graph of a zone with `t.`, `a.t.` and a wildcard. The wildcard's target `foo.a.t.` isn't named.
fn wildcard_graph(alloc: Global) -> Result<LabelGraph, Fail> {
    let config = alone(
        alloc,
        "t. 60 SOA ns.t. h.t. 1 2 3 4 5\n*.a.t. 60 CNAME foo.a.t.\n",
    )?;
    let hosts = Hosts::build(alloc, &config)?;
    Ok(base_graph(alloc, &hosts)?)
}

// A name that is named is alone, any other is in the class below its longest named prefix. The first label that is free
// below `a.t.` is `a`, and below `t.` it is `b`, since `a.t.` alone is directly below.
#[test]
fn names_below_a_wildcards_parent_are_in_one_class(rt: HostRuntime) -> Result<(), Fail> {
    let graph = wildcard_graph(rt.alloc())?;
    assert!(rt; are_classed(rt.alloc(), &graph)?);
    Ok(())
}

/// Whether each query is in its class, for which its name stands, and `a.t.` alone is directly below `t.`.
fn are_classed(alloc: Global, graph: &LabelGraph) -> Result<bool, NameFault> {
    let cases = [
        ("*.a.t.", "*.a.t.", true, "*.a.t."),
        ("foo.a.t.", "a.t.", false, "a.a.t."),
        ("y.x.a.t.", "a.t.", false, "a.a.t."),
        ("ns.t.", "t.", false, "b.t."),
    ];
    for (query, class, is_alone, stands) in cases {
        let is_class = is_in(alloc, graph, query, class, is_alone)?;
        if !is_class || !is_stood_for(alloc, graph, query, stands)? {
            return Ok(false);
        }
    }
    is_only_child(alloc, graph, "a.t.", "t.")
}

/// Whether the name's class is that of the other name alone, or that below it.
fn is_in(
    alloc: Global,
    graph: &LabelGraph,
    query: &str,
    class: &str,
    is_alone: bool,
) -> Result<bool, NameFault> {
    let query = name(alloc, query)?;
    let found = class_of(alloc, graph, &query)?;
    match &found {
        Class::Exact(alone) => Ok(is_alone && spells(alloc, class, alone)),
        Class::Below(above) => Ok(!is_alone && spells(alloc, class, above)),
    }
}

/// Whether the other name stands for the name's class.
fn is_stood_for(
    alloc: Global,
    graph: &LabelGraph,
    query: &str,
    stands: &str,
) -> Result<bool, NameFault> {
    let query = name(alloc, query)?;
    let found = standing(alloc, graph, &query)?;
    match &found {
        Some(found) => Ok(spells(alloc, stands, found)),
        None => Ok(false),
    }
}

/// The name that stands for the class of a name.
fn standing(alloc: Global, graph: &LabelGraph, query: &Name) -> Result<Option<Name>, NoMemory> {
    let class = class_of(alloc, graph, query)?;
    representative(alloc, graph, &class)
}

/// Whether the name is the only one directly below the other.
fn is_only_child(
    alloc: Global,
    graph: &LabelGraph,
    child: &str,
    above: &str,
) -> Result<bool, NameFault> {
    let above = name(alloc, above)?;
    let below = children(alloc, graph, &above)?;
    match below.items() {
        [one] => Ok(spells(alloc, child, one)),
        _ => Ok(false),
    }
}
