//! The queries of a configuration within their limits, and the graphs of their walks.

ghost use Rattle.std.specs.Prelude.{IfOk, OnOk, IsErrOf};
ghost use Rattle.query_verdicts.specs.Verdict.{PassesStates};
ghost use Rattle.interp_graph.specs.Asked.{IsBuilt};

use dns_data::Name;
use graph_form::Graph;
use interp_graph::{GraphFault, build};
use name_rules::SymName;
use std::alloc::Global;
use zone_lookup::Hosts;

/// How many pairs of state and type a query may reach where no other limit is named.
pub const MOST_STATES: u32 = 100_000;

/// A configuration's servers with the trees of their zones, how many rewrites a query may use, and how many pairs of
/// state and type it may reach.
#[derive(Drop)]
pub(crate) struct Queries<'a> {
    pub alloc: Global,
    pub trees: Hosts<'a>,
    pub rewrites: u32,
    pub states: u32,
}

/// The graph of the walks of a query while every configured server is followed. It is `StatesPassed` where the query
/// reaches more pairs of state and type than it may.
pub(crate) fn graph_of(queries: &Queries<'_>, query: &Name) -> Result<Graph, GraphFault>
    ensures built { IfOk result (IsBuilt queries.now.trees queries.now.rewrites query.now) }
    ensures few { OnOk result (PassesStates queries.now.trees queries.now.rewrites queries.now.states query.now → ⊥) }
    ensures passed { IsErrOf result GraphFault.StatesPassed → PassesStates queries.now.trees queries.now.rewrites queries.now.states query.now }
{
    let name = SymName {
        known: query.copy(queries.alloc)?,
        tail: None,
    };
    build(
        queries.alloc,
        &queries.trees,
        &name,
        queries.rewrites,
        queries.states,
    )
}
