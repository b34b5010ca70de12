//! What the judges of the scopes of one configuration share.

ghost use Rattle.std.specs.Prelude.{◌≡◌, true, Contains, IfOk, MatchOption};
ghost use Rattle.job_scope.specs.Scoped.{scoped, widened};
ghost use Rattle.label_graph.specs.Pairs.{AreSame};
ghost use Rattle.net_model.specs.Reading.{ground_of};
ghost use Rattle.query_classes.specs.TreeNames.{AreBaseNamesOf};
ghost use Rattle.query_verdicts.specs.Queries.{limited_to, queries_of};

use base_names::{base_graph, joint_base_graph};
use class_judge::{Judge, Naming};
use dns_data::{Name, NoMemory};
use label_graph::LabelGraph;
use net_model::Config;
use query_verdicts::QueryGraphs;
use std::alloc::Global;
use std::marker::Model;
use std::slice;
use zone_lookup::Hosts;

/// What the judges of the scopes of one configuration share: the graphs of its queries, and that of its base names. One
/// judge at a time has them. Contracts see the queries with their limits.
#[derive(Drop)]
pub struct ScopeGraphs<'a> {
    queries: QueryGraphs<'a>,
    base: LabelGraph,
}

impl<'a> Model for ScopeGraphs<'a> {
    ghost use Rattle.net_model.specs.Reading.{ground_of};
    ghost use Rattle.query_classes.specs.TreeNames.{AreBaseNamesOf};
    ghost use Rattle.query_verdicts.specs.Queries.{LimitedQueries};

    ghost Value = { LimitedQueries };

    ghost view = { λ graphs. graphs.queries };

    ghost invariant = { λ graphs. AreBaseNamesOf (ground_of graphs.queries.config) graphs.base };
}

impl<'a> ScopeGraphs<'a> {
    /// The graphs of a configuration, whose queries may use this many rewrites, and of each of which no more pairs of state
    /// and type are looked at than the limit. The trees of all zones, the graph of each server's name, the regions of names
    /// and the graph of base names are made here, once.
    pub fn prepare(
        alloc: Global,
        config: &'a Config,
        rewrites: u32,
        states: u32,
    ) -> Result<ScopeGraphs<'a>, NoMemory>
        ensures { IfOk result (λ graphs. graphs ≡ limited_to config.now rewrites states) }
    {
        let queries = QueryGraphs::prepare(alloc, config, rewrites, states)?;
        let base = base_graph(alloc, queries.hosts())?;
        Ok(ScopeGraphs { queries, base })
    }

    /// The judge of the scope of a name, with the graphs. The name may be one that no record names. For one that exists in
    /// some zone nothing is made; for each other the graph of the base names and the prefixes of the name is.
    pub fn into_judge<N: Naming>(
        self,
        alloc: Global,
        scope: &Name,
    ) -> Result<Judge<'a, N>, NoMemory>
        requires subject { scoped self.config self.rewrites scope.now ≡ N.subject }
        requires states { self.states ≡ N.states }
        ensures config { IfOk result (λ judge. judge ≡ self.entry.config) }
    {
        // The labels are read, so that the length of the name is known here.
        let _ = scope.labels();
        let first = scope.copy(alloc)?;
        let names = self.names_with(alloc, scope)?;
        let ScopeGraphs { queries, base } = self;
        Ok(match names {
            Some(names) => Judge::new(alloc, queries, names, Some(base), first),
            None => Judge::new(alloc, queries, base, None, first),
        })
    }

    /// The graphs that the judge of a scope had.
    pub fn of_judge<N: Naming>(judge: Judge<'a, N>) -> ScopeGraphs<'a>
        ensures { result ≡ queries_of N.subject N.states }
    {
        let (queries, base) = judge.into_graphs();
        ScopeGraphs { queries, base }
    }

    /// The graph of the base names and the prefixes of a name, or `None` where these are found to be base names.
    fn names_with(&self, alloc: Global, scope: &Name) -> Result<Option<LabelGraph>, NoMemory>
        ensures { IfOk result (λ names. MatchOption names (AreSame (widened self.now.config scope.now) (ground_of self.now.config))
            (AreBaseNamesOf (widened self.now.config scope.now))) }
    {
        let hosts = self.queries.hosts();
        if has_name(hosts, scope) {
            return Ok(None);
        }
        let names = joint_base_graph(alloc, slice::from_ref(&hosts), &[scope])?;
        Ok(Some(names))
    }
}

/// Whether the name exists in a zone in which some server looks it up. Then it is a base name.
fn has_name(hosts: &Hosts<'_>, name: &Name) -> bool
    ensures { result ≡ true → Contains (ground_of hosts.now).names name.now }
{
    for host in hosts.in_order() {
        if exists_at(hosts, host.name(), name) {
            return true;
        }
    }
    false
}

/// Whether the name exists in the zone in which the server of this name looks it up. Then it is a base name.
fn exists_at(hosts: &Hosts<'_>, server: &Name, name: &Name) -> bool
    ensures { result ≡ true → Contains (ground_of hosts.now).names name.now }
{
    match hosts.nearest_of(server, name) {
        Some(tree) => tree.node_at(name).is_some(),
        None => false,
    }
}
