//! The graphs and the verdicts of the queries of a configuration.

ghost use Rattle.std.specs.Prelude.{◌≡◌, true, IfOk, IfErr, IfSome, OnOk, IsErrOf, MatchOption};
ghost use Rattle.query_verdicts.specs.OnlyWalk.{IsOnlyOfLeast};
ghost use Rattle.query_verdicts.specs.Passed.{IsFirstServerPassed};
ghost use Rattle.query_verdicts.specs.Queries.{AreSets, AreStraightEnds, IsLeastGraph, IsOwnClass, WalksLike, limited_to};
ghost use Rattle.query_verdicts.specs.Verdict.{IsClassVerdict, PassesStates, SomeServerPasses};
ghost use Rattle.straight_walks.specs.Straight.{NoOriginBelow};

use crate::alike::like_of;
use crate::learnt::{Learnt, learnt_of};
use crate::only_walk::only_walk;
use crate::own_class::OwnClass;
use crate::queries::{Queries, graph_of};
use crate::verdict::ClassVerdict;
use crate::verdicts::{graph_in_least, verdict_alone, verdict_with};
use dns_data::{Name, NoMemory, RrType};
use graph_form::Graph;
use interp_graph::GraphFault;
use net_model::{Config, Walk};
use std::alloc::Global;
use std::marker::Model;
use straight_walks::{StraightEnds, straight_ends};
use zone_lookup::{Hosts, LearntSets, Walker};

/// The queries of a configuration, with what is learnt of it once: the trees of all zones, the two sets of learnt
/// addresses and the regions of names. Contracts see the configuration and the limits of its queries.
#[derive(Drop)]
pub struct QueryGraphs<'a> {
    queries: Queries<'a>,
    learnt: Result<Learnt<'a>, Name>,
}

impl<'a> Model for QueryGraphs<'a> {
    ghost use Rattle.query_verdicts.specs.Learnt.{IsLearntOf, limited};
    ghost use Rattle.query_verdicts.specs.Queries.{LimitedQueries};

    ghost Value = { LimitedQueries };

    ghost view = { λ graphs. limited graphs.queries };

    ghost invariant = { λ graphs. IsLearntOf graphs.queries.trees graphs.queries.rewrites graphs.queries.states graphs.learnt };
}

impl<'a> QueryGraphs<'a> {
    /// The queries of a configuration, each of which may use this many rewrites, and of each of which no more pairs of
    /// state and type are looked at than the limit. The trees of all zones, the graph of each server's name and the
    /// regions of names are made here, once.
    pub fn prepare(
        alloc: Global,
        config: &'a Config,
        rewrites: u32,
        states: u32,
    ) -> Result<QueryGraphs<'a>, NoMemory>
        ensures { IfOk result (λ graphs. graphs ≡ limited_to config.now rewrites states) }
    {
        let queries = Queries {
            alloc,
            trees: Hosts::build(alloc, config)?,
            rewrites,
            states,
        };
        let learnt = learnt_of(&queries)?;
        Ok(QueryGraphs { queries, learnt })
    }

    /// The two sets of learnt addresses, or the name of the first configured server that reaches more pairs of state
    /// and type than are looked at.
    pub fn sets(&self) -> Result<&LearntSets, &Name>
        ensures sets { IfOk result (λ sets. AreSets self.now.config self.now.rewrites self.now.states sets.now) }
        ensures passed { IfErr result (λ server. IsFirstServerPassed self.now.config self.now.rewrites self.now.states server.now) }
    {
        match &self.learnt {
            Ok(learnt) => Ok(&learnt.sets),
            Err(server) => Err(server),
        }
    }

    /// The graph of the walks of a query while the servers of the least set of learnt addresses are followed, or `None`
    /// where the name of some server reaches more pairs of state and type than are looked at, so that there is no such
    /// set. It is `StatesPassed` where the query reaches more.
    pub fn graph(&self, query: &Name) -> Result<Option<Graph>, GraphFault>
        ensures graph { IfOk result (λ found. MatchOption found (SomeServerPasses self.now.config self.now.rewrites self.now.states)
            (IsLeastGraph self.now.config self.now.rewrites query.now)) }
        ensures few { OnOk result (PassesStates self.now.config self.now.rewrites self.now.states query.now → ⊥) }
        ensures passed { IsErrOf result GraphFault.StatesPassed → PassesStates self.now.config self.now.rewrites self.now.states query.now }
    {
        let graph = graph_of(&self.queries, query)?;
        match &self.learnt {
            Ok(learnt) => {
                let limited = graph_in_least(&self.queries, learnt, graph)?;
                Ok(Some(limited))
            }
            Err(_) => Ok(None),
        }
    }

    /// The walk of a query with a type while the servers of the least set of learnt addresses are followed, where it is
    /// seen without a graph that there is no other.
    pub(crate) fn only_walk(&self, query: &Name, rtype: RrType) -> Result<Option<Walk>, NoMemory>
        ensures { IfOk result (λ found. IfSome found (IsOnlyOfLeast self.now.config self.now.rewrites query.now rtype)) }
    {
        match &self.learnt {
            Ok(learnt) => {
                let walker = Walker::following_least(
                    &self.queries.trees,
                    self.queries.rewrites,
                    &learnt.sets,
                );
                only_walk(self.queries.alloc, &walker, query, rtype)
            }
            Err(_) => Ok(None),
        }
    }

    /// What the walks of a query end in while the servers of the least set of learnt addresses are followed, where they
    /// are seen to go straight there without a graph, or `None`. The query shows the faults that the ends tell then, and
    /// no others; so does a name below it with no origin of a zone between, where these are its ends too, and the query
    /// with any unnamed tail, where its ends are known too. The query's region is looked for near a place first, whatever
    /// that is, and the place is left near which that of the next query may be looked for.
    pub fn straight_ends(
        &self,
        near: &mut usize,
        query: &Name,
    ) -> Result<Option<StraightEnds<'_, 'a>>, NoMemory>
        ensures { IfOk result (λ found. IfSome found (AreStraightEnds self.now.config self.now.rewrites self.now.states query.now)) }
    {
        match &self.learnt {
            Ok(learnt) => straight_ends(
                self.queries.alloc,
                &self.queries.trees,
                &learnt.sets,
                &learnt.table,
                &learnt.regions,
                near,
                query,
                self.queries.rewrites,
                self.queries.states,
            ),
            Err(_) => Ok(None),
        }
    }

    /// Whether no server has a zone with an origin below the name, where that is seen near a place: the one near which the
    /// walks of this name were looked for last.
    pub(crate) fn no_origin_below(&self, near: usize, name: &Name) -> bool
        ensures { result ≡ true → NoOriginBelow self.now.config name.now }
    {
        match &self.learnt {
            Ok(learnt) => learnt.regions.none_below(near, name),
            Err(_) => false,
        }
    }

    /// A name as which the query walks, where one is known: their walks end alike, whichever servers are followed. It is
    /// the same one for many queries, so that one graph of it may serve for all of them.
    pub fn walks_as(&self, query: &Name) -> Option<&Name>
        ensures { IfSome result (λ like. WalksLike self.now like.now query.now) }
    {
        match &self.learnt {
            Ok(learnt) => like_of(learnt.alike.items(), query),
            Err(_) => None,
        }
    }

    /// The verdict of a query, by a graph of its walks or by what is known of all names below one: the faults that it
    /// shows, or that it reaches more pairs of state and type than are looked at. Where the name of some server does, no
    /// fault is looked for.
    pub fn verdict(&self, own: &OwnClass<'_>, query: &Name) -> Result<ClassVerdict, NoMemory>
        requires { IsOwnClass self.now.config own.now query.now }
        ensures { IfOk result (IsClassVerdict self.now.config self.now.rewrites self.now.states query.now) }
    {
        match &self.learnt {
            Ok(learnt) => verdict_with(&self.queries, learnt, own, query),
            Err(_) => verdict_alone(&self.queries, query),
        }
    }

    /// How many rewrites a query may use.
    pub(crate) fn rewrites(&self) -> u32
        ensures { result ≡ self.now.rewrites }
    {
        self.queries.rewrites
    }

    /// The servers of the configuration with the trees of their zones.
    pub fn hosts(&self) -> &Hosts<'a>
        ensures { result.now ≡ self.now.config }
    {
        &self.queries.trees
    }
}
