//! The verdict of a query: the graph of its walks, and the faults that these show.

ghost use Rattle.std.specs.Prelude.{◌≡◌, ◌++◌, true, ℕ, AllPairs, IfOk};
ghost use Rattle.std.specs.declared.cmp.Ordering.TheVariants.{Less};
ghost use Rattle.query_verdicts.specs.Learnt.{IsRightLearnt};
ghost use Rattle.query_verdicts.specs.Queries.{IsOwnClass};
ghost use Rattle.query_verdicts.specs.Verdict.{AreFaultsOf, IsClassVerdict, SomeServerPasses};
ghost use Rattle.dns_data.specs.Name.{Labels};
ghost use Rattle.graph_form.specs.GraphOf.{IsExactIn, IsGraphOf};
ghost use Rattle.graph_form.specs.Verdict.{AreFirstTypes, AreShownOf};
ghost use Rattle.interp_graph.specs.Asked.{IsBuilt};
ghost use Rattle.net_model.specs.FaultOrder.{fault_cmp};
ghost use Rattle.net_model.specs.Learnt.{IsLeast, IsGreatest};
ghost use Rattle.net_model.specs.Shown.{with_sets};
ghost use Rattle.net_model.specs.Step.{following};
ghost use Rattle.rewrite_checks.specs.Rewrites.{IsGraphFor};
ghost use Rattle.zone_lookup.specs.CutTable.{IsTableOf};

use crate::alike::verdict_alike;
use crate::learnt::Learnt;
use crate::own_class::{OwnClass, represents};
use crate::queries::{Queries, graph_of};
use crate::verdict::ClassVerdict;
use delegation_checks::delegation_faults_with;
use dns_data::{List, Name, NoMemory};
use graph_form::{Graph, Seen, first_types};
use interp_graph::{GraphFault, restrict};
use net_model::Class;
use query_classes::class_of;
use rewrite_checks::rewrite_faults;
use std::alloc::Global;

/// The verdict of a query, with what is learnt of its configuration: what is known of all names below one, or else by a
/// graph of its walks.
pub(crate) fn verdict_with(
    queries: &Queries<'_>,
    learnt: &Learnt<'_>,
    own: &OwnClass<'_>,
    query: &Name,
) -> Result<ClassVerdict, NoMemory>
    requires learnt { IsRightLearnt queries.now.trees queries.now.rewrites queries.now.states learnt.now }
    requires own { IsOwnClass queries.now.trees own.now query.now }
    ensures { IfOk result (IsClassVerdict queries.now.trees queries.now.rewrites queries.now.states query.now) }
{
    match verdict_alike(queries.alloc, learnt.alike.items(), query)? {
        Some(verdict) => Ok(verdict),
        None => verdict_by_graph(queries, learnt, own, query),
    }
}

/// The verdict of a query by a graph of its walks, with what is learnt of its configuration.
fn verdict_by_graph(
    queries: &Queries<'_>,
    learnt: &Learnt<'_>,
    own: &OwnClass<'_>,
    query: &Name,
) -> Result<ClassVerdict, NoMemory>
    requires learnt { IsRightLearnt queries.now.trees queries.now.rewrites queries.now.states learnt.now }
    requires own { IsOwnClass queries.now.trees own.now query.now }
    ensures { IfOk result (IsClassVerdict queries.now.trees queries.now.rewrites queries.now.states query.now) }
{
    match graph_of(queries, query) {
        Ok(graph) => {
            let shown = faults_of(queries, learnt, own, query, graph)?;
            Ok(ClassVerdict::Faults(shown))
        }
        Err(GraphFault::StatesPassed) => Ok(ClassVerdict::StatesPassed),
        Err(GraphFault::NoMemory) => Err(NoMemory),
    }
}

/// The verdict of a query where the name of some server reaches too many pairs of state and type: no fault is looked for.
#[tactic(auto, using(crate::proofs::ClassesJudged::none_sought))]
pub(crate) fn verdict_alone(queries: &Queries<'_>, query: &Name) -> Result<ClassVerdict, NoMemory>
    requires { SomeServerPasses queries.now.trees queries.now.rewrites queries.now.states }
    ensures { IfOk result (IsClassVerdict queries.now.trees queries.now.rewrites queries.now.states query.now) }
{
    match graph_of(queries, query) {
        Ok(_) => Ok(ClassVerdict::Faults(List::new(queries.alloc))),
        Err(GraphFault::StatesPassed) => Ok(ClassVerdict::StatesPassed),
        Err(GraphFault::NoMemory) => Err(NoMemory),
    }
}

/// The faults that a query shows, in fault order, each with its first type. The graph is that of its walks while every
/// configured server is followed.
pub(crate) fn faults_of(
    queries: &Queries<'_>,
    learnt: &Learnt<'_>,
    own: &OwnClass<'_>,
    query: &Name,
    graph: Graph,
) -> Result<List<Seen>, NoMemory>
    requires learnt { IsRightLearnt queries.now.trees queries.now.rewrites queries.now.states learnt.now }
    requires own { IsOwnClass queries.now.trees own.now query.now }
    requires built { IsBuilt queries.now.trees queries.now.rewrites query.now graph }
    ensures { IfOk result (AreFaultsOf queries.now.trees queries.now.rewrites queries.now.states query.now) }
{
    let limited = graph_in_least(queries, learnt, graph)?;
    match own {
        OwnClass::Represents(class) => shown_in(queries, learnt, class, true, &limited),
        OwnClass::Asked(names) => {
            let class = class_of(queries.alloc, names, query)?;
            let represents = represents(queries.alloc, names, &class, query)?;
            shown_in(queries, learnt, &class, represents, &limited)
        }
    }
}

/// The faults that the query of a graph shows, in fault order, each with its first type. The graph is that of its walks
/// while the servers of the least set are followed; the class is the query's own, and it is told whether the query
/// represents it.
fn shown_in(
    queries: &Queries<'_>,
    learnt: &Learnt<'_>,
    class: &Class,
    represents: bool,
    graph: &Graph,
) -> Result<List<Seen>, NoMemory>
    requires { IsTableOf queries.now.trees learnt.now.sets learnt.now.table }
    ensures { IfOk result (λ shown. (rewrites : ℕ) (query : Labels) → IsLeast queries.now.trees rewrites learnt.now.sets.least → IsGreatest queries.now.trees rewrites learnt.now.sets.greatest
        → IsGraphFor (following queries.now.trees rewrites learnt.now.sets.least) query class.now represents graph.now
        → AreShownOf (with_sets (following queries.now.trees rewrites learnt.now.sets.least)) query (λ fault. true) shown) }
{
    let alloc = queries.alloc;
    let of_rewrites = rewrite_faults(alloc, class, represents, graph)?;
    let of_delegations = delegation_faults_with(
        alloc,
        &queries.trees,
        &learnt.sets,
        &learnt.table,
        graph,
    )?;
    // Named, since the proof speaks of the list that comes where memory suffices.
    let shown = first_of_both(alloc, of_rewrites, of_delegations)?;
    Ok(shown)
}

/// The first type of each fault of both lists, in fault order, where each list has its faults once and in this order. It
/// takes no time where one of them is empty.
fn first_of_both(alloc: Global, one: List<Seen>, other: List<Seen>) -> Result<List<Seen>, NoMemory>
    ensures { IfOk result (λ shown. AllPairs (λ a b. fault_cmp a.fault b.fault ≡ Less) one → AllPairs (λ a b. fault_cmp a.fault b.fault ≡ Less) other
        → AreFirstTypes (one ++ other) shown) }
{
    if one.is_empty() {
        return Ok(other);
    }
    if other.is_empty() {
        return Ok(one);
    }
    let all = joined(one, other)?;
    // Named, since the proof speaks of the list that comes where memory suffices.
    let shown = first_types(alloc, all)?;
    Ok(shown)
}

/// The graph of a query's walks while the servers of the least set are followed, from that of its walks while every
/// configured server is. Where every configured server may be followed with the least set it is the same graph.
pub(crate) fn graph_in_least(
    queries: &Queries<'_>,
    learnt: &Learnt<'_>,
    graph: Graph,
) -> Result<Graph, NoMemory>
    requires learnt { IsRightLearnt queries.now.trees queries.now.rewrites queries.now.states learnt.now }
    requires built { (query : Labels) × IsBuilt queries.now.trees queries.now.rewrites query graph }
    ensures graph { IfOk result (λ limited. (query : Labels) → IsBuilt queries.now.trees queries.now.rewrites query graph
        → IsGraphOf (following queries.now.trees queries.now.rewrites learnt.now.sets.least) query limited) }
    ensures exact { IfOk result (λ limited. (query : Labels) → IsBuilt queries.now.trees queries.now.rewrites query graph
        → IsExactIn (following queries.now.trees queries.now.rewrites learnt.now.sets.least) query limited) }
{
    if learnt.all_followed {
        return Ok(graph);
    }
    let least = &learnt.sets.deps().least;
    restrict(queries.alloc, &queries.trees, &graph, least.items())
}

/// The items of the one list, and then those of the other.
fn joined(mut all: List<Seen>, others: List<Seen>) -> Result<List<Seen>, NoMemory>
    ensures { IfOk result (λ joined. joined ≡ all ++ others) }
{
    for seen in others {
        all.push(seen)?;
    }
    Ok(all)
}
