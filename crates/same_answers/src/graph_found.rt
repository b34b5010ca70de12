//! The graphs of a query in two configurations, and what they tell of it.

ghost use Rattle.std.specs.Prelude.{◌≡◌, not, IfOk};
ghost use Rattle.std.specs.List.{find};
ghost use Rattle.dns_data.specs.RrType.{types};
ghost use Rattle.same_answers.specs.Ends.{graphs_alike, graphs_end};
ghost use Rattle.same_answers.specs.GraphFound.{IsGraphFound, end_by_graphs};

use crate::ends::{is_bounded, leaves_of};
use crate::outcomes::are_alike;
use crate::verdict::PairEnd;
use dns_data::{Name, NoMemory, RrType};
use graph_form::Graph;
use interp_graph::GraphFault;
use query_verdicts::QueryGraphs;
use std::alloc::Global;

/// What is found of a query in one configuration.
#[derive(Drop)]
pub(crate) enum GraphFound {
    /// It reaches more pairs of state and type than are looked at.
    Passed,
    /// The name of some server does.
    Unlearnt,
    /// The graph of its walks.
    Walks(Graph),
}

/// What is found of a query in the configuration of these graphs.
pub(crate) fn found_in(graphs: &QueryGraphs<'_>, query: &Name) -> Result<GraphFound, NoMemory>
    ensures { IfOk result (IsGraphFound graphs.now query.now) }
{
    match graphs.graph(query) {
        Ok(Some(graph)) => match graphs.sets() {
            Ok(_) => Ok(GraphFound::Walks(graph)),
            Err(_) => Ok(GraphFound::Unlearnt),
        },
        Ok(None) => Ok(GraphFound::Unlearnt),
        Err(GraphFault::StatesPassed) => Ok(GraphFound::Passed),
        Err(GraphFault::NoMemory) => Err(NoMemory),
    }
}

/// The verdict of a class by what is found of its representative in both configurations.
pub(crate) fn end_by_graphs(
    alloc: Global,
    first: &GraphFound,
    second: &GraphFound,
) -> Result<PairEnd, NoMemory>
    ensures { IfOk result (λ end. end ≡ end_by_graphs first.now second.now) }
{
    match (first, second) {
        (GraphFound::Passed, _) | (_, GraphFound::Passed) => Ok(PairEnd::StatesPassed),
        (GraphFound::Unlearnt, _) | (_, GraphFound::Unlearnt) => Ok(PairEnd::Equal),
        (GraphFound::Walks(first), GraphFound::Walks(second)) => graphs_end(alloc, first, second),
    }
}

/// The verdict by the graphs of its walks.
fn graphs_end(alloc: Global, first: &Graph, second: &Graph) -> Result<PairEnd, NoMemory>
    ensures { IfOk result (λ end. end ≡ graphs_end first.now second.now) }
{
    if !is_bounded(first) || !is_bounded(second) {
        return Ok(PairEnd::Unbounded);
    }
    match first_apart(alloc, first, second)? {
        Some(rtype) => Ok(PairEnd::Apart(rtype)),
        None => Ok(PairEnd::Equal),
    }
}

/// The first type with which the outcomes of the graphs differ, or `None`.
fn first_apart(alloc: Global, first: &Graph, second: &Graph) -> Result<Option<RrType>, NoMemory>
    ensures { IfOk result (λ found. found ≡ find (λ rtype. not (graphs_alike first.now second.now rtype)) types) }
{
    for rtype in RrType::ALL.iter() {
        if !graphs_alike(alloc, first, second, *rtype)? {
            return Ok(Some(*rtype));
        }
    }
    Ok(None)
}

/// Whether the graphs have the same outcomes with the type.
fn graphs_alike<'g>(
    alloc: Global,
    first: &'g Graph,
    second: &'g Graph,
    rtype: RrType,
) -> Result<bool, NoMemory>
    ensures { IfOk result (λ alike. alike ≡ graphs_alike first.now second.now rtype) }
{
    let of_first = leaves_of(alloc, first, rtype)?;
    let of_second = leaves_of(alloc, second, rtype)?;
    are_alike(alloc, of_first.as_slice(), of_second.as_slice())
}
