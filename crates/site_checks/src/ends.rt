//! The ends of the walks of a query, found without listing walks.

ghost use Rattle.std.specs.Prelude.{◌≡◌, ◌<◌, ◌++◌, length, map, IfOk, OnOk};
ghost use Rattle.std.specs.List.{AllByRecursion, flat_map, fold};
ghost use Rattle.dns_data.specs.Name.{Labels};
ghost use Rattle.dns_data.specs.RrType.{types};
ghost use Rattle.graph_form.specs.GraphOf.{IsGraphOf};
ghost use Rattle.net_model.specs.Step.{Setting};
ghost use Rattle.site_checks.specs.Ends.{AreEnds, end_eq, typed_end};
ghost use Rattle.site_checks.specs.AlikeEnds.{AreAlikeEnds, retyped};
ghost use Rattle.site_checks.specs.Once.{with_new};
ghost use Rattle.site_checks.specs.PathEnds.{AreDone, IsMet, ends_from, ends_with, once_with};

use crate::alike::{AlikeEnds, of_type, put_again, types_as};
use crate::end_set::EndSet;
use crate::views::{TypedEnd, View};
use dns_data::{Boxed, List, Name, NoMemory, RrType};
use graph_form::{Branch, Graph, Node};
use net_model::{Class, Leaf};
use std::alloc::Global;

/// The view of a class for which the query stands, from the graph of the query's walks. Each node of the graph is passed
/// over once for each type that comes to it, however many walks go through it.
pub fn view(alloc: Global, class: &Class, query: &Name, graph: &Graph) -> Result<View, NoMemory>
    requires of_query { (setting : Setting) × IsGraphOf setting query.now graph.now }
    ensures class { IfOk result (λ view. view.class ≡ class.now) }
    ensures query { IfOk result (λ view. view.query ≡ query.now) }
    ensures ends { (setting : Setting) → IsGraphOf setting query.now graph.now → IfOk result (λ view. AreEnds setting query.now view.ends) }
{
    Ok(View {
        class: class.copy(alloc)?,
        query: query.copy(alloc)?,
        ends: ends_of(alloc, graph)?,
    })
}

/// The ends of all paths of the graph, type by type, each once and where it comes first. They are searched for once for
/// the types that go the same way everywhere.
fn ends_of(alloc: Global, graph: &Graph) -> Result<List<TypedEnd>, NoMemory>
    requires of_query { (setting : Setting) × (query : Labels) × IsGraphOf setting query graph.now }
    ensures { IfOk result (λ ends. ends ≡ flat_map (once_with graph.now) types) }
{
    let mut known = List::new(alloc);
    let mut ends = List::new(alloc);
    for rtype in RrType::ALL.iter() {
        put_type(alloc, graph, *rtype, &mut known, &mut ends)?;
    }
    Ok(ends)
}

/// Puts the ends of all paths with the type behind the others, each once and where it comes first. They are those of
/// another type where it is known that this goes the same way; else they are known from now on.
fn put_type(
    alloc: Global,
    graph: &Graph,
    rtype: RrType,
    known: &mut List<AlikeEnds>,
    ends: &mut List<TypedEnd>,
) -> Result<(), NoMemory>
    requires of_query { (setting : Setting) × (query : Labels) × IsGraphOf setting query graph.now }
    requires known { AllByRecursion (AreAlikeEnds graph.now) known.old }
    ensures known { OnOk result (AllByRecursion (AreAlikeEnds graph.now) known.new) }
    ensures ends { OnOk result (ends.new ≡ ends.old ++ once_with graph.now rtype) }
{
    if let Some(alike) = of_type(known.items(), rtype) {
        return put_again(alloc, alike.ends.items(), rtype, ends);
    }
    put_first(alloc, graph, rtype, known, ends)
}

/// Puts the ends of all paths with the type behind the others, each once and where it comes first. They are searched for,
/// and are known from now on.
fn put_first(
    alloc: Global,
    graph: &Graph,
    rtype: RrType,
    known: &mut List<AlikeEnds>,
    ends: &mut List<TypedEnd>,
) -> Result<(), NoMemory>
    requires of_query { (setting : Setting) × (query : Labels) × IsGraphOf setting query graph.now }
    requires known { AllByRecursion (AreAlikeEnds graph.now) known.old }
    ensures known { OnOk result (AllByRecursion (AreAlikeEnds graph.now) known.new) }
    ensures ends { OnOk result (ends.new ≡ ends.old ++ once_with graph.now rtype) }
{
    let alike = alike_ends(alloc, graph, rtype)?;
    put_again(alloc, alike.ends.items(), rtype, ends)?;
    known.push(alike)
}

/// The ends of all paths with the type, with the types that go the same way everywhere.
fn alike_ends(alloc: Global, graph: &Graph, rtype: RrType) -> Result<AlikeEnds, NoMemory>
    requires of_query { (setting : Setting) × (query : Labels) × IsGraphOf setting query graph.now }
    ensures alike { IfOk result (AreAlikeEnds graph.now) }
    ensures own { IfOk result (λ alike. map (retyped rtype) alike.ends ≡ once_with graph.now rtype) }
{
    let mut ends = EndSet::new(alloc);
    put_ends_with(alloc, graph, rtype, &mut ends)?;
    Ok(AlikeEnds {
        types: types_as(graph, rtype),
        ends: ends.into_list(),
    })
}

/// Puts the ends of all paths with the type behind the others, in order, each unless it is there.
fn put_ends_with(
    alloc: Global,
    graph: &Graph,
    rtype: RrType,
    ends: &mut EndSet,
) -> Result<(), NoMemory>
    requires of_query { (setting : Setting) × (query : Labels) × IsGraphOf setting query graph.now }
    ensures { OnOk result (ends.new ≡ fold (with_new end_eq) ends.old (ends_with graph.now rtype)) }
{
    let mut marks = vec![in alloc; false; graph.nodes() as usize]?;
    let done = marks.as_mut_slice();
    for at in graph.starts() {
        put_ends_from(alloc, graph, rtype, *at, done, ends)?;
    }
    Ok(())
}

/// Puts the ends of all paths from a node behind the others, in order, each unless it is there. A node that is done leads
/// to ends that are there. Each node from which a path goes on has a state behind this one's, so the calls end.
fn put_ends_from(
    alloc: Global,
    graph: &Graph,
    rtype: RrType,
    at: u32,
    done: &mut [bool],
    ends: &mut EndSet,
) -> Result<(), NoMemory>
    requires met { IsMet graph.now at }
    requires at { at < length graph.now.nodes }
    requires room { length done.old ≡ length graph.now.nodes }
    requires done { AreDone graph.now rtype done.old ends.old }
    ensures ends { OnOk result (ends.new ≡ fold (with_new end_eq) ends.old (ends_from graph.now rtype at)) }
    ensures done { OnOk result (AreDone graph.now rtype done.new ends.new) }
    ensures room { length done.new ≡ length graph.now.nodes }
{
    if done[at as usize] {
        return Ok(());
    }
    let node = graph.node(at);
    for branch in node.branches(rtype) {
        match branch {
            Branch::Go { hop: _, to } => put_ends_from(alloc, graph, rtype, *to, done, ends)?,
            Branch::End { hop: _, leaf } => put_end(alloc, rtype, node, leaf, ends)?,
        }
    }
    done[at as usize] = true;
    Ok(())
}

/// Puts an end of a node's walks behind the others, unless it is there.
fn put_end(
    alloc: Global,
    rtype: RrType,
    node: &Node,
    leaf: &Boxed<Leaf>,
    ends: &mut EndSet,
) -> Result<(), NoMemory>
    ensures { OnOk result (ends.new ≡ with_new end_eq ends.old (typed_end rtype node.now.state.server leaf.now)) }
{
    ends.put(alloc, rtype, &node.state.get().server, leaf.get())
}
