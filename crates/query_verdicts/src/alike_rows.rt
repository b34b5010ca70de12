//! The names below which all names are seen to show the same faults.

ghost use Rattle.std.specs.Prelude.{◌≡◌, ◌∷◌, ◌++◌, [], IfOk, IfSome};
ghost use Rattle.std.specs.List.{list_all};
ghost use Rattle.interp_graph.specs.Asked.{IsBuilt};
ghost use Rattle.net_model.specs.Reading.{ground_of};
ghost use Rattle.query_classes.specs.TreeNames.{AreBaseNamesOf};
ghost use Rattle.query_verdicts.specs.AlikeBelow.{AreAlikeBelow, IsAlikeBelow};
ghost use Rattle.query_verdicts.specs.Learnt.{IsRightLearnt};
ghost use Rattle.query_verdicts.specs.Verdict.{PassesStates};
ghost use Rattle.walk_laws.specs.OfWalks.{is_of_walks};

use crate::alike::AlikeBelow;
use crate::learnt::Learnt;
use crate::open_graph::{goes_straight, open_octets};
use crate::own_class::OwnClass;
use crate::queries::{Queries, graph_of};
use crate::verdicts::faults_of;
use base_names::base_graph;
use dns_data::{JoinFault, Label, List, Name, NoMemory};
use graph_form::{Graph, Seen};
use interp_graph::GraphFault;
use label_graph::LabelGraph;
use net_model::Fault;
use std::alloc::Global;
use std::collections::BTreeSet;
use zone_lookup::{Host, Hosts};
use zone_tree::Tree;

/// How many names the zones have for each one that is redirected, where a graph is made for each redirected one.
const MANY: usize = 16;

/// What is seen of the names below redirected ones, where the zones have many more names than these.
pub(crate) fn alike_rows<'h, 'a>(
    queries: &'h Queries<'a>,
    learnt: &'h Learnt<'a>,
) -> Result<List<AlikeBelow>, NoMemory>
    requires { IsRightLearnt queries.now.trees queries.now.rewrites queries.now.states learnt.now }
    ensures { IfOk result (AreAlikeBelow queries.now.trees queries.now.rewrites queries.now.states) }
{
    let redirected = few_redirected(queries.alloc, &queries.trees)?;
    if redirected.is_empty() {
        return Ok(List::new(queries.alloc));
    }
    let names = base_graph(queries.alloc, &queries.trees)?;
    rows_below(queries, learnt, &names, redirected.as_slice())
}

/// What is seen of the names below each of these names, which stand in order. Of one below another's name nothing is seen
/// by itself.
fn rows_below<'h, 'a>(
    queries: &'h Queries<'a>,
    learnt: &'h Learnt<'a>,
    names: &LabelGraph,
    redirected: &[&Name],
) -> Result<List<AlikeBelow>, NoMemory>
    requires learnt { IsRightLearnt queries.now.trees queries.now.rewrites queries.now.states learnt.now }
    requires names { AreBaseNamesOf (ground_of queries.now.trees) names.now }
    ensures { IfOk result (AreAlikeBelow queries.now.trees queries.now.rewrites queries.now.states) }
{
    let mut rows = List::new(queries.alloc);
    for above in redirected {
        if has_above(rows.items(), above) {
            continue;
        }
        if let Some(row) = row_below(queries, learnt, names, above)? {
            rows.push(row)?;
        }
    }
    Ok(rows)
}

/// Whether the last of these is of a name at or above this one.
fn has_above(rows: &[AlikeBelow], name: &Name) -> bool {
    match rows.last() {
        Some(row) => row.above.is_prefix_of(name),
        None => false,
    }
}

/// What is seen of the names below one, or `None` where they aren't seen to show the same faults, or where the walks of one
/// of them go straight, so that nothing is saved.
fn row_below<'h, 'a>(
    queries: &'h Queries<'a>,
    learnt: &'h Learnt<'a>,
    names: &LabelGraph,
    above: &Name,
) -> Result<Option<AlikeBelow>, NoMemory>
    requires learnt { IsRightLearnt queries.now.trees queries.now.rewrites queries.now.states learnt.now }
    requires names { AreBaseNamesOf (ground_of queries.now.trees) names.now }
    ensures { IfOk result (λ found. IfSome found (IsAlikeBelow queries.now.trees queries.now.rewrites queries.now.states)) }
{
    // Any label does: where it makes no difference another one makes none.
    let label = Label::with_octets(queries.alloc, b"a")?;
    let mut query = above.copy(queries.alloc)?;
    match query.push(queries.alloc, &label) {
        Ok(()) => {}
        Err(JoinFault::TooLong) => return Ok(None),
        Err(JoinFault::NoMemory) => return Err(NoMemory),
    }
    let mut near = 0;
    if goes_straight(queries, learnt, &mut near, &query)? {
        return Ok(None);
    }
    match graph_of(queries, &query) {
        Ok(graph) => row_of(queries, learnt, names, above, &label, &query, graph),
        Err(GraphFault::StatesPassed) => Ok(None),
        Err(GraphFault::NoMemory) => Err(NoMemory),
    }
}

/// What is seen of the names below one in the graph of it with the label, or `None` where the label makes a difference.
fn row_of<'h, 'a>(
    queries: &'h Queries<'a>,
    learnt: &'h Learnt<'a>,
    names: &LabelGraph,
    above: &Name,
    label: &Label,
    query: &Name,
    graph: Graph,
) -> Result<Option<AlikeBelow>, NoMemory>
    requires learnt { IsRightLearnt queries.now.trees queries.now.rewrites queries.now.states learnt.now }
    requires names { AreBaseNamesOf (ground_of queries.now.trees) names.now }
    requires query { query.now ≡ above.now ++ label.now ∷ [] }
    requires built { IsBuilt queries.now.trees queries.now.rewrites query.now graph }
    requires few { PassesStates queries.now.trees queries.now.rewrites queries.now.states query.now → ⊥ }
    ensures { IfOk result (λ found. IfSome found (IsAlikeBelow queries.now.trees queries.now.rewrites queries.now.states)) }
{
    let Some(most) = open_octets(queries, learnt, label, &graph)? else {
        return Ok(None);
    };
    let shown = faults_of(queries, learnt, &OwnClass::Asked(names), query, graph)?;
    if !are_of_walks(shown.items()) {
        return Ok(None);
    }
    // The labels are read, so that it is known here that they are those of a name.
    let _ = query.labels();
    Ok(Some(AlikeBelow {
        above: above.copy(queries.alloc)?,
        like: query.copy(queries.alloc)?,
        octets: 255 + above.octets() - most,
        shown,
    }))
}

/// Whether none of the faults is a class's or its representative's alone.
fn are_of_walks(shown: &[Seen]) -> bool
    ensures { result ≡ list_all (λ seen. is_of_walks seen.fault) shown.now }
{
    shown.iter().all(|seen| is_of_walks(&seen.fault))
}

/// Whether the fault isn't.
fn is_of_walks(fault: &Fault) -> bool
    ensures { result ≡ is_of_walks fault.now }
{
    !matches!(fault, Fault::Answers(..) | Fault::Overlong(_))
}

/// The redirected names, those that own a DNAME record, or none where the zones have less than so many names for each of
/// them. No meaning rests on it.
fn few_redirected<'h>(alloc: Global, hosts: &'h Hosts<'_>) -> Result<Vec<&'h Name>, NoMemory> {
    let mut redirected = BTreeSet::new(alloc);
    let mut names = 0;
    for host in hosts.in_order() {
        put_redirected_at(host, &mut names, &mut redirected)?;
    }
    if redirected.len() > names / MANY {
        return Ok(Vec::new(alloc));
    }
    Ok(redirected.into_iter().collect(alloc)?)
}

/// Puts the redirected names of a server's zones, and adds how many names these have.
fn put_redirected_at<'h>(
    host: &'h Host<'_>,
    names: &mut usize,
    redirected: &mut BTreeSet<&'h Name>,
) -> Result<(), NoMemory> {
    for tree in host.in_order() {
        *names = names.saturating_add(tree.names().len());
        put_redirected(tree, redirected)?;
    }
    Ok(())
}

/// Puts the redirected names of a zone.
fn put_redirected<'h>(
    tree: &'h Tree<'_>,
    redirected: &mut BTreeSet<&'h Name>,
) -> Result<(), NoMemory> {
    for place in 0..tree.names().len() {
        if let Some(node) = tree.node_in(place) {
            if tree.redirection(node).is_some() {
                redirected.insert(tree.name(node))?;
            }
        }
    }
    Ok(())
}
