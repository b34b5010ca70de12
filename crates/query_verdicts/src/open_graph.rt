//! Whether the walks of a query come to servers alone that know nothing of its last label.

ghost use Rattle.std.specs.Prelude.{◌≡◌, ◌≤◌, ℕ, true, IfOk, IfSome, Some};
ghost use Rattle.std.specs.List.{list_any};
ghost use Rattle.dns_data.specs.Name.{is_prefix};
ghost use Rattle.net_model.specs.Nearest.{nearest_of};
ghost use Rattle.net_model.specs.declared.config.Config.{Config};
ghost use Rattle.net_model.specs.declared.config.Zone.{Zone};
ghost use Rattle.query_verdicts.specs.AlikeBelow.{HasNoneBelow, IsAboveLabel, IsOpenGraph, IsOpenNode, IsOpenState, has_overlong};
ghost use Rattle.graph_form.specs.EndFaults.{is_overlong_end};
ghost use Rattle.query_verdicts.specs.Learnt.{IsRightLearnt};
ghost use Rattle.straight_walks.specs.Straight.{NoOriginBelow};

use crate::learnt::Learnt;
use crate::queries::Queries;
use dns_data::{JoinFault, Label, Name, NoMemory};
use graph_form::{Arm, Graph, Node, is_overlong_end};
use net_model::State;
use std::alloc::Global;
use straight_walks::straight_ends;
use zone_lookup::Hosts;
use zone_tree::Tree;

/// How many octets a name has at most at which a walk of a query carries the query's last label, without that label; or
/// `None` where the label makes a difference. It makes none where the walks are those of a graph in which each carried
/// name ends in it, no server has a zone below the rest of that name, and the server's own zone has no name there; and no
/// walk ends in a name that is too long.
pub(crate) fn open_octets<'h, 'a>(
    queries: &'h Queries<'a>,
    learnt: &'h Learnt<'a>,
    label: &Label,
    graph: &Graph,
) -> Result<Option<u32>, NoMemory>
    requires { IsRightLearnt queries.now.trees queries.now.rewrites queries.now.states learnt.now }
    ensures within { IfOk result (λ found. IfSome found (λ most. most ≤ 255)) }
    ensures open_graph { IfOk result (λ found. IfSome found (IsOpenGraph queries.now.trees label.now graph.now)) }
{
    if graph.starts().is_empty() {
        return Ok(None);
    }
    let mut near = 0;
    let mut most = 0;
    for at in 0..graph.nodes() {
        match node_octets(queries, learnt, &mut near, label, graph.node(at))? {
            Some(octets) => most = most.max(octets),
            None => return Ok(None),
        }
    }
    Ok(Some(most))
}

/// How many octets the name of a node's state has without the label, if it is carried, or 0; or `None` where the label
/// makes a difference there.
fn node_octets<'h, 'a>(
    queries: &'h Queries<'a>,
    learnt: &'h Learnt<'a>,
    near: &mut usize,
    label: &Label,
    node: &Node,
) -> Result<Option<u32>, NoMemory>
    requires { IsRightLearnt queries.now.trees queries.now.rewrites queries.now.states learnt.now }
    ensures within { IfOk result (λ found. IfSome found (λ octets. octets ≤ 255)) }
    ensures open_node { IfOk result (λ found. IfSome found (λ octets. IsOpenNode queries.now.trees label.now octets node.now)) }
{
    if has_overlong(node) {
        return Ok(None);
    }
    let state = node.state.get();
    if state.carried {
        state_octets(queries, learnt, near, label, state)
    } else {
        Ok(Some(0))
    }
}

/// How many octets the name of a state has without the label; or `None` where it doesn't end in the label, or more is known
/// there of names that do.
fn state_octets<'h, 'a>(
    queries: &'h Queries<'a>,
    learnt: &'h Learnt<'a>,
    near: &mut usize,
    label: &Label,
    state: &State,
) -> Result<Option<u32>, NoMemory>
    requires { IsRightLearnt queries.now.trees queries.now.rewrites queries.now.states learnt.now }
    ensures within { IfOk result (λ found. IfSome found (λ octets. octets ≤ 255)) }
    ensures open_state { IfOk result (λ found. IfSome found (λ octets. IsOpenState queries.now.trees label.now state.now octets)) }
{
    let Some(above) = above_label(queries.alloc, &state.name, label)? else {
        return Ok(None);
    };
    // The name is searched for, so that the place is left near which its region is.
    goes_straight(queries, learnt, near, &above)?;
    if !no_origin_below(learnt, *near, &above) {
        return Ok(None);
    }
    if !knows_none_below(&queries.trees, &state.server, &above) {
        return Ok(None);
    }
    Ok(Some(above.octets()))
}

/// The name above the label that a name ends in, or `None` where it ends in another.
fn above_label(alloc: Global, name: &Name, label: &Label) -> Result<Option<Name>, NoMemory>
    ensures { IfOk result (λ found. IfSome found (IsAboveLabel name.now label.now)) }
{
    let count = (name.len() as usize).saturating_sub(1);
    let above = name.copy_front(alloc, count)?;
    let mut whole = above.copy(alloc)?;
    match whole.push(alloc, label) {
        Ok(()) if whole == *name => Ok(Some(above)),
        Ok(()) | Err(JoinFault::TooLong) => Ok(None),
        Err(JoinFault::NoMemory) => Err(NoMemory),
    }
}

/// Whether no server has a zone with an origin below the name, where that is seen near a place: the one near which the
/// name was searched for.
fn no_origin_below(learnt: &Learnt<'_>, near: usize, name: &Name) -> bool
    ensures { result ≡ true → (config : Config) (rewrites states : ℕ) → IsRightLearnt config rewrites states learnt.now → NoOriginBelow config name.now }
{
    learnt.regions.none_below(near, name)
}

/// Whether the walks of a query are seen to go straight. The query's region is looked for near a place first, and the
/// place is left near which it is.
pub(crate) fn goes_straight<'h, 'a>(
    queries: &'h Queries<'a>,
    learnt: &'h Learnt<'a>,
    near: &mut usize,
    query: &Name,
) -> Result<bool, NoMemory>
    requires { IsRightLearnt queries.now.trees queries.now.rewrites queries.now.states learnt.now }
{
    let ends = straight_ends(
        queries.alloc,
        &queries.trees,
        &learnt.sets,
        &learnt.table,
        &learnt.regions,
        near,
        query,
        queries.rewrites,
        queries.states,
    )?;
    Ok(ends.is_some())
}

/// Whether the zone in which a server looks a name up has no name below it.
fn knows_none_below(hosts: &Hosts<'_>, server: &Name, name: &Name) -> bool
    ensures { result ≡ true → (zone : Zone) → nearest_of hosts.now server.now name.now ≡ Some zone → HasNoneBelow zone name.now }
{
    match hosts.nearest_of(server, name) {
        Some(tree) => has_none_below(tree, name),
        None => true,
    }
}

/// Whether the zone of a tree has no name below this one.
fn has_none_below(tree: &Tree<'_>, name: &Name) -> bool
    requires { is_prefix tree.now.zone.origin name.now ≡ true }
    ensures { result ≡ true → HasNoneBelow tree.now.zone name.now }
{
    // The zone is read, so that it is known here that the tree has its names, in order.
    let _ = tree.zone();
    match tree.node_at(name) {
        Some(node) => match tree.names().get(node.place() + 1) {
            Some(next) => !name.is_prefix_of(next),
            None => true,
        },
        None => true,
    }
}

/// Whether a branch of the node ends in a name that is too long.
fn has_overlong(node: &Node) -> bool
    ensures { result ≡ has_overlong node.now }
{
    node.arms.items().iter().any(|arm| arm_overlong(arm))
}

/// Whether a branch of the arm does.
fn arm_overlong(arm: &Arm) -> bool
    ensures { result ≡ list_any is_overlong_end arm.now.branches }
{
    arm.branches
        .items()
        .iter()
        .any(|branch| is_overlong_end(branch))
}
