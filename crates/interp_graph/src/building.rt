//! The graph of a query.

ghost use Rattle.std.specs.Prelude.{◌≡◌, ◌≤◌, ◌<◌, ◌+◌, ◌*◌, ◌^◌, ◌++◌, ◌∷◌, [], ℕ, length, slice_get, Some, IfOk, OnOk, IfSome, IsErrOf};
ghost use Rattle.std.specs.List.{AllZip};
ghost use Rattle.dns_data.specs.Name.{wire_octets};
ghost use Rattle.name_rules.specs.SymName.{whole};
ghost use Rattle.net_model.specs.Nearest.{server_names};
ghost use Rattle.net_model.specs.Step.{following, start};
ghost use Rattle.net_model.specs.Tree.{IsReached, HasMoreThan};
ghost use Rattle.graph_form.specs.Graph.{pairs_of};
ghost use Rattle.graph_form.specs.GraphOf.{IsExact, IsGraphOf};
ghost use Rattle.interp_graph.specs.Asked.{IsAsked, StandsForOthers, ReachesMost};
ghost use Rattle.interp_graph.specs.Listed.{Lists, OfOne, Passes};
ghost use Rattle.interp_graph.specs.Making.{nodes_of};

use crate::fault::GraphFault;
use crate::following::reach;
use crate::key_set::KeySet;
use crate::turns::{follow_all, follow_rest};
use dns_data::{Boxed, JoinFault, List, Name, NoMemory, RrType};
use graph_form::{Arm, Graph, Node};
use name_rules::SymName;
use net_model::State;
use std::alloc::Global;
use zone_lookup::{Hosts, Walker, starts};

/// The graph of the walks of a name with its tail, while every configured server is followed: for all types at once, with
/// one node for each state. It is `StatesPassed` where the name reaches more than `limit` pairs of state and type.
pub fn build(
    alloc: Global,
    hosts: &Hosts<'_>,
    name: &SymName,
    rewrites: u32,
    limit: u32,
) -> Result<Graph, GraphFault>
    requires { IsAsked hosts.now name.now }
    ensures graph { IfOk result (IsGraphOf (following hosts.now rewrites (server_names hosts.now)) (whole name.now)) }
    ensures exact { IfOk result (IsExact hosts.now rewrites (whole name.now)) }
    ensures pairs { IfOk result (λ graph. length (pairs_of graph) ≤ limit) }
    ensures few { OnOk result (HasMoreThan (IsReached hosts.now rewrites (whole name.now)) limit → ⊥) }
    ensures passed { IsErrOf result GraphFault.StatesPassed → HasMoreThan (IsReached hosts.now rewrites (whole name.now)) limit }
    ensures stands_for { OnOk result (StandsForOthers hosts.now name.now name.now.tail) }
    ensures reaches_most { OnOk result (ReachesMost hosts.now rewrites name.now limit name.now.tail) }
{
    let walker = Walker::following_all(hosts, rewrites);
    let begin = first_states(alloc, hosts, name)?;
    let mut states = KeySet::new(alloc);
    let most = most_of_all(limit);
    let starts = numbered(alloc, &mut states, most, begin)?;
    let early = follow_all(alloc, &walker, &mut states, most)?;
    let most = most_with_rest(limit, states.len() as u32);
    let arms = follow_rest(alloc, &walker, &mut states, most, early)?;
    Ok(graph_of(alloc, states, arms, starts)?)
}

/// How many states there may be where each is reached with all twelve types.
fn most_of_all(limit: u32) -> u32
    ensures within { 12 * result ≤ limit }
    ensures passed { (many : ℕ) → result < many → limit < 12 * many }
{
    limit / RrType::COUNT as u32
}

/// How many states there may be where the first ones are reached with all twelve types, and the others with eleven.
fn most_with_rest(limit: u32, first: u32) -> u32
    requires { 12 * first ≤ limit }
    ensures within { 11 * result + first ≤ limit }
    ensures room { first ≤ result }
    ensures passed { (many : ℕ) → result < many → limit < 11 * many + first }
{
    (limit - first) / (RrType::COUNT as u32 - 1)
}

/// The states in which the walks of the known name with its tail begin.
fn first_states(
    alloc: Global,
    hosts: &Hosts<'_>,
    name: &SymName,
) -> Result<List<Boxed<State>>, NoMemory>
    requires { IfSome name.now.tail (λ label. wire_octets (name.now.known ++ label ∷ []) ≤ 255) }
    ensures { IfOk result (λ states. states ≡ start hosts.now (whole name.now)) }
{
    let query = whole_name(alloc, name)?;
    starts(alloc, hosts, &query)
}

/// The known name with its tail.
fn whole_name(alloc: Global, name: &SymName) -> Result<Name, NoMemory>
    requires { IfSome name.now.tail (λ label. wire_octets (name.now.known ++ label ∷ []) ≤ 255) }
    ensures { IfOk result (λ made. made ≡ whole name.now) }
{
    let mut made = name.known.copy(alloc)?;
    if let Some(label) = &name.tail {
        match made.push(alloc, label) {
            Ok(()) => {}
            Err(JoinFault::NoMemory) => return Err(NoMemory),
            Err(JoinFault::TooLong) => unreachable!(),
        }
    }
    Ok(made)
}

/// The numbers of states. New ones get the next numbers; it is `StatesPassed` where there are more than `most` states then.
fn numbered(
    alloc: Global,
    states: &mut KeySet,
    most: u32,
    begin: List<Boxed<State>>,
) -> Result<List<u32>, GraphFault>
    requires { length states.old ≤ most }
    ensures lists { OnOk result (Lists (OfOne (λ state one. state ≡ one) begin) most states.old states.new) }
    ensures told { IfOk result (λ numbers. AllZip (λ at state. slice_get states.new at ≡ Some state) numbers begin) }
    ensures passed { IsErrOf result GraphFault.StatesPassed → Passes (OfOne (λ state one. state ≡ one) begin) most states.old }
{
    let mut numbers = List::new(alloc);
    for state in begin {
        numbers.push(reach(alloc, states, most, state)?)?;
    }
    Ok(numbers)
}

/// The graph of states with the arms of their nodes.
fn graph_of(
    alloc: Global,
    states: KeySet,
    arms: List<List<Arm>>,
    starts: List<u32>,
) -> Result<Graph, NoMemory>
    requires nodes { length (nodes_of states arms) < 2 ^ 32 }
    requires pairs { length (pairs_of (record { nodes = nodes_of states arms; starts = starts })) < 2 ^ 32 }
    ensures { IfOk result (λ graph. graph ≡ record { nodes = nodes_of states arms; starts = starts }) }
{
    let nodes = nodes_of(alloc, states, arms)?;
    Ok(Graph::new(nodes, starts))
}

/// The nodes of states, each with its arms.
fn nodes_of(alloc: Global, states: KeySet, arms: List<List<Arm>>) -> Result<List<Node>, NoMemory>
    ensures { IfOk result (λ nodes. nodes ≡ nodes_of states arms) }
{
    let keys = states.into_keys(alloc)?;
    let mut nodes = Vec::with_capacity(alloc, arms.len())?;
    let mut left = arms.into_iter();
    for key in keys {
        match left.next() {
            Some(arms) => nodes.push(Node {
                state: key.into_state(),
                arms,
            })?,
            // This doesn't come: there are arms beside each state.
            None => return Ok(List::from_vec(nodes)),
        }
    }
    Ok(List::from_vec(nodes))
}
