//! What the graph of a server's name tells of its address.

ghost use Rattle.std.specs.Prelude.{◌≡◌, ℕ, IfOk};
ghost use Rattle.std.specs.List.{AllZip};
ghost use Rattle.dns_data.specs.Name.{Labels};
ghost use Rattle.net_model.specs.Nearest.{server_names};
ghost use Rattle.net_model.specs.Step.{following};
ghost use Rattle.graph_form.specs.declared.node.Branch.TheVariants.{Go};
ghost use Rattle.graph_form.specs.GraphOf.{IsGraphOf};
ghost use Rattle.address_deps.specs.Addresses.{IsAddressOf};
ghost use Rattle.address_deps.specs.Giving.{AreTurnsOf, ArePathsOf, IsTurnOf};

use crate::addresses::{AddressLearnt, AddressPaths, Turn};
use crate::giving::learns_by_paths;
use crate::server_set::{Followed, ServerSet};
use dns_data::{List, NoMemory, RrType};
use graph_form::{Branch, Graph};
use net_model::Hop;
use std::alloc::Global;
use zone_lookup::{Hosts, gives_address};

/// What the graph of a server's name, made while every configured server is followed, tells of its address. Where none
/// needs to be followed, or it isn't learnt though all are, nothing else is kept; nor is the graph needed any more.
pub fn learnt_by_graph<'a>(
    alloc: Global,
    hosts: &Hosts<'a>,
    graph: &Graph,
) -> Result<AddressLearnt<'a>, NoMemory>
    ensures { IfOk result (λ address. (rewrites : ℕ) (name : Labels)
        → IsGraphOf (following hosts.now rewrites (server_names hosts.now)) name graph.now → IsAddressOf hosts.now rewrites name address) }
{
    let paths = paths_of(alloc, hosts, graph)?;
    let none = ServerSet::new(alloc);
    if learns_by_paths(alloc, hosts, &paths, &Followed::Named(&none))? {
        return Ok(AddressLearnt::Known(true));
    }
    if !learns_by_paths(alloc, hosts, &paths, &Followed::Configured)? {
        return Ok(AddressLearnt::Known(false));
    }
    Ok(AddressLearnt::ByPaths(paths))
}

/// The paths of the graph that may give an address.
fn paths_of<'a>(
    alloc: Global,
    hosts: &Hosts<'a>,
    graph: &Graph,
) -> Result<AddressPaths<'a>, NoMemory>
    ensures { IfOk result (ArePathsOf hosts.now graph.now) }
{
    Ok(AddressPaths {
        starts: copied(alloc, graph.starts())?,
        four: turns_of(alloc, hosts, graph, RrType::A)?,
        six: turns_of(alloc, hosts, graph, RrType::Aaaa)?,
    })
}

/// Equal numbers.
fn copied(alloc: Global, numbers: &[u32]) -> Result<List<u32>, NoMemory>
    ensures { IfOk result (λ copy. copy ≡ numbers.now) }
{
    let mut copy = List::new(alloc);
    for number in numbers {
        copy.push(*number)?;
    }
    Ok(copy)
}

/// For each node of the graph the turns of its branches with the type.
fn turns_of<'a>(
    alloc: Global,
    hosts: &Hosts<'a>,
    graph: &Graph,
    rtype: RrType,
) -> Result<List<List<Turn<'a>>>, NoMemory>
    ensures { IfOk result (AreTurnsOf hosts.now graph.now rtype) }
{
    let mut nodes = List::new(alloc);
    for at in 0..graph.nodes() {
        nodes.push(turns(alloc, hosts, graph.node(at).branches(rtype))?)?;
    }
    Ok(nodes)
}

/// The turns of branches.
fn turns<'a>(
    alloc: Global,
    hosts: &Hosts<'a>,
    branches: &[Branch],
) -> Result<List<Turn<'a>>, NoMemory>
    ensures { IfOk result (AllZip (IsTurnOf hosts.now) branches.now) }
{
    let mut turns = Vec::with_capacity(alloc, branches.len())?;
    for branch in branches {
        turns.push(turn(hosts, branch))?;
    }
    Ok(List::from_vec(turns))
}

/// The turn of a branch.
fn turn<'a>(hosts: &Hosts<'a>, branch: &Branch) -> Turn<'a>
    ensures { IsTurnOf hosts.now branch.now result }
{
    match branch {
        Branch::Go { hop, to } => turn_by(hosts, hop.get(), *to),
        Branch::End { leaf, .. } => {
            if gives_address(leaf.get()) {
                Turn::Gives
            } else {
                Turn::Fails
            }
        }
    }
}

/// The turn of a branch that goes on to the node by the hop. Nobody follows a server that isn't configured.
fn turn_by<'a>(hosts: &Hosts<'a>, hop: &Hop, to: u32) -> Turn<'a>
    ensures { IsTurnOf hosts.now (Go hop.now to) result }
{
    match hop {
        Hop::Refer(cut) => {
            if hosts.may_follow(cut, &[]) {
                return Turn::Goes(to);
            }
            match hosts.host(&cut.ns) {
                Some(host) => Turn::Waits(to, host.name()),
                None => Turn::Fails,
            }
        }
        Hop::Rewrite { .. } => Turn::Goes(to),
    }
}
