//! The least and the greatest set.

ghost use Rattle.std.specs.Prelude.{◌≡◌, ℕ, IfOk, length};
ghost use Rattle.std.specs.List.{filter};
ghost use Rattle.dns_data.specs.Name.{Labels, is_among};
ghost use Rattle.net_model.specs.Learnt.{IsLeast, IsGreatest};
ghost use Rattle.net_model.specs.Nearest.{server_names};
ghost use Rattle.address_deps.specs.Dependents.{AreDependents};
ghost use Rattle.address_deps.specs.Addresses.{AreAddresses};

use crate::addresses::AddressLearnt;
use crate::dependents::Dependents;
use crate::direction::{Direction, settled};
use crate::server_set::ServerSet;
use dns_data::{List, Name, NoMemory};
use graph_form::Deps;
use net_model::Config;
use std::alloc::Global;
use zone_lookup::Hosts;

/// The least and the greatest set of learnt addresses of a configuration, each in the order of the configured servers, by
/// what the graphs of the servers' names tell, in their order. The trees of all zones are built for it: where they are
/// built already, call `dependencies_among`.
pub fn dependencies(
    alloc: Global,
    config: &Config,
    addresses: &[AddressLearnt<'_>],
) -> Result<Deps, NoMemory>
    requires { length addresses.now ≡ length config.now.servers }
    ensures least { IfOk result (λ deps. (rewrites : ℕ) → AreAddresses config.now rewrites addresses.now → IsLeast config.now rewrites deps.least) }
    ensures greatest { IfOk result (λ deps. (rewrites : ℕ) → AreAddresses config.now rewrites addresses.now → IsGreatest config.now rewrites deps.greatest) }
{
    let hosts = Hosts::build(alloc, config)?;
    dependencies_among(alloc, &hosts, addresses)
}

/// The least and the greatest set of learnt addresses among these servers, each in the order of the configured servers, by
/// what the graphs of the servers' names tell, in their order.
pub fn dependencies_among(
    alloc: Global,
    hosts: &Hosts<'_>,
    addresses: &[AddressLearnt<'_>],
) -> Result<Deps, NoMemory>
    requires { length addresses.now ≡ length hosts.now.servers }
    ensures least { IfOk result (λ deps. (rewrites : ℕ) → AreAddresses hosts.now rewrites addresses.now → IsLeast hosts.now rewrites deps.least) }
    ensures greatest { IfOk result (λ deps. (rewrites : ℕ) → AreAddresses hosts.now rewrites addresses.now → IsGreatest hosts.now rewrites deps.greatest) }
{
    let dependents = Dependents::of(alloc, addresses)?;
    Ok(Deps {
        least: least(alloc, hosts, addresses, &dependents)?,
        greatest: greatest(alloc, hosts, addresses, &dependents)?,
    })
}

/// The least set: servers are added while an address of one more can be learnt.
fn least(
    alloc: Global,
    hosts: &Hosts<'_>,
    addresses: &[AddressLearnt<'_>],
    dependents: &Dependents,
) -> Result<List<Name>, NoMemory>
    requires many { length addresses.now ≡ length hosts.now.servers }
    requires dependents { AreDependents addresses.now (length addresses.now) dependents.now.places }
    ensures { IfOk result (λ least. (rewrites : ℕ) → AreAddresses hosts.now rewrites addresses.now → IsLeast hosts.now rewrites least) }
{
    let none = ServerSet::new(alloc);
    let learnt = settled(alloc, hosts, addresses, dependents, Direction::Adding, none)?;
    in_order(alloc, hosts, &learnt)
}

/// The greatest set: begun with all servers, those are dropped of which no address can be learnt.
fn greatest(
    alloc: Global,
    hosts: &Hosts<'_>,
    addresses: &[AddressLearnt<'_>],
    dependents: &Dependents,
) -> Result<List<Name>, NoMemory>
    requires many { length addresses.now ≡ length hosts.now.servers }
    requires dependents { AreDependents addresses.now (length addresses.now) dependents.now.places }
    ensures { IfOk result (λ greatest. (rewrites : ℕ) → AreAddresses hosts.now rewrites addresses.now → IsGreatest hosts.now rewrites greatest) }
{
    let all = all_servers(alloc, hosts)?;
    let known = settled(
        alloc,
        hosts,
        addresses,
        dependents,
        Direction::Dropping,
        all,
    )?;
    in_order(alloc, hosts, &known)
}

/// The names of all servers.
fn all_servers(alloc: Global, hosts: &Hosts<'_>) -> Result<ServerSet, NoMemory>
    ensures { IfOk result (λ all. (name : Labels) → is_among all name ≡ is_among (server_names hosts.now) name) }
{
    let mut all = ServerSet::new(alloc);
    for server in hosts.config().servers() {
        all.put(alloc, &server.name)?;
    }
    Ok(all)
}

/// The names of the servers of a set, in the order of the servers.
fn in_order(alloc: Global, hosts: &Hosts<'_>, set: &ServerSet) -> Result<List<Name>, NoMemory>
    ensures { IfOk result (λ names. names ≡ filter (is_among set.now) (server_names hosts.now)) }
{
    let mut names = List::new(alloc);
    for server in hosts.config().servers() {
        if set.has(&server.name) {
            names.push(server.name.copy(alloc)?)?;
        }
    }
    Ok(names)
}
