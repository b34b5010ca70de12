//! Learnt addresses, by walks and by graphs.

ghost use Rattle.std.specs.Prelude.{◌≡◌, IfOk, length};

use super::configs::{graph_of, loaded, name, spells};
use address_deps::{AddressLearnt, dependencies, learnt_by_graph};
use dns_data::{List, Name, NameFault};
use interp_graph::GraphFault;
use net_model::Config;
use plain_resolver::{LearntFault, learnt};
use std::alloc::Global;
use std::test::Fail;
use zone_lookup::Hosts;

/// Metadata of two firms below a root.
const TWO_FIRMS: &str =
    "{\"TopNameServers\":[\"a.r.\"],\"ZoneFiles\":[{\"FileName\":\"root.zone\",\"NameServer\":\"a.r.\"},{\"FileName\":\"p.zone\",\"NameServer\":\"ns.q.\"},{\"FileName\":\"q.zone\",\"NameServer\":\"ns.p.\"}]}";

/// The name server of each firm has its address in the zone of the other one, and none has glue.
const CIRCLE: [(&str, &str); 3] = [
    (
        "root.zone",
        ". 60 SOA a.r. h.r. 1 2 3 4 5\n. 60 NS a.r.\np. 60 NS ns.q.\nq. 60 NS ns.p.\n",
    ),
    (
        "p.zone",
        "p. 60 SOA ns.q. h.q. 1 2 3 4 5\np. 60 NS ns.q.\nns.p. 60 A 10.0.0.1\n",
    ),
    (
        "q.zone",
        "q. 60 SOA ns.p. h.p. 1 2 3 4 5\nq. 60 NS ns.p.\nns.q. 60 A 10.0.0.2\n",
    ),
];

// Begun with no server nothing is learnt, and begun with all both are, so that each depends on the other (RFC 1034 section
// 4.2.1). The graphs of the servers' names give the same two sets.
#[test]
fn addresses_in_a_circle_are_learnt_from_each_other_alone(rt: HostRuntime) -> Result<(), Fail> {
    let config = loaded(rt.alloc(), TWO_FIRMS, &CIRCLE)?;
    assert!(rt; are_learnt_in_a_circle(rt.alloc(), &config)?);
    Ok(())
}

/// Whether walks and graphs give the empty set and that of both firms' servers.
fn are_learnt_in_a_circle(alloc: Global, config: &Config) -> Result<bool, Fail> {
    let is_least = none_is_learnt(alloc, config)?;
    let is_greatest = both_are_learnt(alloc, config)?;
    Ok(is_least && is_greatest && graphs_give_both_sets(alloc, config)?)
}

/// Whether no address is learnt, begun with no server.
fn none_is_learnt(alloc: Global, config: &Config) -> Result<bool, LearntFault> {
    let found = learnt(alloc, config, 12, &List::new(alloc), 10)?;
    Ok(found.is_empty())
}

/// Whether the addresses of both firms' servers are learnt, begun with all servers.
fn both_are_learnt(alloc: Global, config: &Config) -> Result<bool, Fail> {
    let all = names(alloc, &["a.r.", "ns.q.", "ns.p."])?;
    let found = learnt(alloc, config, 12, &all, 10)?;
    Ok(are_both(alloc, found.items()))
}

/// The names that texts spell.
fn names(alloc: Global, texts: &[&str]) -> Result<List<Name>, NameFault> {
    let mut names = List::new(alloc);
    for text in texts {
        names.push(name(alloc, text)?)?;
    }
    Ok(names)
}

/// Whether the names are those of both firms' servers, in the order of the metadata.
fn are_both(alloc: Global, found: &[Name]) -> bool {
    match found {
        [first, second] => spells(alloc, "ns.q.", first) && spells(alloc, "ns.p.", second),
        _ => false,
    }
}

/// Whether by the graphs of the servers' names the least set is empty, and the greatest has both firms' servers.
fn graphs_give_both_sets(alloc: Global, config: &Config) -> Result<bool, GraphFault> {
    let hosts = Hosts::build(alloc, config)?;
    let addresses = learnt_by_graphs(alloc, config, &hosts)?;
    let deps = dependencies(alloc, config, addresses.items())?;
    Ok(deps.least.is_empty() && are_both(alloc, deps.greatest.items()))
}

/// What the graphs of the servers' names tell, in their order.
fn learnt_by_graphs<'a>(
    alloc: Global,
    config: &Config,
    hosts: &Hosts<'a>,
) -> Result<List<AddressLearnt<'a>>, GraphFault>
    ensures { IfOk result (λ addresses. length addresses ≡ length config.now.servers) }
{
    let mut addresses = List::new(alloc);
    for server in config.servers() {
        let query = server.name.copy(alloc)?;
        let graph = graph_of(alloc, hosts, query)?;
        addresses.push(learnt_by_graph(alloc, hosts, &graph)?)?;
    }
    Ok(addresses)
}
