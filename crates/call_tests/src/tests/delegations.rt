//! The faults that a delegation shows on a graph.

use super::configs::{graph_of, loaded, name};
use delegation_checks::delegation_faults;
use dns_data::{List, NoMemory};
use graph_form::{Deps, Graph, Seen};
use net_model::{Config, Fault};
use std::alloc::Global;
use std::test::Fail;
use zone_lookup::Hosts;

/// Metadata of two servers, of which queries begin at the first.
const TWO_SERVERS: &str =
    "{\"TopNameServers\":[\"ns.t.\"],\"ZoneFiles\":[{\"FileName\":\"t.zone\",\"NameServer\":\"ns.t.\"},{\"FileName\":\"c.zone\",\"NameServer\":\"ns1.c.t.\"}]}";

/// A delegation of `c.t.` to two name servers. The first has glue; its own zone has another address of it, and another
/// second name server. The second has no glue and isn't configured.
const DELEGATED: [(&str, &str); 2] = [
    (
        "t.zone",
        "t. 60 SOA ns.t. h.t. 1 2 3 4 5\nt. 60 NS ns.t.\nc.t. 60 NS ns1.c.t.\nc.t. 60 NS ns2.c.t.\nns1.c.t. 60 A 10.0.0.1\n",
    ),
    (
        "c.zone",
        "c.t. 60 SOA ns1.c.t. h.t. 1 2 3 4 5\nc.t. 60 NS ns1.c.t.\nc.t. 60 NS ns3.c.t.\nns1.c.t. 60 A 10.0.0.9\n",
    ),
];

// A name server with glue is followed, whatever is learnt. Both name servers are at or below the cut.
#[test]
fn a_delegation_shows_the_faults_of_both_sides(rt: HostRuntime) -> Result<(), Fail> {
    let config = loaded(rt.alloc(), TWO_SERVERS, &DELEGATED)?;
    assert!(rt; are_shown(rt.alloc(), &config)?);
    Ok(())
}

/// Whether the graph of `c.t.` shows the faults of both sides.
fn are_shown(alloc: Global, config: &Config) -> Result<bool, Fail> {
    let hosts = Hosts::build(alloc, config)?;
    let graph = graph_in(alloc, &hosts)?;
    Ok(both_sides_show(alloc, &hosts, &graph)?)
}

/// The graph of `c.t.`.
fn graph_in(alloc: Global, hosts: &Hosts<'_>) -> Result<Graph, Fail> {
    let query = name(alloc, "c.t.")?;
    Ok(graph_of(alloc, hosts, query)?)
}

/// Whether the query of the graph shows the three faults of its delegation, while no address is learnt.
fn both_sides_show(alloc: Global, hosts: &Hosts<'_>, graph: &Graph) -> Result<bool, NoMemory> {
    let none = Deps {
        least: List::new(alloc),
        greatest: List::new(alloc),
    };
    let shown = delegation_faults(alloc, hosts, &none, graph)?;
    Ok(are_three(shown.items()))
}

/// Whether the faults are that the two sides list different name servers, that one of these has no glue, and that the other
/// has other addresses below.
fn are_three(shown: &[Seen]) -> bool {
    match shown {
        [first, second, third] => {
            matches!(&first.fault, Fault::Differs(_))
                && matches!(&second.fault, Fault::NoGlue(_))
                && matches!(&third.fault, Fault::GlueDiffers(_))
        }
        _ => false,
    }
}
