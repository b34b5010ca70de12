//! Names that rest: their walks end at the top servers, where they begin.

ghost use Rattle.std.specs.Prelude.{map, IfOk, IfSome};
ghost use Rattle.zone_lookup.specs.Resting.{AreEnds, EndsAt, Rests};
ghost use Rattle.zone_lookup.specs.Tops.{StandsForTops};

use crate::follow::owns_address;
use crate::hosts::Hosts;
use crate::reply::{Reply, reply_of};
use crate::tops::TopServers;
use dns_data::{Name, NoMemory};
use std::alloc::Global;

/// Whether an address of a name that rests can be learnt, whichever servers are followed; or `None` where it isn't seen at
/// once that the name rests, since the zone of one of the top servers refers or rewrites it. Of top servers that hold the
/// same zones one is asked, as `TopServers::unlike` lists them, and only one that holds a zone for the name.
#[tactic(auto, using(crate::proofs::NamesAtRest::tops_rest))]
pub fn learnt_at_tops(
    alloc: Global,
    hosts: &Hosts<'_>,
    tops: &TopServers<'_>,
    name: &Name,
) -> Result<Option<bool>, NoMemory>
    requires { StandsForTops hosts.now tops.now }
    ensures { IfOk result (λ told. IfSome told (Rests hosts.now name.now)) }
{
    let holding = tops.holding(alloc, name)?;
    let outside = holding.len() < tops.count();
    match given_at(hosts, holding.as_slice(), name) {
        Some(given) => Ok(Some(outside | given)),
        None => Ok(None),
    }
}

/// Whether one of the servers gives an address of the name, or `None` where walks lead on from one of them.
fn given_at(hosts: &Hosts<'_>, servers: &[&Name], name: &Name) -> Option<bool>
    ensures { IfSome result (AreEnds hosts.now name.now (map (λ server. server.now) servers.now)) }
{
    let mut given = false;
    for server in servers {
        let here = gives_at(hosts, server, name)?;
        given |= here;
    }
    Some(given)
}

/// Whether the server gives an address of the name, or leads out of what is configured; or `None` where walks lead on from
/// the server.
#[tactic(auto, using(crate::proofs::NamesAtRest::outside_ends_at, crate::proofs::NamesAtRest::nothing_ends_at, crate::proofs::NamesAtRest::records_end_at))]
fn gives_at(hosts: &Hosts<'_>, server: &Name, name: &Name) -> Option<bool>
    ensures { IfSome result (EndsAt hosts.now name.now server.now) }
{
    match reply_of(hosts, server, name) {
        Reply::Outside => Some(true),
        Reply::Records(tree, owner) => Some(owns_address(tree, owner)),
        Reply::Nothing(_) => Some(false),
        _ => None,
    }
}
