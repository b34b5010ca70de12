//! What is left of zones, and of servers, where names are held. No record is copied.

ghost use Rattle.std.specs.Prelude.{◌≡◌, map, IfOk};
ghost use Rattle.dns_data.specs.First.{chosen};
ghost use Rattle.dns_data.specs.Name.{is_among};
ghost use Rattle.part_checks.specs.Parts.{held_by};
ghost use Rattle.part_checks.specs.Taking.{with_held_zones};
ghost use Rattle.part_laws.specs.Part.{restricted_zone};

use crate::sets::NameSets;
use dns_data::{List, NoMemory, Rr};
use net_model::{Server, Zone};
use std::alloc::Global;

/// The zone with those of its records whose owners are held, where it is known of each whether it is.
pub(crate) fn left_zone(
    alloc: Global,
    sets: &NameSets<'_>,
    zone: Zone,
    held: &[bool],
) -> Result<Zone, NoMemory>
    requires { held.now ≡ map (λ rr. is_among (held_by sets.now) rr.owner) zone.rrs }
    ensures { IfOk result (λ left. left ≡ restricted_zone (held_by sets.now) zone) }
{
    let Zone { origin, rrs } = zone;
    let rrs = chosen(alloc, rrs, held)?;
    Ok(Zone { origin, rrs })
}

/// The records that are chosen, with no more room than they take.
fn chosen(alloc: Global, rrs: List<Rr>, are_chosen: &[bool]) -> Result<List<Rr>, NoMemory>
    ensures { IfOk result (λ left. left ≡ chosen rrs are_chosen.now) }
{
    let mut left = Vec::with_capacity(alloc, count_of(are_chosen))?;
    let mut others = rrs.into_iter();
    for is_chosen in are_chosen {
        if let Some(rr) = others.next() {
            if *is_chosen {
                left.push(rr)?;
            }
        }
    }
    Ok(List::from_vec(left))
}

/// How many are chosen.
fn count_of(are_chosen: &[bool]) -> usize {
    are_chosen.iter().filter(|is_chosen| **is_chosen).count()
}

/// The servers, each with those of its zones whose origins are held.
pub(crate) fn left_servers(
    alloc: Global,
    sets: &NameSets<'_>,
    servers: List<Server>,
) -> Result<List<Server>, NoMemory>
    ensures { IfOk result (λ left. left ≡ map (with_held_zones (held_by sets.now)) servers) }
{
    let mut left = Vec::with_capacity(alloc, servers.len())?;
    for server in servers {
        left.push(left_server(sets, server))?;
    }
    Ok(List::from_vec(left))
}

/// The server with those of its zones whose origins are held.
fn left_server(sets: &NameSets<'_>, server: Server) -> Server
    ensures { result ≡ with_held_zones (held_by sets.now) server }
{
    let Server { name, zones } = server;
    let mut zones = zones.into_vec();
    zones.retain(
        |zone: &Zone| -> bool
            ensures { result ≡ is_among (held_by sets.entry.now) zone.now.origin }
        { sets.has(&zone.origin) },
    );
    zones.shrink_to_fit();
    Server {
        name,
        zones: List::from_vec(zones),
    }
}
