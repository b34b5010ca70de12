//! The zones of a configuration by their servers and origins.

ghost use Rattle.std.specs.Prelude.{◌≡◌, IfOk};
ghost use Rattle.std.specs.Option.{option_map};
ghost use Rattle.net_model.specs.Nearest.{held_zone};
ghost use Rattle.map_run.specs.Held.{FindsHeld, FindsZones};

use crate::name_key::NameKey;
use dns_data::{Name, NoMemory};
use net_model::{Config, Server, Zone};
use std::alloc::Global;
use std::collections::HashMap;
use std::marker::Model;

/// The zones of a configuration, found by the server that holds them and by their origin. Contracts see the configuration.
#[derive(Drop)]
pub(crate) struct HeldZones<'a> {
    config: &'a Config,
    found: HashMap<NameKey, HashMap<NameKey, &'a Zone>>,
}

impl<'a> Model for HeldZones<'a> {
    ghost use Rattle.net_model.specs.declared.config.Config.{Config};
    ghost use Rattle.map_run.specs.Held.{FindsHeld};

    ghost Value = { Config };

    ghost view = { λ held. held.config.now };

    ghost invariant = { λ held. FindsHeld held.config.now.servers held.found };
}

impl<'a> HeldZones<'a> {
    /// The zones of a configuration. The name of each server and each origin are copied once.
    pub(crate) fn of(alloc: Global, config: &'a Config) -> Result<HeldZones<'a>, NoMemory>
        ensures { IfOk result (λ held. held ≡ config.entry.now) }
    {
        let found = zones_by_server(alloc, config.servers())?;
        Ok(HeldZones { config, found })
    }

    /// The zone with this origin that the server of this name holds.
    pub(crate) fn get(
        &self,
        alloc: Global,
        server: &Name,
        origin: &Name,
    ) -> Result<Option<&'a Zone>, NoMemory>
        ensures { IfOk result (λ zone. option_map (λ one. one.now) zone ≡ held_zone self.now server.now origin.now) }
    {
        let server = NameKey::of(alloc, server)?;
        let origin = NameKey::of(alloc, origin)?;
        match self.found.get(&server) {
            Some(zones) => Ok(zones.get(&origin).copied()),
            None => Ok(None),
        }
    }
}

/// The zones of each server. The last servers are looked at first, and the first of one name stays.
fn zones_by_server<'a>(
    alloc: Global,
    servers: &'a [Server],
) -> Result<HashMap<NameKey, HashMap<NameKey, &'a Zone>>, NoMemory>
    ensures { IfOk result (FindsHeld servers.now) }
{
    let mut found = HashMap::new(alloc);
    let mut left = servers.len();
    while left > 0 {
        left -= 1;
        let server = &servers[left];
        let zones = zones_by_origin(alloc, server.zones.items())?;
        found.insert(NameKey::of(alloc, &server.name)?, zones)?;
    }
    Ok(found)
}

/// The zones by their origins. The last zones are looked at first, and the first of one origin stays.
fn zones_by_origin<'a>(
    alloc: Global,
    zones: &'a [Zone],
) -> Result<HashMap<NameKey, &'a Zone>, NoMemory>
    ensures { IfOk result (FindsZones zones.now) }
{
    let mut found = HashMap::new(alloc);
    let mut left = zones.len();
    while left > 0 {
        left -= 1;
        let zone = &zones[left];
        found.insert(NameKey::of(alloc, &zone.origin)?, zone)?;
    }
    Ok(found)
}
