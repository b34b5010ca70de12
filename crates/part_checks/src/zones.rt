//! The zones of a configuration, one after another.

ghost use Rattle.std.specs.Prelude.{◌≡◌, ◌++◌, map, IfOk, OnOk};
ghost use Rattle.net_model.specs.Reading.{zones};

use dns_data::NoMemory;
use net_model::{Config, Zone};
use std::alloc::Global;

/// All zones of a configuration, those of the first server first.
pub(crate) fn zones_of(alloc: Global, config: &Config) -> Result<Vec<&Zone>, NoMemory>
    ensures { IfOk result (λ all. map (λ zone. zone.now) all.items ≡ zones config.now) }
{
    let mut all = Vec::new(alloc);
    for server in config.servers() {
        put_zones(server.zones.items(), &mut all)?;
    }
    Ok(all)
}

/// Puts zones behind others.
fn put_zones<'a>(zones: &'a [Zone], all: &mut Vec<&'a Zone>) -> Result<(), NoMemory>
    ensures { OnOk result (map (λ zone. zone.now) all.new.items ≡ map (λ zone. zone.now) all.old.items ++ zones.entry.now) }
{
    for zone in zones {
        all.push(zone)?;
    }
    Ok(())
}
