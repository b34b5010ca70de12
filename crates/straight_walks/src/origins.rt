//! The origins of all zones of a configuration.

ghost use Rattle.std.specs.Prelude.{◌≡◌, map, Contains, IfOk, OnOk};
ghost use Rattle.std.specs.List.Sorted.{IsStrictlySortedBy};
ghost use Rattle.dns_data.specs.Name.{Labels, name_cmp};
ghost use Rattle.straight_walks.specs.Regions.{HasEachOrigin, HasOrigins};

use dns_data::{Name, NoMemory};
use net_model::{Config, Zone};
use std::alloc::Global;
use std::collections::BTreeSet;

/// The origins of all servers' zones, each once, in the order of names.
pub(crate) fn origins_of<'a>(alloc: Global, config: &'a Config) -> Result<Vec<&'a Name>, NoMemory>
    ensures ordered { IfOk result (λ origins. IsStrictlySortedBy name_cmp (map (λ origin. origin.now) origins.items)) }
    ensures all { IfOk result (λ origins. HasEachOrigin config.now (map (λ origin. origin.now) origins.items)) }
{
    let origins = origin_set(alloc, config)?;
    // The length is read, so that it is known here that the set is in order.
    let _ = origins.len();
    set_names(alloc, origins)
}

/// The names of a set, in its order.
fn set_names<'a>(alloc: Global, names: BTreeSet<&'a Name>) -> Result<Vec<&'a Name>, NoMemory>
    ensures { IfOk result (λ list. list.items ≡ names.entry.keys) }
{
    Ok(names.into_iter().collect(alloc)?)
}

/// The set of the origins of all servers' zones.
fn origin_set<'a>(alloc: Global, config: &'a Config) -> Result<BTreeSet<&'a Name>, NoMemory>
    ensures { IfOk result (λ origins. HasEachOrigin config.now (map (λ origin. origin.now) origins.keys)) }
{
    let mut origins = BTreeSet::new(alloc);
    for server in config.servers() {
        put_origins(&mut origins, server.zones.items())?;
    }
    Ok(origins)
}

/// Puts the origins of zones into a set.
fn put_origins<'a>(origins: &mut BTreeSet<&'a Name>, zones: &'a [Zone]) -> Result<(), NoMemory>
    ensures all { OnOk result (HasOrigins zones.now (map (λ origin. origin.now) origins.new.keys)) }
    ensures kept { OnOk result ((name : Labels) → Contains (map (λ origin. origin.now) origins.old.keys) name → Contains (map (λ origin. origin.now) origins.new.keys) name) }
{
    for zone in zones {
        origins.insert(&zone.origin)?;
    }
    Ok(())
}
