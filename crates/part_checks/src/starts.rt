//! Whether the names that a part is told to hold are there.

ghost use Rattle.std.specs.Prelude.{◌≡◌, ◌++◌, true, All, IfOk, IfErr, OnOk};
ghost use Rattle.std.specs.List.{flat_map};
ghost use Rattle.dns_data.specs.Name.{is_among};
ghost use Rattle.part_checks.specs.Outside.{zone_names};
ghost use Rattle.part_checks.specs.Rules.{Refutes};

use crate::fault::{PartFault, PartRule};
use dns_data::{List, Name, NoMemory};
use net_model::Zone;
use std::alloc::Global;
use zone_lookup::set_of;

/// Checks that each of the names is an origin or owner of these zones.
pub(crate) fn check_met(alloc: Global, zones: &[&Zone], names: &[Name]) -> Result<(), PartFault>
    ensures met { OnOk result (All (λ name. is_among (flat_map (λ zone. zone_names zone.now) zones.now) name ≡ true) names.now) }
    ensures refused { IfErr result (Refutes (λ rule. All (λ name. PartRule.Met ≡ rule → is_among (flat_map (λ zone. zone_names zone.now) zones.now) name ≡ true) names.now)) }
{
    let starts = names_of_zones(alloc, zones)?;
    let there = set_of(alloc, starts.items())?;
    for name in names {
        if !there.contains(name) {
            return Err(PartFault::Breaks(PartRule::Met, name.copy(alloc)?));
        }
    }
    Ok(())
}

/// The origins of zones and the owners of their records.
fn names_of_zones(alloc: Global, zones: &[&Zone]) -> Result<List<Name>, NoMemory>
    ensures { IfOk result (λ names. names ≡ flat_map (λ zone. zone_names zone.now) zones.now) }
{
    let mut names = List::new(alloc);
    for zone in zones {
        put_names(alloc, *zone, &mut names)?;
    }
    Ok(names)
}

/// Puts the origin of a zone and the owners of its records behind other names.
fn put_names(alloc: Global, zone: &Zone, names: &mut List<Name>) -> Result<(), NoMemory>
    ensures { OnOk result (names.new ≡ names.old ++ zone_names zone.now) }
{
    names.push(zone.origin.copy(alloc)?)?;
    for rr in zone.rrs.items() {
        names.push(rr.owner.copy(alloc)?)?;
    }
    Ok(())
}
