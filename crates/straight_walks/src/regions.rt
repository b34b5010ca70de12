//! Regions of names whose walks are the same up to the servers that answer.

ghost use Rattle.std.specs.Prelude.{◌≡◌, true, map, IfOk, IfSome};
ghost use Rattle.std.specs.List.{AllByRecursion};
ghost use Rattle.std.specs.List.Sorted.{IsStrictlySortedBy};
ghost use Rattle.dns_data.specs.Name.{name_cmp};
ghost use Rattle.net_model.specs.declared.config.Config.{Config};
ghost use Rattle.net_model.specs.declared.deps.Deps.{Deps};
ghost use Rattle.zone_lookup.specs.CutTable.{IsTableOf};
ghost use Rattle.straight_walks.specs.Regions.{AreRegionsFor, IsPastName, IsRegion, IsSearchBelow, region_origins};
ghost use Rattle.straight_walks.specs.Straight.{NoOriginBelow};

use crate::origins::origins_of;
use crate::region::{Region, search_below};
use crate::searching::Search;
use dns_data::{Name, NoMemory};
use std::alloc::Global;
use zone_lookup::{CutTable, Hosts, LearntSets, TopServers, nearest_item};

/// The origins of a configuration's zones, each with the states to which walks for the names below it come, as far as
/// these are the same for all names that have no other origin between.
#[derive(Drop)]
pub struct Regions<'a> {
    tops: TopServers<'a>,
    regions: Vec<Region<'a>>,
}

impl<'a> Regions<'a> {
    /// The regions of the servers' zones. The sets are the least and the greatest set of learnt addresses, and the table
    /// tells what the referrals of the zones' cuts show.
    pub fn build(
        alloc: Global,
        hosts: &Hosts<'a>,
        sets: &LearntSets,
        table: &CutTable<'a>,
    ) -> Result<Regions<'a>, NoMemory>
        requires { IsTableOf hosts.now sets.now table.now }
        ensures { IfOk result (AreRegionsFor hosts.now sets.now) }
    {
        let origins = origins_of(alloc, hosts.config())?;
        let tops = TopServers::of(alloc, hosts)?;
        let regions = regions_of(alloc, hosts, sets, table, &tops, origins.as_slice())?;
        Ok(Regions { tops, regions })
    }

    /// The top servers by the origins of their zones.
    pub(crate) fn tops(&self) -> &TopServers<'a>
        ensures { result.now ≡ self.now.tops }
    {
        &self.tops
    }

    /// Whether no server has a zone with an origin below the name, where the region at a place and the next one tell it: at
    /// the place that is left where the name itself was looked for they do.
    pub fn none_below(&self, near: usize, name: &Name) -> bool
        ensures { result ≡ true → (config : Config) (deps : Deps) → AreRegionsFor config deps self.now → NoOriginBelow config name.now }
    {
        let regions = self.regions.as_slice();
        if regions.len() <= near {
            return false;
        }
        if regions[near].origin.compare(name).is_gt() {
            return false;
        }
        if near + 1 < regions.len() {
            is_past(name, regions[near + 1].origin)
        } else {
            true
        }
    }

    /// The search for a name, which has passed all states up to those whose servers answer for the nearest origin, or
    /// `None` where no origin is at or above the name. It is one for the names below too that have no origin between. The
    /// region is looked for near a place first, whatever that is, and the place is left near which that of the next name
    /// may be looked for.
    pub(crate) fn search_for(&self, near: &mut usize, query: &Name) -> Option<&Search<'a>>
        requires { IsStrictlySortedBy name_cmp (region_origins self.now.regions.items) }
        ensures { IfSome result (λ searched. (config : Config) (deps : Deps) → AreRegionsFor config deps self.now → IsSearchBelow config deps query.now searched.now) }
    {
        match nearest_item(self.regions.as_slice(), near, query) {
            Some(region) => Some(&region.searched),
            None => None,
        }
    }
}

/// Whether the origin stands behind the name and all names below it.
fn is_past(name: &Name, origin: &Name) -> bool
    ensures { result ≡ true → IsPastName name.now origin.now }
{
    name.compare(origin).is_lt() && !name.is_prefix_of(origin)
}

/// The region of each origin.
fn regions_of<'a>(
    alloc: Global,
    hosts: &Hosts<'a>,
    sets: &LearntSets,
    table: &CutTable<'a>,
    tops: &TopServers<'a>,
    origins: &[&'a Name],
) -> Result<Vec<Region<'a>>, NoMemory>
    requires table { IsTableOf hosts.now sets.now table.now }
    requires tops { tops.now ≡ hosts.now }
    ensures origins { IfOk result (λ regions. region_origins regions.items ≡ map (λ origin. origin.now) origins.now) }
    ensures each { IfOk result (λ regions. AllByRecursion (IsRegion hosts.now sets.now) regions.items) }
{
    let mut regions = Vec::new(alloc);
    for origin in origins {
        let searched = search_below(alloc, hosts, sets, table, tops, origin)?;
        regions.push(Region { origin, searched })?;
    }
    Ok(regions)
}
