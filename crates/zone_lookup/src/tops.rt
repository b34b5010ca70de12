//! The top servers that hold a zone for a name.

ghost use Rattle.std.specs.Prelude.{◌≡◌, ◌∷◌, ◌++◌, ◌+◌, ◌⊎◌, ◌↔◌, [], ℕ, false, true, length, map, slice_get, Contains, IfOk, OnOk};
ghost use Rattle.std.specs.List.{filter_map};
ghost use Rattle.dns_data.specs.Name.{Labels};
ghost use Rattle.net_model.specs.Nearest.{nearest_of};
ghost use Rattle.zone_lookup.specs.Tops.{HasLike, HoldsThese, IsListedAbove, ListsTops, StandsForTops, nearest_among, tops_holding, with_tops};
ghost use Rattle.zone_lookup.specs.ListedFor.{IsListedFor};

use crate::hosts::Hosts;
use crate::listed::{list_place, listed_for};
use crate::same_zones::are_same;
use dns_data::{List, Name, NoMemory};
use net_model::{Config, Zone};
use std::alloc::Global;
use std::collections::{BTreeMap, BTreeSet};
use std::marker::Model;

/// A top server's zones are compared with those of no more listed ones than these.
const MOST_COMPARED: usize = 4;

/// Top servers of a configuration by the origins of the zones that they hold. Contracts see the configuration with these
/// top servers alone.
#[derive(Drop)]
pub struct TopServers<'a> {
    config: &'a Config,
    tops: Vec<&'a Name>,
    places: BTreeMap<Name, List<usize>>,
}

impl<'a> Model for TopServers<'a> {
    ghost use Rattle.std.specs.Prelude.{map};
    ghost use Rattle.net_model.specs.declared.config.Config.{Config};
    ghost use Rattle.zone_lookup.specs.Tops.{ListsTops, with_tops};

    ghost Value = { Config };

    ghost view = { λ listed. with_tops listed.config.now (map (λ top. top.now) listed.tops.items) };

    ghost invariant = { λ listed. ListsTops (with_tops listed.config.now (map (λ top. top.now) listed.tops.items)) listed.places };
}

impl<'a> TopServers<'a> {
    /// All top servers of the configuration. The origins of their zones are copied.
    pub fn of(alloc: Global, hosts: &Hosts<'a>) -> Result<TopServers<'a>, NoMemory>
        ensures { IfOk result (λ listed. listed ≡ hosts.now) }
    {
        let config = hosts.config();
        let mut tops = Vec::new(alloc);
        let mut places = BTreeMap::new(alloc);
        for top in config.tops() {
            list_top(alloc, hosts, top, &mut tops, &mut places)?;
        }
        Ok(TopServers {
            config,
            tops,
            places,
        })
    }

    /// Top servers that stand for all: a top server is left out whose zones are the same, record by record, as those of one
    /// of the last few that were listed for the origin of its first zone. Walks begin alike at both, so that of thousands
    /// of top servers that hold one zone a single one is asked for each name. Nothing else is left out.
    pub fn unlike(alloc: Global, hosts: &Hosts<'a>) -> Result<TopServers<'a>, NoMemory>
        ensures { IfOk result (StandsForTops hosts.now) }
    {
        let config = hosts.config();
        let mut tops = Vec::new(alloc);
        let mut places = BTreeMap::new(alloc);
        for top in config.tops() {
            if !has_like(hosts, tops.as_slice(), &places, top) {
                list_top(alloc, hosts, top, &mut tops, &mut places)?;
            }
        }
        Ok(TopServers {
            config,
            tops,
            places,
        })
    }

    /// How many of them there are.
    pub fn count(&self) -> usize
        ensures { result ≡ length self.now.tops }
    {
        self.tops.len()
    }

    /// Those that hold a zone at or above the name, in the configuration's order.
    pub fn holding(&self, alloc: Global, name: &Name) -> Result<Vec<&'a Name>, NoMemory>
        ensures { IfOk result (λ found. map (λ top. top.now) found.items ≡ tops_holding self.now name.now) }
    {
        let places = places_above(alloc, &self.places, name)?;
        // The length is read, so that it is known here that the set is in order.
        let _ = places.len();
        let places = in_order(alloc, places)?;
        tops_at(alloc, self.tops.as_slice(), places.as_slice())
    }
}

/// The places that are listed for the name or an ancestor.
fn places_above(
    alloc: Global,
    places: &BTreeMap<Name, List<usize>>,
    name: &Name,
) -> Result<BTreeSet<usize>, NoMemory>
    ensures { IfOk result (λ found. (place : ℕ) → Contains found.keys place ↔ IsListedAbove places.now name.now (length name.now + 1) place) }
{
    let mut found = BTreeSet::new(alloc);
    for count in 0..name.len() as usize + 1 {
        let front = name.copy_front(alloc, count)?;
        put_places(&mut found, listed_for(places, &front))?;
    }
    Ok(found)
}

/// The zones of the server of this name, or none where it isn't configured.
fn zones_of<'a>(hosts: &Hosts<'a>, name: &Name) -> &'a [Zone]
    ensures origins { HoldsThese hosts.now name.now (map (λ zone. zone.origin) result.now) }
    ensures nearest { (asked : Labels) → nearest_of hosts.now name.now asked ≡ nearest_among result.now asked }
{
    match hosts.host(name) {
        Some(host) => host.server().zones.items(),
        None => &[],
    }
}

/// Puts a top server behind the others, and lists its place for the origin of each of its zones.
fn list_top<'a>(
    alloc: Global,
    hosts: &Hosts<'a>,
    top: &'a Name,
    tops: &mut Vec<&'a Name>,
    places: &mut BTreeMap<Name, List<usize>>,
) -> Result<(), NoMemory>
    requires { ListsTops (with_tops hosts.now (map (λ top. top.now) tops.old.items)) places.old }
    ensures tops { OnOk result (map (λ top. top.now) tops.new.items ≡ map (λ top. top.now) tops.old.items ++ top.now ∷ []) }
    ensures places { OnOk result (ListsTops (with_tops hosts.now (map (λ top. top.now) tops.old.items ++ top.now ∷ [])) places.new) }
{
    list_zones(alloc, zones_of(hosts, top), tops.len(), places)?;
    tops.push(top)?;
    Ok(())
}

/// Whether one of the listed servers is seen to hold the same zones as this one: one of the last few that are listed for
/// the origin of its first zone. What the places say is tried, never trusted.
fn has_like(
    hosts: &Hosts<'_>,
    tops: &[&Name],
    places: &BTreeMap<Name, List<usize>>,
    server: &Name,
) -> bool
    ensures { result ≡ true → HasLike hosts.now (map (λ top. top.now) tops.now) server.now }
{
    let zones = zones_of(hosts, server);
    let Some(first) = zones.first() else {
        return false;
    };
    let listed = listed_for(places, &first.origin);
    for place in &listed[listed.len().saturating_sub(MOST_COMPARED)..] {
        if let Some(top) = tops.get(*place) {
            if are_same(zones_of(hosts, top), zones) {
                return true;
            }
        }
    }
    false
}

/// Lists the place of a top server for the origin of each of its zones.
fn list_zones(
    alloc: Global,
    zones: &[Zone],
    place: usize,
    places: &mut BTreeMap<Name, List<usize>>,
) -> Result<(), NoMemory>
    ensures { OnOk result (IsListedFor place (map (λ zone. zone.origin) zones.now) places.old places.new) }
{
    for zone in zones {
        list_place(alloc, &zone.origin, place, places)?;
    }
    Ok(())
}

/// Puts places into a set.
fn put_places(found: &mut BTreeSet<usize>, places: &[usize]) -> Result<(), NoMemory>
    ensures { OnOk result ((place : ℕ) → Contains found.new.keys place ↔ (Contains found.old.keys place ⊎ Contains places.now place)) }
{
    for place in places {
        found.insert(*place)?;
    }
    Ok(())
}

/// The places of a set, in order.
fn in_order(alloc: Global, places: BTreeSet<usize>) -> Result<Vec<usize>, NoMemory>
    ensures { IfOk result (λ list. list.items ≡ places.keys) }
{
    Ok(places.into_iter().collect(alloc)?)
}

/// The top servers at these places.
fn tops_at<'a>(
    alloc: Global,
    tops: &[&'a Name],
    places: &[usize],
) -> Result<Vec<&'a Name>, NoMemory>
    ensures { IfOk result (λ found. found.items ≡ filter_map (slice_get tops.now) places.now) }
{
    let mut found = Vec::new(alloc);
    for place in places {
        if let Some(top) = tops.get(*place) {
            found.push(*top)?;
        }
    }
    Ok(found)
}
