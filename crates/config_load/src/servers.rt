//! Servers and their zones.

ghost use Rattle.std.specs.Prelude.{◌≡◌, ◌<◌, [], ◌∷◌, ◌++◌, Some, IfOk, IfSome, OnOk, length, vec_len};
ghost use Rattle.std.specs.BTreeMap.{Updates};
ghost use Rattle.dns_data.specs.Answers.{AnswersOr};
ghost use Rattle.dns_data.specs.Name.{name_cmp};
ghost use Rattle.net_model.specs.Configured.{AreConsistent, KeepsWithin};
ghost use Rattle.config_load.specs.Hosted.{ArePlaces, held_in, with_zone_at, zones_of};
ghost use Rattle.config_load.specs.Servers.{given, with_zone};

use crate::fault::LoadFault;
use dns_data::{List, Name, NoMemory};
use net_model::{Server, Zone};
use std::alloc::Global;
use std::collections::{BTreeMap, BTreeSet};
use std::marker::Model;

/// Servers in the order in which they came, each with its zones, with the place of each by its name, and the origin of
/// each zone that one of them holds with the server's name.
#[derive(Drop)]
pub(crate) struct Servers {
    servers: Vec<Server>,
    places: BTreeMap<Name, usize>,
    held: BTreeSet<List<Name>>,
}

impl Model for Servers {
    ghost use Rattle.std.specs.Prelude.{List};
    ghost use Rattle.net_model.specs.Configured.{AreConsistent};
    ghost use Rattle.net_model.specs.declared.config.Server.{Server};
    ghost use Rattle.config_load.specs.Hosted.{ArePlaces, AreHeld};

    ghost Value = { List Server };

    ghost view = { λ a. a.servers.items };

    ghost invariant = { λ a. (ArePlaces a.places a.servers.items) × (AreHeld a.held a.servers.items) × AreConsistent a.servers.items };
}

impl Servers {
    /// No server.
    #[tactic(auto, using(crate::proofs::ConsistentServers::none_consistent))]
    pub(crate) fn new(alloc: Global) -> Servers
        ensures { result ≡ [] }
    {
        Servers {
            servers: Vec::new(alloc),
            places: BTreeMap::new(alloc),
            held: BTreeSet::new(alloc),
        }
    }

    /// The servers, in order.
    pub(crate) fn into_list(self) -> List<Server>
        ensures value { result ≡ self }
        ensures consistent { AreConsistent result }
    {
        List::from_vec(self.servers)
    }

    /// The zone at this place among those of the server of this name, where it has this origin.
    pub(crate) fn zone(&self, name: &Name, origin: &Name, place: usize) -> Option<&Zone>
        ensures held { IfSome result (λ zone. held_in self.now name.now origin.now ≡ Some zone.now) }
        ensures within { IfSome result (λ zone. KeepsWithin zone.now) }
    {
        let zones = self.zones(name)?;
        let zone = zones.get(place)?;
        if zone.origin == *origin {
            Some(zone)
        } else {
            None
        }
    }

    /// The place of the last zone of the server of this name, or 0 where it has none.
    pub(crate) fn last_zone(&self, name: &Name) -> usize {
        match self.zones(name) {
            Some(zones) => zones.len().saturating_sub(1),
            None => 0,
        }
    }

    /// The zones of the server of this name.
    fn zones(&self, name: &Name) -> Option<&[Zone]>
        ensures found { IfSome result (λ zones. zones_of self.now name.now ≡ Some zones.now) }
        ensures consistent { AreConsistent self.now }
    {
        let place = self.places.get(name).copied()?;
        let server = self.servers.as_slice().get(place)?;
        Some(server.zones.items())
    }

    /// The servers with a zone more, which the row of this number gives to the server of this name. Its records lie at or
    /// below its origin.
    pub(crate) fn with_zone(
        self,
        alloc: Global,
        row: u32,
        name: &Name,
        zone: Zone,
    ) -> Result<Servers, LoadFault>
        requires { KeepsWithin zone }
        ensures { AnswersOr LoadFault.NoMemory result (given row name.now zone self) }
    {
        let Servers {
            mut servers,
            mut places,
            mut held,
        } = self;
        if !held.insert(origin_and_server(alloc, &zone.origin, name)?)? {
            return Err(LoadFault::ZoneTwice { row });
        }
        put_zone(alloc, &mut servers, &mut places, name, zone)?;
        Ok(Servers {
            servers,
            places,
            held,
        })
    }
}

/// Puts a zone behind the others of the server of this name, or at a server behind the others, and keeps its place.
fn put_zone(
    alloc: Global,
    servers: &mut Vec<Server>,
    places: &mut BTreeMap<Name, usize>,
    name: &Name,
    zone: Zone,
) -> Result<(), NoMemory>
    requires { ArePlaces places.old servers.old.items }
    ensures servers { OnOk result (servers.new.items ≡ with_zone name.now zone servers.old.items) }
    ensures places { OnOk result (ArePlaces places.new servers.new.items) }
{
    match places.get(name).copied() {
        Some(place) => push_zone(servers, place, zone),
        None => push_server(alloc, servers, places, name, zone),
    }
}

/// Puts a zone behind the others of the server at this place.
fn push_zone(servers: &mut Vec<Server>, place: usize, zone: Zone) -> Result<(), NoMemory>
    requires { place < vec_len servers.old }
    ensures { OnOk result (servers.new.items ≡ with_zone_at place zone servers.old.items) }
{
    servers[place].zones.push(zone)
}

/// The origin of a zone, in which most differ, and the name of its server: what tells the zone apart from others.
fn origin_and_server(alloc: Global, origin: &Name, name: &Name) -> Result<List<Name>, NoMemory>
    ensures { IfOk result (λ origin_and_server. origin_and_server ≡ origin.now ∷ name.now ∷ []) }
{
    let mut origin_and_server = List::new(alloc);
    origin_and_server.push(origin.copy(alloc)?)?;
    origin_and_server.push(name.copy(alloc)?)?;
    Ok(origin_and_server)
}

/// Puts a server with one zone behind the others, and keeps its place.
fn push_server(
    alloc: Global,
    servers: &mut Vec<Server>,
    places: &mut BTreeMap<Name, usize>,
    name: &Name,
    zone: Zone,
) -> Result<(), NoMemory>
    ensures servers { OnOk result (servers.new.items ≡ servers.old.items ++ (record { name = name.now; zones = zone ∷ [] }) ∷ []) }
    ensures places { OnOk result (Updates name_cmp places.old places.new name.now (Some (length servers.old.items))) }
{
    places.insert(name.copy(alloc)?, servers.len())?;
    let mut zones = List::new(alloc);
    zones.push(zone)?;
    servers.push(Server {
        name: name.copy(alloc)?,
        zones,
    })?;
    Ok(())
}
