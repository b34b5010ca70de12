//! A search among the servers, in either direction.

ghost use Rattle.std.specs.Prelude.{◌≡◌, ◌<◌, ◌≤◌, ◌==◌, ◌++◌, ℕ, Some, true, false, length, slice_get, IfOk, OnOk};
ghost use Rattle.net_model.specs.declared.config.Server.{Server};
ghost use Rattle.dns_data.specs.Listed.{places_of};
ghost use Rattle.address_deps.specs.Dependents.{AreAllPlaces, AreDependents};
ghost use Rattle.address_deps.specs.Direction.{IsFair, IsMoved, IsRoundOf, IsSettledAt, adds, unmoved};

use crate::addresses::AddressLearnt;
use crate::dependents::Dependents;
use crate::giving::learns;
use crate::server_set::ServerSet;
use dns_data::{List, Name, NoMemory};
use std::alloc::Global;
use zone_lookup::Hosts;

/// What a search does with a server: it adds one of which an address can be learnt, or it drops one of which none can.
#[derive(Clone, Copy, Debug)]
pub(crate) enum Direction {
    Adding,
    Dropping,
}

impl Direction {
    /// Whether servers are added.
    fn adds(self) -> bool
        ensures { result ≡ adds self }
    {
        match self {
            Direction::Adding => true,
            Direction::Dropping => false,
        }
    }

    /// Adds a server to the set, or drops it.
    fn change(self, alloc: Global, name: &Name, names: &mut ServerSet) -> Result<(), NoMemory>
        ensures { OnOk result (IsMoved self name.now names.old names.new) }
    {
        match self {
            Direction::Adding => names.put(alloc, name),
            Direction::Dropping => {
                names.take(name);
                Ok(())
            }
        }
    }
}

/// The servers that are left when none more is to be added or dropped. Each server is looked at once, and again when
/// one was added or dropped for whose address it waits.
pub(crate) fn settled(
    alloc: Global,
    hosts: &Hosts<'_>,
    addresses: &[AddressLearnt<'_>],
    dependents: &Dependents,
    direction: Direction,
    begun: ServerSet,
) -> Result<ServerSet, NoMemory>
    requires many { length addresses.now ≡ length hosts.now.servers }
    requires dependents { AreDependents addresses.now (length addresses.now) dependents.now.places }
    requires fair { IsFair direction hosts.now addresses.now begun }
    ensures fair { IfOk result (IsFair direction hosts.now addresses.now) }
    ensures settled { IfOk result (λ names. (place : ℕ) → place < length addresses.now → IsSettledAt direction hosts.now addresses.now names place) }
{
    let mut names = begun;
    let mut waiting = all_places(alloc, addresses)?;
    while !waiting.items().is_empty() {
        waiting = round(
            alloc,
            hosts,
            addresses,
            dependents,
            direction,
            waiting.items(),
            &mut names,
        )?;
    }
    Ok(names)
}

/// The places of all servers.
fn all_places(alloc: Global, addresses: &[AddressLearnt<'_>]) -> Result<List<usize>, NoMemory>
    ensures { IfOk result (AreAllPlaces (length addresses.now)) }
{
    let mut places = List::new(alloc);
    for place in 0..addresses.len() {
        places.push(place)?;
    }
    Ok(places)
}

/// Looks at the servers that wait, and adds or drops those for which it is time; gives those that wait then.
fn round(
    alloc: Global,
    hosts: &Hosts<'_>,
    addresses: &[AddressLearnt<'_>],
    dependents: &Dependents,
    direction: Direction,
    waiting: &[usize],
    names: &mut ServerSet,
) -> Result<List<usize>, NoMemory>
    requires many { length addresses.now ≡ length hosts.now.servers }
    requires dependents { AreDependents addresses.now (length addresses.now) dependents.now.places }
    requires round { IsRoundOf direction hosts.now addresses.now names.old waiting.now }
    ensures round { IfOk result (IsRoundOf direction hosts.now addresses.now names.new) }
    ensures fewer { IfOk result (λ next. (length next == 0) ≡ false → unmoved direction hosts.now.servers names.new < unmoved direction hosts.now.servers names.old) }
    ensures no_more { OnOk result (unmoved direction hosts.now.servers names.new ≤ unmoved direction hosts.now.servers names.old) }
{
    let mut next = List::new(alloc);
    for place in waiting {
        if move_at(alloc, hosts, addresses, direction, *place, names)? {
            wake(hosts, dependents, *place, &mut next)?;
        }
    }
    Ok(next)
}

/// Adds or drops the server at a place, if it is time; gives whether it did.
fn move_at(
    alloc: Global,
    hosts: &Hosts<'_>,
    addresses: &[AddressLearnt<'_>],
    direction: Direction,
    place: usize,
    names: &mut ServerSet,
) -> Result<bool, NoMemory>
    requires many { length addresses.now ≡ length hosts.now.servers }
    requires within { place < length addresses.now }
    requires fair { IsFair direction hosts.now addresses.now names.old }
    ensures fair { OnOk result (IsFair direction hosts.now addresses.now names.new) }
    ensures fewer { IfOk result (λ moved. moved ≡ true → unmoved direction hosts.now.servers names.new < unmoved direction hosts.now.servers names.old) }
    ensures same { IfOk result (λ moved. moved ≡ false → names.new ≡ names.old) }
    ensures settled { IfOk result (λ moved. moved ≡ false → IsSettledAt direction hosts.now addresses.now names.old place) }
    ensures moved { IfOk result (λ moved. moved ≡ true → (server : Server) → slice_get hosts.now.servers place ≡ Some server
        → IsMoved direction server.name names.old names.new) }
{
    let name = name_at(hosts, place);
    if names.has(name) == direction.adds() {
        return Ok(false);
    }
    if learns(alloc, hosts, &addresses[place], names)? != direction.adds() {
        return Ok(false);
    }
    direction.change(alloc, name, names)?;
    Ok(true)
}

/// Puts those that wait for the address of the server at a place behind the others.
fn wake(
    hosts: &Hosts<'_>,
    dependents: &Dependents,
    place: usize,
    next: &mut List<usize>,
) -> Result<(), NoMemory>
    requires { place < length hosts.now.servers }
    ensures { OnOk result ((server : Server) → slice_get hosts.now.servers place ≡ Some server → next.new ≡ next.old ++ places_of dependents.now.places server.name) }
{
    for other in dependents.on(name_at(hosts, place)) {
        next.push(*other)?;
    }
    Ok(())
}

/// The name of the server at a place.
fn name_at<'a>(hosts: &Hosts<'a>, place: usize) -> &'a Name
    requires { place < length hosts.now.servers }
    ensures { (server : Server) → slice_get hosts.now.servers place ≡ Some server → result.now ≡ server.name }
{
    &hosts.config().servers()[place].name
}
