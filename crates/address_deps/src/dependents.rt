//! Who waits for the address of a name server.

ghost use Rattle.std.specs.Prelude.{◌≡◌, ◌++◌, ◌∷◌, [], true, false, Contains, IfOk, OnOk, length, map};
ghost use Rattle.std.specs.List.{flat_map};
ghost use Rattle.dns_data.specs.Listed.{places_of};
ghost use Rattle.zone_lookup.specs.ListedFor.{IsListedFor};
ghost use Rattle.address_deps.specs.Dependents.{AreDependents, address_awaits, turn_awaits, turns_await};

use crate::addresses::{AddressLearnt, Turn};
use dns_data::{List, Name, NoMemory};
use std::alloc::Global;
use std::collections::BTreeMap;
use zone_lookup::{list_place, listed_for};

/// For each name server the places of the servers that wait for its address: a path of their names goes on while it is
/// followed.
#[derive(Debug, Drop)]
pub(crate) struct Dependents {
    places: BTreeMap<Name, List<usize>>,
}

impl Dependents {
    /// Who waits for each name server's address, by what tells whether the servers' own are learnt. Each turn is passed
    /// over once.
    pub(crate) fn of(alloc: Global, addresses: &[AddressLearnt<'_>]) -> Result<Dependents, NoMemory>
        ensures { IfOk result (λ dependents. AreDependents addresses.now (length addresses.now) dependents.places) }
    {
        let mut dependents = Dependents {
            places: BTreeMap::new(alloc),
        };
        for place in 0..addresses.len() {
            let names = names_for(alloc, &addresses[place])?;
            dependents.put_all(alloc, names.as_slice(), place)?;
        }
        Ok(dependents)
    }

    /// The places of those that wait for the name server's address. It takes no memory.
    pub(crate) fn on(&self, name: &Name) -> &[usize]
        ensures { result.now ≡ places_of self.now.places name.now }
    {
        listed_for(&self.places, name)
    }

    /// Lists a place for each of the names.
    fn put_all(&mut self, alloc: Global, names: &[&Name], place: usize) -> Result<(), NoMemory>
        ensures { OnOk result (IsListedFor place (map (λ name. name.now) names.now) self.old.places self.new.places) }
    {
        for name in names {
            self.put(alloc, name, place)?;
        }
        Ok(())
    }

    /// Lists a place for the name, unless it is the last that is listed.
    fn put(&mut self, alloc: Global, name: &Name, place: usize) -> Result<(), NoMemory>
        ensures { OnOk result (IsListedFor place (name.now ∷ []) self.old.places self.new.places) }
    {
        if is_last(self.on(name), place) {
            return Ok(());
        }
        list_place(alloc, name, place, &mut self.places)
    }
}

/// Whether the place is the last of the list.
fn is_last(listed: &[usize], place: usize) -> bool
    ensures { result ≡ true → Contains listed.now place }
{
    match listed.last() {
        Some(last) => *last == place,
        None => false,
    }
}

/// The names of the name servers for whose addresses a server waits, by what tells whether its own is learnt.
fn names_for<'a>(alloc: Global, address: &AddressLearnt<'a>) -> Result<Vec<&'a Name>, NoMemory>
    ensures { IfOk result (λ names. map (λ name. name.now) names.items ≡ address_awaits address.now) }
{
    let mut names = Vec::new(alloc);
    if let AddressLearnt::ByPaths(paths) = address {
        put_nodes(paths.four.items(), &mut names)?;
        put_nodes(paths.six.items(), &mut names)?;
    }
    Ok(names)
}

/// Puts the names of the name servers behind the others for whose addresses turns of the nodes wait.
fn put_nodes<'a>(nodes: &[List<Turn<'a>>], names: &mut Vec<&'a Name>) -> Result<(), NoMemory>
    ensures { OnOk result (map (λ name. name.now) names.new.items ≡ map (λ name. name.now) names.old.items ++ flat_map turns_await nodes.now) }
{
    for turns in nodes {
        put_turns(turns.items(), names)?;
    }
    Ok(())
}

/// Puts the names of the name servers behind the others for whose addresses the turns wait.
fn put_turns<'a>(turns: &[Turn<'a>], names: &mut Vec<&'a Name>) -> Result<(), NoMemory>
    ensures { OnOk result (map (λ name. name.now) names.new.items ≡ map (λ name. name.now) names.old.items ++ turns_await turns.now) }
{
    for turn in turns {
        put_turn(turn, names)?;
    }
    Ok(())
}

/// Puts the name of the name server behind the others for whose address the turn waits, if it waits for one.
fn put_turn<'a>(turn: &Turn<'a>, names: &mut Vec<&'a Name>) -> Result<(), NoMemory>
    ensures { OnOk result (map (λ name. name.now) names.new.items ≡ map (λ name. name.now) names.old.items ++ turn_awaits turn.now) }
{
    if let Turn::Waits(_, name) = turn {
        names.push(*name)?;
    }
    Ok(())
}
