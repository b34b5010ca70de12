//! Ends of walks, each once, found by their servers.

ghost use Rattle.std.specs.Prelude.{◌≡◌, ◌∷◌, ◌++◌, ℕ, [], Contains, OnOk};
ghost use Rattle.std.specs.List.{list_any};
ghost use Rattle.dns_data.specs.Name.{Labels};
ghost use Rattle.site_checks.specs.Ends.{end_eq, leaf_eq, typed_end};
ghost use Rattle.dns_data.specs.Listed.{places_of};
ghost use Rattle.site_checks.specs.EndPlaces.{is_end_at};
ghost use Rattle.site_checks.specs.Once.{with_new};

use crate::views::TypedEnd;
use dns_data::{List, Name, NoMemory, RrType};
use graph_form::is_same_answer;
use net_model::Leaf;
use std::alloc::Global;
use std::collections::BTreeMap;
use std::marker::Model;

/// Ends of walks, each once, in the order in which they came, with the places of those at each server.
#[derive(Drop)]
pub(crate) struct EndSet {
    ends: List<TypedEnd>,
    places: BTreeMap<Name, List<usize>>,
}

impl Model for EndSet {
    ghost use Rattle.std.specs.Prelude.{List};
    ghost use Rattle.site_checks.specs.EndPlaces.{ListsPlaces};
    ghost use Rattle.site_checks.specs.declared.views.TypedEnd.{TypedEnd};

    ghost Value = { List TypedEnd };

    ghost view = { λ set. set.ends };

    ghost invariant = { λ set. ListsPlaces set.places set.ends };
}

impl EndSet {
    /// No end.
    pub(crate) fn new(alloc: Global) -> EndSet
        ensures { result ≡ [] }
    {
        EndSet {
            ends: List::new(alloc),
            places: BTreeMap::new(alloc),
        }
    }

    /// The ends, in order.
    pub(crate) fn into_list(self) -> List<TypedEnd>
        ensures { result ≡ self }
    {
        self.ends
    }

    /// Puts an end behind the others, unless it is there. It is compared with those at its server.
    pub(crate) fn put(
        &mut self,
        alloc: Global,
        rtype: RrType,
        server: &Name,
        leaf: &Leaf,
    ) -> Result<(), NoMemory>
        ensures { OnOk result (self.new ≡ with_new end_eq self.old (typed_end rtype server.now leaf.now)) }
    {
        if self.has(rtype, server, leaf) {
            return Ok(());
        }
        self.push(
            alloc,
            TypedEnd {
                rtype,
                server: server.copy(alloc)?,
                leaf: leaf.copy(alloc)?,
            },
        )
    }

    /// Whether the end is there.
    fn has(&self, rtype: RrType, server: &Name, leaf: &Leaf) -> bool
        ensures { result ≡ list_any (end_eq (typed_end rtype server.now leaf.now)) self.now }
    {
        match self.places.get(server) {
            Some(places) => is_at_one(self.ends.items(), places.items(), rtype, server, leaf),
            None => false,
        }
    }

    /// Puts an end behind the others, and lists its place for its server.
    fn push(&mut self, alloc: Global, end: TypedEnd) -> Result<(), NoMemory>
        ensures { OnOk result (self.new ≡ self.old ++ end ∷ []) }
    {
        list_place(alloc, &mut self.places, &end.server, self.ends.len())?;
        self.ends.push(end)?;
        Ok(())
    }
}

/// Whether the end is at one of these places.
fn is_at_one(ends: &[TypedEnd], places: &[usize], rtype: RrType, server: &Name, leaf: &Leaf) -> bool
    ensures { result ≡ list_any (is_end_at ends.now (typed_end rtype server.now leaf.now)) places.now }
{
    places
        .iter()
        .any(|place| is_end_at(ends, *place, rtype, server, leaf))
}

/// Whether the end is at this place.
fn is_end_at(ends: &[TypedEnd], place: usize, rtype: RrType, server: &Name, leaf: &Leaf) -> bool
    ensures { result ≡ is_end_at ends.now (typed_end rtype server.now leaf.now) place }
{
    match ends.get(place) {
        Some(end) => is_end(end, rtype, server, leaf),
        None => false,
    }
}

/// Whether an end is this one.
fn is_end(end: &TypedEnd, rtype: RrType, server: &Name, leaf: &Leaf) -> bool
    ensures { result ≡ end_eq (typed_end rtype server.now leaf.now) end.now }
{
    rtype.number() == end.rtype.number() && *server == end.server && is_same_leaf(leaf, &end.leaf)
}

/// Whether two leaves are equal.
fn is_same_leaf(a: &Leaf, b: &Leaf) -> bool
    ensures { result ≡ leaf_eq a.now b.now }
{
    match (a, b) {
        (Leaf::Answer(_), Leaf::Answer(_)) => is_same_answer(a, b),
        (Leaf::NoData, Leaf::NoData)
        | (Leaf::NxDomain, Leaf::NxDomain)
        | (Leaf::Outside, Leaf::Outside) => true,
        (Leaf::Unhosted(ns), Leaf::Unhosted(other))
        | (Leaf::Lame(ns), Leaf::Lame(other))
        | (Leaf::NoAddress(ns), Leaf::NoAddress(other)) => *ns == *other,
        (Leaf::Limit(place), Leaf::Limit(other)) | (Leaf::Overlong(place), Leaf::Overlong(other)) =>
            place == other,
        _ => false,
    }
}

/// Lists a place for a server. What was listed stays, after an error too.
fn list_place(
    alloc: Global,
    places: &mut BTreeMap<Name, List<usize>>,
    server: &Name,
    place: usize,
) -> Result<(), NoMemory>
    ensures listed { OnOk result (Contains (places_of places.new server.now) place) }
    ensures stays { (name : Labels) (other : ℕ) → Contains (places_of places.old name) other → Contains (places_of places.new name) other }
{
    if let Some(listed) = places.get_mut(server) {
        return listed.push(place);
    }
    list_first(alloc, places, server, place)
}

/// Lists a place for a server for which none is listed. What was listed stays, after an error too.
fn list_first(
    alloc: Global,
    places: &mut BTreeMap<Name, List<usize>>,
    server: &Name,
    place: usize,
) -> Result<(), NoMemory>
    requires { places_of places.old server.now ≡ [] }
    ensures listed { OnOk result (Contains (places_of places.new server.now) place) }
    ensures stays { (name : Labels) (other : ℕ) → Contains (places_of places.old name) other → Contains (places_of places.new name) other }
{
    let mut listed = List::new(alloc);
    listed.push(place)?;
    places.insert(server.copy(alloc)?, listed)?;
    Ok(())
}
