//! Places that are listed for names.

ghost use Rattle.std.specs.Prelude.{◌≡◌, ◌∷◌, [], false, OnOk};
ghost use Rattle.dns_data.specs.Listed.{places_of};
ghost use Rattle.dns_data.specs.Name.{Labels, name_eq};
ghost use Rattle.zone_lookup.specs.ListedFor.{IsListedFor};

use dns_data::{List, Name, NoMemory};
use std::alloc::Global;
use std::collections::BTreeMap;

/// The places that are listed for the name. It takes no memory.
pub fn listed_for<'p>(places: &'p BTreeMap<Name, List<usize>>, name: &Name) -> &'p [usize]
    ensures { result.now ≡ places_of places.now name.now }
{
    match places.get(name) {
        Some(listed) => listed.items(),
        None => &[],
    }
}

/// Lists a place for the name, behind those that are listed for it. After an error nothing may be listed for the name.
pub fn list_place(
    alloc: Global,
    name: &Name,
    place: usize,
    places: &mut BTreeMap<Name, List<usize>>,
) -> Result<(), NoMemory>
    ensures { OnOk result (IsListedFor place (name.now ∷ []) places.old places.new) }
{
    let mut listed = take_listed(alloc, name, places);
    listed.push(place)?;
    places.insert(name.copy(alloc)?, listed)?;
    Ok(())
}

/// Takes the places that are listed for the name out.
fn take_listed(alloc: Global, name: &Name, places: &mut BTreeMap<Name, List<usize>>) -> List<usize>
    ensures taken { result ≡ places_of places.old name.now }
    ensures others { (other : Labels) → name_eq name.now other ≡ false → places_of places.new other ≡ places_of places.old other }
{
    match places.remove(name) {
        Some(listed) => listed,
        None => List::new(alloc),
    }
}
