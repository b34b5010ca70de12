//! What the names of a tree own, in a few lists for all of them.

ghost use Rattle.std.specs.Prelude.{◌≡◌, ◌++◌, ◌<◌, [], ◌∷◌, All, map, length, IfOk, OnOk};
ghost use Rattle.std.specs.List.{filter};
ghost use Rattle.dns_data.specs.Rdata.{has_type};
ghost use Rattle.zone_tree.specs.OwnedLists.{part_of, set_of, owned_at, owned_by, IsFront, IsPartOf, IsPut, IsPutSet, IsWithin, HaveGrown};
ghost use Rattle.zone_tree.specs.Records.{AreRecordSets, TellsTypes};

use crate::order::{servers_of, set_in_order};
use crate::records::{first_of_type, types_of};
use dns_data::{Name, NoMemory, Rdata, Rr, RrType, TypeSet};
use std::alloc::Global;

/// A part of a list, from one place up to another.
#[derive(Clone, Copy, Debug)]
pub(crate) struct Part {
    pub start: usize,
    pub end: usize,
}

/// What a name owns: its types, and which of all name servers and of all sets are its own.
#[derive(Debug, Drop)]
pub(crate) struct OwnedParts {
    pub types: TypeSet,
    pub servers: Part,
    pub sets: Part,
}

/// The data of a type: the first in file order, whose number a zone may leave open; and where there are several, which of
/// the data of all names they are.
#[derive(Debug, Drop)]
pub(crate) struct RecordSet<'a> {
    pub rtype: RrType,
    pub first: &'a Rdata,
    pub several: Part,
}

/// What names own that own more than one datum, and the lists that have their parts: the sets of each name, the data of
/// each set of several in the order of their texts, and the name servers of each name in the order of names.
#[derive(Debug, Drop)]
pub(crate) struct OwnedLists<'a> {
    pub names: Vec<OwnedParts>,
    pub sets: Vec<RecordSet<'a>>,
    pub several: Vec<Rdata>,
    pub servers: Vec<&'a Name>,
}

impl<'a> OwnedLists<'a> {
    /// The lists without an item.
    pub(crate) fn new(alloc: Global) -> OwnedLists<'a>
        ensures { result.names.items ≡ [] }
    {
        OwnedLists {
            names: Vec::new(alloc),
            sets: Vec::new(alloc),
            several: Vec::new(alloc),
            servers: Vec::new(alloc),
        }
    }

    /// What the name at a place owns.
    pub(crate) fn parts_at(&self, place: usize) -> &OwnedParts
        requires place { place < length self.now.names.items }
        requires within { All (IsWithin self.now) self.now.names.items }
        ensures owned { owned_by self.now result.now ≡ owned_at self.now place }
        ensures within { IsWithin self.now result.now }
    {
        &self.names[place]
    }

    /// The same lists, in no more room than they take.
    pub(crate) fn shrunk(self) -> OwnedLists<'a>
        ensures names { result.names.items ≡ self.entry.names.items }
        ensures all { HaveGrown self.entry result }
    {
        let mut lists = self;
        lists.names.shrink_to_fit();
        lists.sets.shrink_to_fit();
        lists.several.shrink_to_fit();
        lists.servers.shrink_to_fit();
        lists
    }
}

/// Puts what a name owns behind what others own, by its records, which are in file order: at which place.
pub(crate) fn put_owned<'a>(
    alloc: Global,
    lists: &mut OwnedLists<'a>,
    own: &[&'a Rr],
) -> Result<usize, NoMemory>
    ensures { IfOk result (IsPut (map (λ rr. rr.now.rdata) own.now) lists.old lists.new) }
{
    let types = types_of(own);
    let sets = put_sets(alloc, &mut lists.sets, &mut lists.several, own, types)?;
    let servers = put_behind(&mut lists.servers, servers_of(alloc, own)?)?;
    let place = lists.names.len();
    lists.names.push(OwnedParts {
        types,
        servers,
        sets,
    })?;
    Ok(place)
}

/// Puts the set of each of the types behind other sets, and their data behind others: which sets they are.
fn put_sets<'a>(
    alloc: Global,
    sets: &mut Vec<RecordSet<'a>>,
    several: &mut Vec<Rdata>,
    own: &[&'a Rr],
    types: TypeSet,
) -> Result<Part, NoMemory>
    requires { TellsTypes (map (λ rr. rr.now.rdata) own.now) types }
    ensures sets { OnOk result (IsFront sets.old.items sets.new.items) }
    ensures several { OnOk result (IsFront several.old.items several.new.items) }
    ensures part { IfOk result (IsPartOf sets.new.items) }
    ensures within { IfOk result (λ part. All (λ set. IsPartOf several.new.items set.several) (part_of sets.new.items part)) }
    ensures all { IfOk result (λ part. AreRecordSets (map (λ rr. rr.now.rdata) own.now) [] (map (set_of several.new.items) (part_of sets.new.items part))) }
{
    let start = sets.len();
    for rtype in RrType::ALL {
        if types.has(rtype) {
            if let Some((first, later)) = first_of_type(own, rtype) {
                let set = put_set(alloc, several, own, rtype, first, later)?;
                sets.push(set)?;
            }
        }
    }
    Ok(Part {
        start,
        end: sets.len(),
    })
}

/// The set of a type, of which these are the first data and those records stand behind them. Where there are several data,
/// they are put behind others.
fn put_set<'a>(
    alloc: Global,
    several: &mut Vec<Rdata>,
    own: &[&'a Rr],
    rtype: RrType,
    first: &'a Rdata,
    later: &[&'a Rr],
) -> Result<RecordSet<'a>, NoMemory>
    requires { filter (has_type rtype) (map (λ rr. rr.now.rdata) own.now) ≡ first.now ∷ filter (has_type rtype) (map (λ rr. rr.now.rdata) later.now) }
    ensures several { OnOk result (IsFront several.old.items several.new.items) }
    ensures set { IfOk result (IsPutSet (map (λ rr. rr.now.rdata) own.now) rtype several.new.items) }
{
    let part = match first_of_type(later, rtype) {
        Some(_) => put_behind(several, set_in_order(alloc, own, rtype)?)?,
        None => Part { start: 0, end: 0 },
    };
    Ok(RecordSet {
        rtype,
        first,
        several: part,
    })
}

/// Puts items behind others: which part of all they are then.
fn put_behind<T: Drop>(items: &mut Vec<T>, more: Vec<T>) -> Result<Part, NoMemory>
    ensures items { OnOk result (items.new.items ≡ items.old.items ++ more.items) }
    ensures within { IfOk result (IsPartOf items.new.items) }
    ensures part { IfOk result (λ part. part_of items.new.items part ≡ more.items) }
{
    let mut more = more;
    let start = items.len();
    items.append(&mut more)?;
    Ok(Part {
        start,
        end: items.len(),
    })
}

/// The items of a part.
pub(crate) fn items_of<T>(items: &[T], part: Part) -> &[T]
    requires { IsPartOf items.now part }
    ensures { result.now ≡ part_of items.now part }
{
    &items[part.start..part.end]
}
