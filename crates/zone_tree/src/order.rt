//! Data and name servers in their order, each once.

ghost use Rattle.std.specs.Prelude.{◌≡◌, ◌≤◌, map, [], length, IfOk, OnOk, IfSome};
ghost use Rattle.std.specs.List.{filter, AllByRecursion};
ghost use Rattle.dns_data.specs.DataText.{data_text};
ghost use Rattle.dns_data.specs.Name.{name_cmp};
ghost use Rattle.dns_data.specs.Rdata.{has_type};
ghost use Rattle.dns_data.specs.declared.rr_type.RrType.TheVariants as types;
ghost use Rattle.net_model.specs.Order.{in_order, put_in_order};
ghost use Rattle.net_model.specs.Zone.{data_cmp};
ghost use Rattle.zone_tree.specs.Merged.{put_each, placed};
ghost use Rattle.zone_tree.specs.Records.{targets_of};

use crate::records::{first_of_type, is_of_type, target_of};
use crate::texts::{data_order, text_of};
use dns_data::{List, Name, NoMemory, Octets, Rdata, Rr, RrType};
use std::alloc::Global;
use std::cmp::Ordering;
use std::collections::{BTreeMap, BTreeSet};

/// How many records a name has at most whose data are put in their places one by one; of more a tree is made.
const MOST_PLACED: usize = 16;

/// The names of the name servers in the order of names.
pub(crate) fn servers_of<'a>(alloc: Global, own: &[&'a Rr]) -> Result<Vec<&'a Name>, NoMemory>
    ensures { IfOk result (λ servers. map (λ server. server.now) servers.items ≡ in_order name_cmp (targets_of (map (λ rr. rr.now.rdata) own.now) types.Ns)) }
{
    let Some(_) = first_of_type(own, RrType::Ns) else {
        return Ok(Vec::new(alloc));
    };
    if own.len() <= MOST_PLACED {
        return placed_servers(alloc, own);
    }
    let set = server_set(alloc, own)?;
    Ok(set.into_iter().collect(alloc)?)
}

/// The names of the name servers, each put in its place. The last records are looked at first.
fn placed_servers<'a>(alloc: Global, own: &[&'a Rr]) -> Result<Vec<&'a Name>, NoMemory>
    ensures { IfOk result (λ servers. map (λ server. server.now) servers.items ≡ in_order name_cmp (targets_of (map (λ rr. rr.now.rdata) own.now) types.Ns)) }
{
    let mut servers = Vec::with_capacity(alloc, 2)?;
    let mut left = own.len();
    while left > 0 {
        left -= 1;
        let rr = own[left];
        if is_of_type(&rr.rdata, RrType::Ns) {
            if let Some(server) = target_of(&rr.rdata) {
                put_server(&mut servers, server)?;
            }
        }
    }
    Ok(servers)
}

/// Puts a name in its place among names in order, unless it is there.
fn put_server<'a>(servers: &mut Vec<&'a Name>, server: &'a Name) -> Result<(), NoMemory>
    ensures { OnOk result (map (λ server. server.now) servers.new.items ≡ put_in_order name_cmp server.now (map (λ server. server.now) servers.old.items)) }
{
    if let Some(place) = place_of_server(servers.as_slice(), server) {
        servers.insert(place, server)?;
    }
    Ok(())
}

/// The place of a name among names in order, or `None` where it is there.
fn place_of_server(servers: &[&Name], server: &Name) -> Option<usize>
    ensures within { IfSome result (λ place. place ≤ length servers.now) }
    ensures puts { put_in_order name_cmp server.now (map (λ server. server.now) servers.now) ≡ placed server.now (map (λ server. server.now) servers.now) result }
{
    for (place, other) in servers.iter().enumerate() {
        match server.compare(*other) {
            Ordering::Less => return Some(place),
            Ordering::Equal => return None,
            Ordering::Greater => {}
        }
    }
    Some(servers.len())
}

/// The names of the name servers. The last records are looked at first.
fn server_set<'a>(alloc: Global, own: &[&'a Rr]) -> Result<BTreeSet<&'a Name>, NoMemory>
    ensures { IfOk result (λ servers. map (λ server. server.now) servers.keys ≡ in_order name_cmp (targets_of (map (λ rr. rr.now.rdata) own.now) types.Ns)) }
{
    let mut servers = BTreeSet::new(alloc);
    let mut left = own.len();
    while left > 0 {
        left -= 1;
        let rr = own[left];
        if is_of_type(&rr.rdata, RrType::Ns) {
            if let Some(server) = target_of(&rr.rdata) {
                servers.insert(server)?;
            }
        }
    }
    Ok(servers)
}

/// The data of a type in the order of their texts.
pub(crate) fn set_in_order(
    alloc: Global,
    own: &[&Rr],
    rtype: RrType,
) -> Result<Vec<Rdata>, NoMemory>
    ensures { IfOk result (λ set. set.items ≡ in_order data_cmp (filter (has_type rtype) (map (λ rr. rr.now.rdata) own.now))) }
{
    if own.len() <= MOST_PLACED && has_targets(rtype) {
        return placed_data(alloc, own, rtype);
    }
    let set = text_map(alloc, own, rtype)?;
    Ok(set.into_values().collect(alloc)?)
}

/// Whether the data of a type are a name, of whose text the last label mostly tells the order.
fn has_targets(rtype: RrType) -> bool {
    matches!(rtype, RrType::Ns | RrType::Cname | RrType::Dname)
}

/// The data of a type, each put in its place. The last data are looked at first.
fn placed_data(alloc: Global, own: &[&Rr], rtype: RrType) -> Result<Vec<Rdata>, NoMemory>
    ensures { IfOk result (λ set. set.items ≡ in_order data_cmp (filter (has_type rtype) (map (λ rr. rr.now.rdata) own.now))) }
{
    let mut set = Vec::with_capacity(alloc, 2)?;
    let mut left = own.len();
    while left > 0 {
        left -= 1;
        let rr = own[left];
        if is_of_type(&rr.rdata, rtype) {
            put_data(alloc, &mut set, &rr.rdata)?;
        }
    }
    Ok(set)
}

/// Puts equal data in their place among data in order, unless others there have their text.
fn put_data(alloc: Global, set: &mut Vec<Rdata>, rdata: &Rdata) -> Result<(), NoMemory>
    ensures { OnOk result (set.new.items ≡ put_in_order data_cmp rdata.now set.old.items) }
{
    if let Some(place) = place_of_data(alloc, set.as_slice(), rdata)? {
        let copy = rdata.copy(alloc)?;
        set.insert(place, copy)?;
    }
    Ok(())
}

/// The place of data among data in order, or `None` where others there have their text.
fn place_of_data(alloc: Global, set: &[Rdata], rdata: &Rdata) -> Result<Option<usize>, NoMemory>
    ensures within { IfOk result (λ found. IfSome found (λ place. place ≤ length set.now)) }
    ensures puts { IfOk result (λ found. put_in_order data_cmp rdata.now set.now ≡ placed rdata.now set.now found) }
{
    for (place, other) in set.iter().enumerate() {
        match data_order(alloc, rdata, other)? {
            Ordering::Less => return Ok(Some(place)),
            Ordering::Equal => return Ok(None),
            Ordering::Greater => {}
        }
    }
    Ok(Some(set.len()))
}

/// The data of a type by their texts. The last data are looked at first, and stay where others have their text.
fn text_map(alloc: Global, own: &[&Rr], rtype: RrType) -> Result<BTreeMap<Octets, Rdata>, NoMemory>
    ensures { IfOk result (λ set. map (λ entry. entry.1) set.entries ≡ in_order data_cmp (filter (has_type rtype) (map (λ rr. rr.now.rdata) own.now))) }
{
    let mut set = BTreeMap::new(alloc);
    let mut left = own.len();
    while left > 0 {
        left -= 1;
        let rr = own[left];
        if is_of_type(&rr.rdata, rtype) {
            put_by_text(alloc, &mut set, &rr.rdata)?;
        }
    }
    Ok(set)
}

/// Puts equal data in their place, unless others have their text.
fn put_by_text(
    alloc: Global,
    set: &mut BTreeMap<Octets, Rdata>,
    rdata: &Rdata,
) -> Result<(), NoMemory>
    requires { AllByRecursion (λ entry. entry.0 ≡ data_text entry.1) set.old.entries }
    ensures keyed { OnOk result (AllByRecursion (λ entry. entry.0 ≡ data_text entry.1) set.new.entries) }
    ensures put { OnOk result (map (λ entry. entry.1) set.new.entries ≡ put_in_order data_cmp rdata.now (map (λ entry. entry.1) set.old.entries)) }
{
    // The length is read, so that it is known here that the keys are in order.
    let _ = set.len();
    let text = text_of(alloc, rdata)?;
    if !set.contains_key(&text) {
        let copy = rdata.copy(alloc)?;
        set.insert(text, copy)?;
    }
    Ok(())
}

/// The data of both sets, which are in the order of their texts, in that order, each once.
pub(crate) fn merged(
    alloc: Global,
    some: &[Rdata],
    others: &[Rdata],
) -> Result<List<Rdata>, NoMemory>
    ensures { IfOk result (λ all. all ≡ put_each data_cmp some.now (put_each data_cmp others.now [])) }
{
    let mut set = BTreeMap::new(alloc);
    put_each(alloc, &mut set, others)?;
    put_each(alloc, &mut set, some)?;
    Ok(List::from_vec(set.into_values().collect(alloc)?))
}

/// Puts equal data in their places, the last first, unless others have their text.
fn put_each(
    alloc: Global,
    set: &mut BTreeMap<Octets, Rdata>,
    items: &[Rdata],
) -> Result<(), NoMemory>
    requires { AllByRecursion (λ entry. entry.0 ≡ data_text entry.1) set.old.entries }
    ensures keyed { OnOk result (AllByRecursion (λ entry. entry.0 ≡ data_text entry.1) set.new.entries) }
    ensures put { OnOk result (map (λ entry. entry.1) set.new.entries ≡ put_each data_cmp items.now (map (λ entry. entry.1) set.old.entries)) }
{
    let mut left = items.len();
    while left > 0 {
        left -= 1;
        put_by_text(alloc, set, &items[left])?;
    }
    Ok(())
}
