//! Which rows' zones are equal copies of those of earlier rows.

ghost use Rattle.std.specs.Prelude.{◌≡◌, ◌++◌, ◌∷◌, [], map, true, not, Some, List as Items, if◌then◌else◌, IfOk, OnOk};
ghost use Rattle.std.specs.BTreeMap as maps;
ghost use Rattle.std.specs.BTreeSet as tree;
ghost use Rattle.std.specs.Option.{option_map};
ghost use Rattle.dns_data.specs.Name.{name_cmp};
ghost use Rattle.net_model.specs.declared.config.Config.{Config};
ghost use Rattle.config_load.specs.declared.loaded.RowFiles.{RowFiles as RowValue};
ghost use Rattle.map_run.specs.Copies.{first_copies, is_first_copy, version_at};
ghost use Rattle.map_run.specs.FirstCopies.{AreLike, HasMoreKeys, KnowsCopies, LikeAlone, alone_after, has_key, key_cmp, key_of, version_alone};

use config_load::RowFiles;
use dns_data::{List, Name, NoMemory, Octets};
use std::alloc::Global;
use std::collections::{BTreeMap, BTreeSet};
use zone_copies::{Version, have_same_records, version_of};
use zone_lookup::Hosts;
use zone_tree::Tree;

/// What equal copies of a zone have in common: the origin, and what the records other than the SOA record are compared by.
#[derive(Debug, PartialEq, Eq, PartialOrd, Ord, Drop)]
pub(crate) struct CopyKey {
    pub origin: Name,
    pub others: List<Octets>,
}

/// What is known of rows to tell equal copies. Of each origin: the server of the row with it, where that is the only one,
/// so that no version is made of a zone without a copy; else none. And what the zones of the other rows have in common with
/// their copies.
#[derive(Drop)]
pub(crate) struct KnownCopies {
    pub alone: BTreeMap<Name, Option<Name>>,
    pub keys: BTreeSet<CopyKey>,
}

impl KnownCopies {
    /// No row is known.
    pub(crate) fn new(alloc: Global) -> KnownCopies
        ensures { (config : Config) → KnowsCopies config [] result }
    {
        KnownCopies {
            alone: BTreeMap::new(alloc),
            keys: BTreeSet::new(alloc),
        }
    }
}

/// The rows of which no earlier one's zone is an equal copy, in order.
pub(crate) fn first_copies<'r>(
    alloc: Global,
    hosts: &Hosts<'_>,
    rows: &[&'r RowFiles],
) -> Result<List<&'r RowFiles>, NoMemory>
    ensures { IfOk result (λ firsts. map (λ row. row.now) firsts ≡ first_copies hosts.now (map (λ row. row.now) rows.now)) }
{
    let mut known = KnownCopies::new(alloc);
    let mut firsts = List::new(alloc);
    for row in rows {
        let is_first = is_first_copy(alloc, &mut known, hosts, *row)?;
        put_if(&mut firsts, is_first, *row)?;
    }
    Ok(firsts)
}

/// Puts a row at the end, if it is so.
fn put_if<'r>(rows: &mut List<&'r RowFiles>, holds: bool, row: &'r RowFiles) -> Result<(), NoMemory>
    ensures { OnOk result (rows.new ≡ rows.old ++ (if holds then row.entry ∷ [] else [])) }
{
    if holds {
        rows.push(row)?;
    }
    Ok(())
}

/// Whether no row before this one is an equal copy. It is known then, for the rows behind it.
pub(crate) fn is_first_copy(
    alloc: Global,
    known: &mut KnownCopies,
    hosts: &Hosts<'_>,
    row: &RowFiles,
) -> Result<bool, NoMemory>
    ensures first { (before : Items RowValue) → KnowsCopies hosts.now before known.old → IfOk result (λ first. first ≡ is_first_copy hosts.now before row.now) }
    ensures known { (before : Items RowValue) → KnowsCopies hosts.now before known.old → OnOk result (KnowsCopies hosts.now (before ++ row.now ∷ []) known.new) }
{
    let before = alone_at(alloc, &known.alone, &row.origin)?;
    if is_like_alone(hosts, &before, row) {
        return Ok(false);
    }
    put_origin(alloc, &mut known.alone, &before, row)?;
    match &before {
        Some(alone) => {
            keep_alone(alloc, &mut known.keys, hosts, alone, &row.origin)?;
            keep_version(alloc, &mut known.keys, hosts, &row.server, &row.origin)
        }
        None => Ok(true),
    }
}

/// Whether the row's zone has the same records as that of the only row with its origin, if there is only one. Rows whose
/// zones are read from one file are seen so, without a version.
fn is_like_alone(hosts: &Hosts<'_>, before: &Option<Option<Name>>, row: &RowFiles) -> bool
    ensures { result ≡ true → LikeAlone hosts.now before.now row.now }
{
    match before {
        Some(Some(server)) => have_same(
            hosts.held_zone(server, &row.origin),
            hosts.held_zone(&row.server, &row.origin),
        ),
        _ => false,
    }
}

/// Whether there are two zones with the same records.
fn have_same(one: Option<&Tree<'_>>, other: Option<&Tree<'_>>) -> bool
    ensures { result ≡ true → AreLike (option_map (λ tree. tree.now.zone) one.entry) (option_map (λ tree. tree.now.zone) other.entry) }
{
    match (one, other) {
        (Some(one), Some(other)) => have_same_records(one.zone(), other.zone()),
        _ => false,
    }
}

/// Keeps of the row's origin that it has a row more.
fn put_origin(
    alloc: Global,
    alone: &mut BTreeMap<Name, Option<Name>>,
    before: &Option<Option<Name>>,
    row: &RowFiles,
) -> Result<(), NoMemory>
    ensures { OnOk result (maps.Updates name_cmp alone.old alone.new row.now.origin (Some (alone_after row.now.server before.now))) }
{
    let after = alone_after(alloc, &row.server, before)?;
    alone.insert(row.origin.copy(alloc)?, after)?;
    Ok(())
}

/// What is known of an origin.
fn alone_at(
    alloc: Global,
    alone: &BTreeMap<Name, Option<Name>>,
    origin: &Name,
) -> Result<Option<Option<Name>>, NoMemory>
    ensures { IfOk result (λ known. known ≡ maps.get name_cmp alone.now origin.now) }
{
    match alone.get(origin) {
        Some(server) => Ok(Some(copy_of(alloc, server)?)),
        None => Ok(None),
    }
}

/// The same.
fn copy_of(alloc: Global, server: &Option<Name>) -> Result<Option<Name>, NoMemory>
    ensures { IfOk result (λ copy. copy ≡ server.now) }
{
    match server {
        Some(server) => Ok(Some(server.copy(alloc)?)),
        None => Ok(None),
    }
}

/// What is known of an origin that has a row of this server more: that is the only one, or there are several.
fn alone_after(
    alloc: Global,
    server: &Name,
    before: &Option<Option<Name>>,
) -> Result<Option<Name>, NoMemory>
    ensures { IfOk result (λ after. after ≡ alone_after server.now before.now) }
{
    match before {
        Some(_) => Ok(None),
        None => Ok(Some(server.copy(alloc)?)),
    }
}

/// What is compared of the zone with this origin at the server, if it holds one.
fn version_at(
    alloc: Global,
    hosts: &Hosts<'_>,
    server: &Name,
    origin: &Name,
) -> Result<Option<Version>, NoMemory>
    ensures { IfOk result (λ version. version ≡ version_at hosts.now server.now origin.now) }
{
    match hosts.held_zone(server, origin) {
        Some(tree) => Ok(Some(version_of(alloc, tree.zone())?)),
        None => Ok(None),
    }
}

/// Puts the key of the row to the others that was the only one with its origin, if one was.
fn keep_alone(
    alloc: Global,
    keys: &mut BTreeSet<CopyKey>,
    hosts: &Hosts<'_>,
    alone: &Option<Name>,
    origin: &Name,
) -> Result<(), NoMemory>
    ensures { OnOk result (HasMoreKeys keys.old keys.new origin.now (version_alone hosts.now alone.now origin.now)) }
{
    match alone {
        Some(server) => {
            keep_version(alloc, keys, hosts, server, origin)?;
            Ok(())
        }
        None => Ok(()),
    }
}

/// Whether there was no key yet of the zone with this origin at the server; there is one then.
fn keep_version(
    alloc: Global,
    keys: &mut BTreeSet<CopyKey>,
    hosts: &Hosts<'_>,
    server: &Name,
    origin: &Name,
) -> Result<bool, NoMemory>
    ensures new { IfOk result (λ new. new ≡ not (has_key keys.old origin.now (version_at hosts.now server.now origin.now))) }
    ensures keys { OnOk result (HasMoreKeys keys.old keys.new origin.now (version_at hosts.now server.now origin.now)) }
{
    match version_at(alloc, hosts, server, origin)? {
        Some(version) => put_key(alloc, keys, origin, version),
        None => Ok(true),
    }
}

/// Whether there was no key yet of this version of a zone with the origin; there is one then.
fn put_key(
    alloc: Global,
    keys: &mut BTreeSet<CopyKey>,
    origin: &Name,
    version: Version,
) -> Result<bool, NoMemory>
    ensures new { IfOk result (λ new. new ≡ not (tree.contains key_cmp keys.old (key_of origin.now version))) }
    ensures keys { OnOk result (tree.Updates key_cmp keys.old keys.new (key_of origin.now version) true) }
{
    let key = CopyKey {
        origin: origin.copy(alloc)?,
        others: version.others,
    };
    Ok(keys.insert(key)?)
}
