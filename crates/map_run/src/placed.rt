//! Signers and keys with the places of their records.

ghost use Rattle.std.specs.Prelude.{◌≡◌, ◌++◌, map, Some, IfOk, OnOk};
ghost use Rattle.std.specs.List.{flat_map};
ghost use Rattle.map_run.specs.Chain.{has_strong, hashed_key, is_dnskey_at, is_matched, key_at, placed_key, placed_signer, signers_of, tried, unmatched, zone_keys};
ghost use Rattle.map_run.specs.Lines.{place_columns};

use crate::lines::put_place;
use config_load::RowFiles;
use dns_data::{List, Name, NoMemory, Octets, Rr};
use key_chain::{
    Key, KeyDigests, Signer, digests_of, is_dnskey, is_strong, is_tried, is_zone_key, key_in,
    matches, signer_in, wire_of,
};
use net_model::Zone;
use std::alloc::Global;

/// A delegation's signer, and the columns of the place of its record.
#[derive(Debug, Drop)]
pub(crate) struct PlacedSigner {
    pub signer: Signer,
    pub place: List<Octets>,
}

/// A zone's key, its digests, and the columns of the place of its record.
#[derive(Debug, Drop)]
pub(crate) struct PlacedKey {
    pub key: Key,
    pub digests: KeyDigests,
    pub place: List<Octets>,
}

/// The columns of a record's place.
pub(crate) fn place_of(alloc: Global, row: &RowFiles, rr: &Rr) -> Result<List<Octets>, NoMemory>
    ensures { IfOk result (λ place. place ≡ place_columns row.now (Some rr.now)) }
{
    let mut place = List::new(alloc);
    put_place(alloc, &mut place, row, Some(rr))?;
    Ok(place)
}

/// The signers that DS records of a row's zone hold, in order. A record that doesn't have its form holds none.
pub(crate) fn signers_of(
    alloc: Global,
    row: &RowFiles,
    rrs: &[&Rr],
) -> Result<List<PlacedSigner>, NoMemory>
    ensures { IfOk result (λ signers. signers ≡ signers_of row.now (map (λ rr. rr.now) rrs.now)) }
{
    let mut signers = List::new(alloc);
    for rr in rrs {
        put_signer(alloc, &mut signers, row, *rr)?;
    }
    Ok(signers)
}

/// Puts the signer that a DS record holds at the end.
fn put_signer(
    alloc: Global,
    signers: &mut List<PlacedSigner>,
    row: &RowFiles,
    rr: &Rr,
) -> Result<(), NoMemory>
    ensures { OnOk result (signers.new ≡ signers.old ++ placed_signer row.now rr.now) }
{
    match signer_in(alloc, &rr.rdata)? {
        Some(signer) => {
            let place = place_of(alloc, row, rr)?;
            signers.push(PlacedSigner { signer, place })
        }
        None => Ok(()),
    }
}

/// The keys for the zone at the origin of a row's zone, in order, each hashed once.
pub(crate) fn zone_keys(
    alloc: Global,
    row: &RowFiles,
    zone: &Zone,
) -> Result<List<PlacedKey>, NoMemory>
    ensures { IfOk result (λ keys. keys ≡ zone_keys row.now zone.now) }
{
    let wire = wire_of(alloc, &zone.origin)?;
    keys_under(alloc, row, wire.items(), zone)
}

/// The keys for the zone at the origin of a row's zone, which has these octets on the wire, in order.
fn keys_under(
    alloc: Global,
    row: &RowFiles,
    wire: &[u8],
    zone: &Zone,
) -> Result<List<PlacedKey>, NoMemory>
    ensures { IfOk result (λ keys. keys ≡ flat_map (key_at row.now wire.now zone.now.origin) zone.now.rrs) }
{
    let mut keys = List::new(alloc);
    for rr in zone.rrs.items() {
        put_key_at(alloc, &mut keys, row, wire, &zone.origin, rr)?;
    }
    Ok(keys)
}

/// Puts the key for the zone that a record of the origin, which has these octets on the wire, holds at the end.
fn put_key_at(
    alloc: Global,
    keys: &mut List<PlacedKey>,
    row: &RowFiles,
    wire: &[u8],
    origin: &Name,
    rr: &Rr,
) -> Result<(), NoMemory>
    ensures { OnOk result (keys.new ≡ keys.old ++ key_at row.now wire.now origin.now rr.now) }
{
    if is_dnskey_at(origin, rr) {
        put_key(alloc, keys, row, wire, rr)
    } else {
        Ok(())
    }
}

/// Whether the record is a DNSKEY record of this owner.
fn is_dnskey_at(owner: &Name, rr: &Rr) -> bool
    ensures { result ≡ is_dnskey_at owner.now rr.now }
{
    is_dnskey(&rr.rdata) && rr.owner == *owner
}

/// Puts the key for the zone that a DNSKEY record holds at the end.
fn put_key(
    alloc: Global,
    keys: &mut List<PlacedKey>,
    row: &RowFiles,
    wire: &[u8],
    rr: &Rr,
) -> Result<(), NoMemory>
    ensures { OnOk result (keys.new ≡ keys.old ++ placed_key row.now wire.now rr.now) }
{
    match key_in(alloc, &rr.rdata)? {
        Some(key) => put_hashed(alloc, keys, row, wire, rr, key),
        None => Ok(()),
    }
}

/// Puts a key at the end with its digests and its place, if it is one for the zone.
fn put_hashed(
    alloc: Global,
    keys: &mut List<PlacedKey>,
    row: &RowFiles,
    wire: &[u8],
    rr: &Rr,
    key: Key,
) -> Result<(), NoMemory>
    ensures { OnOk result (keys.new ≡ keys.old ++ hashed_key row.now wire.now rr.now key) }
{
    if !is_zone_key(&key) {
        return Ok(());
    }
    let digests = digests_of(wire, &key);
    let place = place_of(alloc, row, rr)?;
    keys.push(PlacedKey {
        key,
        digests,
        place,
    })
}

/// The signers that are tried: those of a known type of digest, and beside stronger ones none by SHA-1 (RFC 4509 section
/// 3).
pub(crate) fn tried_of<'s>(
    alloc: Global,
    signers: &'s [PlacedSigner],
) -> Result<List<&'s PlacedSigner>, NoMemory>
    ensures { IfOk result (λ some. map (λ one. one.now) some ≡ tried signers.now) }
{
    let strong = has_strong(signers);
    let mut some = List::new(alloc);
    for one in signers {
        if is_tried(strong, &one.signer) {
            some.push(one)?;
        }
    }
    Ok(some)
}

/// Whether some signer has a digest that is stronger than SHA-1.
fn has_strong(signers: &[PlacedSigner]) -> bool
    ensures { result ≡ has_strong signers.now }
{
    signers.iter().any(|one| is_strong(&one.signer))
}

/// The signers that match no key.
pub(crate) fn unmatched_of<'s>(
    alloc: Global,
    keys: &[PlacedKey],
    signers: &[&'s PlacedSigner],
) -> Result<List<&'s PlacedSigner>, NoMemory>
    ensures { IfOk result (λ others. map (λ one. one.now) others ≡ unmatched keys.now (map (λ one. one.now) signers.now)) }
{
    let mut others = List::new(alloc);
    for one in signers {
        if !is_matched(keys, *one) {
            others.push(*one)?;
        }
    }
    Ok(others)
}

/// Whether the signer is that of some key.
fn is_matched(keys: &[PlacedKey], one: &PlacedSigner) -> bool
    ensures { result ≡ is_matched keys.now one.now }
{
    keys.iter()
        .any(|other| matches(&other.digests, &one.signer, &other.key))
}
