//! Identical records, of which a zone has one (RFC 2181 section 5).

ghost use Rattle.std.specs.Prelude.{◌≡◌, ◌&&◌, ◌||◌, not, map, true, IfOk, OnOk};
ghost use Rattle.std.specs.List.{list_all};
ghost use Rattle.dns_data.specs.Distinct.{distinct};
ghost use Rattle.dns_data.specs.First.{are_first, chosen};
ghost use Rattle.dns_data.specs.Identical.{is_identical};
ghost use Rattle.zone_rules.specs.Fingerprint.{record_key};
ghost use Rattle.zone_rules.specs.Seen.{has};

use crate::buckets::rivals;
use crate::fingerprint::record_number;
use dns_data::{List, Name, NoMemory, Rdata, Rr};
use std::alloc::Global;
use std::collections::BTreeSet;

/// What tells a record from others: its number, which is compared first and mostly tells them apart, its data and its
/// owner.
#[derive(PartialEq, Eq, PartialOrd, Ord, Drop)]
struct Identity<'a> {
    number: u64,
    rdata: &'a Rdata,
    owner: &'a Name,
}

/// The records without those that are identical to an earlier one: owner, type and data are compared, and not the TTL,
/// the file or the line. Only those are put into an ordered set that may have a rival; none is copied.
pub(crate) fn first_of_identical(alloc: Global, rrs: List<Rr>) -> Result<List<Rr>, NoMemory>
    ensures { IfOk result (λ kept. kept ≡ distinct is_identical rrs) }
{
    let firsts = are_first(alloc, rrs.items())?;
    if are_all(firsts.as_slice()) {
        return Ok(rrs);
    }
    chosen(alloc, rrs, firsts.as_slice())
}

/// For each record, whether none before it is identical.
fn are_first(alloc: Global, rrs: &[Rr]) -> Result<Vec<bool>, NoMemory>
    ensures { IfOk result (λ firsts. firsts.items ≡ are_first is_identical rrs.now) }
{
    let keys = record_keys(alloc, rrs)?;
    let rivals = rivals(alloc, keys.as_slice())?;
    let mut seen = BTreeSet::new(alloc);
    let mut firsts = Vec::with_capacity(alloc, rrs.len())?;
    for (i, rr) in rrs.iter().enumerate() {
        let identity = Identity {
            number: keys[i].0,
            rdata: &rr.rdata,
            owner: &rr.owner,
        };
        let is_first = is_first(&mut seen, identity, rivals[i])?;
        firsts.push(is_first)?;
    }
    Ok(firsts)
}

/// The numbers of the records. Each has to stand alone.
fn record_keys(alloc: Global, rrs: &[Rr]) -> Result<Vec<(u64, bool)>, NoMemory>
    ensures { IfOk result (λ keys. keys.items ≡ map record_key rrs.now) }
{
    let mut keys = Vec::with_capacity(alloc, rrs.len())?;
    for rr in rrs {
        keys.push((record_number(rr), true))?;
    }
    Ok(keys)
}

/// Whether an item that may have a rival isn't among those seen, and it is from then on; any other is the first.
fn is_first<K: Ord + Drop>(
    seen: &mut BTreeSet<K>,
    item: K,
    has_rival: bool,
) -> Result<bool, NoMemory>
    ensures first { IfOk result (λ is_first. is_first ≡ not (has_rival && has K.cmp seen.old item)) }
    ensures seen { OnOk result ((query : K) → has K.cmp seen.new query ≡ (has K.cmp seen.old query || (has_rival && K.eq query item))) }
{
    if !has_rival {
        return Ok(true);
    }
    Ok(seen.insert(item)?)
}

/// Whether all hold.
fn are_all(tests: &[bool]) -> bool
    ensures { result ≡ list_all (λ test. test) tests.now }
{
    tests.iter().all(|test| *test)
}

/// The records that are chosen.
fn chosen(alloc: Global, rrs: List<Rr>, are_chosen: &[bool]) -> Result<List<Rr>, NoMemory>
    ensures { IfOk result (λ kept. kept ≡ chosen rrs are_chosen.now) }
{
    let mut kept = List::new(alloc);
    let mut left = rrs.into_iter();
    for is_chosen in are_chosen {
        if let Some(rr) = left.next() {
            if *is_chosen {
                kept.push(rr)?;
            }
        }
    }
    Ok(kept)
}
