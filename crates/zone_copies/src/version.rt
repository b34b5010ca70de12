//! What is compared of a zone, and how copies stand to each other.

ghost use Rattle.std.specs.Prelude.{◌≡◌, IfOk};
ghost use Rattle.std.specs.Option.{option_map};
ghost use Rattle.zone_copies.specs.Serials.{is_less};
ghost use Rattle.zone_copies.specs.Versions.{copy_word, differ_in_serial_alone, is_soa, others_of, same_start, same_starts, serial_in, soa_of, version_of, word_by_serials};

use crate::compared::compared;
use dns_data::{List, NoMemory, Octets, Rdata, Rr};
use net_model::Zone;
use std::alloc::Global;
use std::collections::BTreeSet;

/// What is compared of a zone: the data of its SOA record, and what its other records are compared by, in order.
#[derive(Debug, Drop)]
pub struct Version {
    pub soa: Option<Rdata>,
    pub others: List<Octets>,
}

/// How a copy of a zone stands to the first one.
#[derive(Clone, Copy, Debug, PartialEq, Eq)]
pub enum CopyWord {
    /// They have equal records.
    Same,
    /// They differ in the serial alone.
    Renumbered,
    /// They differ in more, and its serial is less.
    Behind,
    /// They differ in more, and its serial is greater.
    Ahead,
    /// They differ in more, and have one serial.
    Forgotten,
    /// They differ in more, and neither serial is less.
    Apart,
}

/// What is compared of a zone.
pub fn version_of(alloc: Global, zone: &Zone) -> Result<Version, NoMemory>
    ensures { IfOk result (λ version. version ≡ version_of zone.now) }
{
    let soa = soa_of(alloc, zone.rrs.items())?;
    let others = others_of(alloc, zone.rrs.items())?;
    Ok(Version { soa, others })
}

/// The data of the first SOA record.
fn soa_of(alloc: Global, rrs: &[Rr]) -> Result<Option<Rdata>, NoMemory>
    ensures { IfOk result (λ soa. soa ≡ soa_of rrs.now) }
{
    match first_soa(rrs) {
        Some(rdata) => Ok(Some(rdata.copy(alloc)?)),
        None => Ok(None),
    }
}

/// The data of the first SOA record, as they stand there.
fn first_soa(rrs: &[Rr]) -> Option<&Rdata>
    ensures { option_map (λ rdata. rdata.now) result ≡ soa_of rrs.now }
{
    let rr = rrs.iter().find(|rr| is_soa(rr))?;
    Some(&rr.rdata)
}

/// Whether the record starts the zone's authority.
fn is_soa(rr: &Rr) -> bool
    ensures { result ≡ is_soa rr.now }
{
    matches!(rr.rdata, Rdata::Soa { .. })
}

/// What the records other than the SOA record are compared by, in order, each once.
fn others_of(alloc: Global, rrs: &[Rr]) -> Result<List<Octets>, NoMemory>
    ensures { IfOk result (λ others. others ≡ others_of rrs.now) }
{
    let set = other_set(alloc, rrs)?;
    let others: Vec<Octets> = set.into_iter().collect(alloc)?;
    Ok(List::from_vec(others))
}

/// What the records other than the SOA record are compared by. The last records are looked at first.
fn other_set(alloc: Global, rrs: &[Rr]) -> Result<BTreeSet<Octets>, NoMemory>
    ensures { IfOk result (λ others. others.keys ≡ others_of rrs.now) }
{
    let mut others = BTreeSet::new(alloc);
    let mut left = rrs.len();
    while left > 0 {
        left -= 1;
        let rr = &rrs[left];
        if !is_soa(rr) {
            others.insert(compared(alloc, rr)?)?;
        }
    }
    Ok(others)
}

/// The serial of SOA data, 0 where there are none.
pub fn serial_in(soa: &Option<Rdata>) -> u32
    ensures { result ≡ serial_in soa.now }
{
    match soa {
        Some(Rdata::Soa { serial, .. }) => *serial,
        _ => 0,
    }
}

/// Whether both have SOA data that are equal but for the serial.
fn same_starts(a: &Option<Rdata>, b: &Option<Rdata>) -> bool
    ensures { result ≡ same_starts a.now b.now }
{
    match (a, b) {
        (Some(a), Some(b)) => same_start(a, b),
        _ => false,
    }
}

/// Whether SOA data are equal but for the serial.
fn same_start(a: &Rdata, b: &Rdata) -> bool
    ensures { result ≡ same_start a.now b.now }
{
    match (a, b) {
        (
            Rdata::Soa {
                mname: m,
                rname: r,
                serial: _,
                refresh: f,
                retry: y,
                expire: e,
                minimum: n,
            },
            Rdata::Soa {
                mname,
                rname,
                serial: _,
                refresh,
                retry,
                expire,
                minimum,
            },
        ) => {
            m.get() == mname.get()
                && r.get() == rname.get()
                && f == refresh
                && y == retry
                && e == expire
                && n == minimum
        }
        _ => false,
    }
}

/// Whether two copies are equal but for the serial.
fn differ_in_serial_alone(a: &Version, b: &Version) -> bool
    ensures { result ≡ differ_in_serial_alone a.now b.now }
{
    same_starts(&a.soa, &b.soa) && a.others == b.others
}

/// How a copy stands to the first one (RFC 1982 section 3.2).
pub fn copy_word(first: &Version, own: &Version) -> CopyWord
    ensures { result ≡ copy_word first.now own.now }
{
    let before = serial_in(&first.soa);
    let serial = serial_in(&own.soa);
    if !differ_in_serial_alone(first, own) {
        word_by_serials(before, serial)
    } else if serial == before {
        CopyWord::Same
    } else {
        CopyWord::Renumbered
    }
}

/// How a copy stands to the first one by its serial, where they differ in more than that.
fn word_by_serials(first: u32, own: u32) -> CopyWord
    ensures { result ≡ word_by_serials first own }
{
    if is_less(own, first) {
        CopyWord::Behind
    } else if is_less(first, own) {
        CopyWord::Ahead
    } else if own == first {
        CopyWord::Forgotten
    } else {
        CopyWord::Apart
    }
}

/// Whether the first serial is less than the second (RFC 1982 section 3.2).
fn is_less(a: u32, b: u32) -> bool
    ensures { result ≡ is_less a b }
{
    (a < b && b - a < HALF) || (b < a && HALF < a - b)
}

/// How far two serials may be apart that can be compared.
const HALF: u32 = 1 << 31;
