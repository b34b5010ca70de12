//! Signers and keys, by the octets of their records.

ghost use Rattle.std.specs.Prelude.{◌≡◌, ◌≤◌, ◌<◌, ◌^◌, IfOk, length, true};
ghost use Rattle.key_chain.specs.Keys.{digest_length, folded_sum, has_flag, has_length, is_entry_point, is_known, is_strong, is_tried, is_zone_key, key_of, key_tag, key_within, modulus_tag, octet_sum, signer_of, weighted};

use dns_data::{NoMemory, Octets};
use std::alloc::Global;

/// A delegation's signer: the tag and the algorithm of a key, the type of the digest and the digest (RFC 4034 section 5.1).
#[derive(Debug, Drop)]
pub struct Signer {
    pub tag: u16,
    pub algorithm: u8,
    pub kind: u8,
    pub digest: Octets,
}

/// A zone's key: its flags, its protocol, its algorithm, its tag, and all octets of its data (RFC 4034 section 2.1).
#[derive(Debug, Drop)]
pub struct Key {
    pub flags: u16,
    pub protocol: u8,
    pub algorithm: u8,
    pub tag: u16,
    pub octets: Octets,
}

/// The most octets that data of a record have (RFC 1035 section 3.2.1).
const MOST_OCTETS: usize = 65_535;

/// The signer of these octets, or `None` where they don't have the form.
pub(crate) fn signer_of(alloc: Global, octets: &[u8]) -> Result<Option<Signer>, NoMemory>
    ensures { IfOk result (λ signer. signer ≡ signer_of octets.now) }
{
    match octets {
        [a, b, algorithm, kind, digest @ ..] if has_length(digest_length(*kind), digest) => {
            Ok(Some(Signer {
                tag: u16::from(*a) * 256 + u16::from(*b),
                algorithm: *algorithm,
                kind: *kind,
                digest: Octets::from_octets(alloc, digest)?,
            }))
        }
        _ => Ok(None),
    }
}

/// How many octets a digest of this type has, or `None` where the type isn't one that is looked at.
fn digest_length(kind: u8) -> Option<usize>
    ensures { result ≡ digest_length kind }
{
    match kind {
        1 => Some(20),
        2 => Some(32),
        4 => Some(48),
        _ => None,
    }
}

/// Whether a digest has this many octets, or some.
fn has_length(count: Option<usize>, digest: &[u8]) -> bool
    ensures { result ≡ has_length count digest.now }
{
    match count {
        Some(count) => digest.len() == count,
        None => !digest.is_empty(),
    }
}

/// The key of these octets, or `None` where they don't have the form.
pub(crate) fn key_of(alloc: Global, octets: &[u8]) -> Result<Option<Key>, NoMemory>
    ensures { IfOk result (λ key. key ≡ key_of octets.now) }
{
    match octets {
        [a, b, protocol, algorithm, _, ..] => {
            let flags = u16::from(*a) * 256 + u16::from(*b);
            key_within(alloc, flags, *protocol, *algorithm, octets)
        }
        _ => Ok(None),
    }
}

/// The key with these fields, if its octets may be data.
fn key_within(
    alloc: Global,
    flags: u16,
    protocol: u8,
    algorithm: u8,
    octets: &[u8],
) -> Result<Option<Key>, NoMemory>
    requires { 5 ≤ length octets.now }
    ensures { IfOk result (λ key. key ≡ key_within flags protocol algorithm octets.now) }
{
    if octets.len() > MOST_OCTETS {
        return Ok(None);
    }
    let tag = key_tag(algorithm, octets);
    Ok(Some(Key {
        flags,
        protocol,
        algorithm,
        tag,
        octets: Octets::from_octets(alloc, octets)?,
    }))
}

/// The tag of a key (RFC 4034 appendix B).
fn key_tag(algorithm: u8, octets: &[u8]) -> u16
    requires some { 5 ≤ length octets.now }
    requires few { length octets.now ≤ 65535 }
    ensures { result ≡ key_tag algorithm octets.now }
{
    if algorithm == 1 {
        modulus_tag(octets)
    } else {
        folded_sum(octet_sum(octets))
    }
}

/// The two octets before the last of a key of RSA with MD5 (RFC 4034 appendix B.1).
fn modulus_tag(octets: &[u8]) -> u16
    requires { 5 ≤ length octets.now }
    ensures { result ≡ modulus_tag octets.now }
{
    let count = octets.len();
    u16::from(octets[count - 3]) * 256 + u16::from(octets[count - 2])
}

/// The sum of the octets, every other one from the first on taken 256 times.
fn octet_sum(octets: &[u8]) -> u64
    requires { length octets.now ≤ 65535 }
    ensures value { result ≡ octet_sum true octets.now }
    ensures within { result < 2 ^ 40 }
{
    let mut sum: u64 = 0;
    let mut upper = true;
    for octet in octets {
        sum += weighted(upper, *octet);
        upper = !upper;
    }
    sum
}

/// An octet, taken 256 times if it is an upper one.
fn weighted(upper: bool, octet: u8) -> u64
    ensures value { result ≡ weighted upper octet }
    ensures within { result ≤ 65280 }
{
    if upper {
        u64::from(octet) * 256
    } else {
        u64::from(octet)
    }
}

/// The sum with its upper octets added.
fn folded_sum(sum: u64) -> u16
    requires { sum < 2 ^ 40 }
    ensures { result ≡ folded_sum sum }
{
    ((sum + sum / 65536 % 65536) % 65536) as u16
}

/// Whether the key is a zone's, and not revoked (RFC 4034 section 2.1, RFC 5011 section 2.1).
pub fn is_zone_key(key: &Key) -> bool
    ensures { result ≡ is_zone_key key.now }
{
    has_flag(256, key.flags) && !has_flag(128, key.flags) && key.protocol == 3
}

/// Whether the key is a secure entry point (RFC 4034 section 2.1.1).
pub fn is_entry_point(key: &Key) -> bool
    ensures { result ≡ is_entry_point key.now }
{
    has_flag(1, key.flags)
}

/// Whether the flag of this value is set.
fn has_flag(value: u16, flags: u16) -> bool
    requires { 0 < value }
    ensures { result ≡ has_flag value flags }
{
    flags / value % 2 == 1
}

/// Whether the type of the digest is SHA-256 or SHA-384.
pub fn is_strong(signer: &Signer) -> bool
    ensures { result ≡ is_strong signer.now }
{
    signer.kind == 2 || signer.kind == 4
}

/// Whether the signer is looked at, beside signers of which some or none has a stronger digest than SHA-1 (RFC 4509 section
/// 3).
pub fn is_tried(has_strong: bool, signer: &Signer) -> bool
    ensures { result ≡ is_tried has_strong signer.now }
{
    if has_strong {
        is_strong(signer)
    } else {
        is_known(signer)
    }
}

/// Whether the type of the digest is one of the three.
fn is_known(signer: &Signer) -> bool
    ensures { result ≡ is_known signer.now }
{
    signer.kind == 1 || is_strong(signer)
}
