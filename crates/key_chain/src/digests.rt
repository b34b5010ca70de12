//! Digests of keys.

ghost use Rattle.std.specs.Prelude.{◌≡◌, ◌++◌, IfOk, OnOk};
ghost use Rattle.dns_data.specs.Label.{IsLabel};
ghost use Rattle.key_chain.specs.Keys.{digest_by, digests_of, label_octets, matches, wire_labels, wire_of};
ghost use Rattle.sha1.specs.Sha1.{sha1};
ghost use Rattle.sha2.specs.Sha256.{sha256};
ghost use Rattle.sha2.specs.Sha512.{sha384};

use crate::keys::{Key, Signer};
use dns_data::{Labels, Name, NoMemory, Octets};
use sha1::Sha1;
use sha2::{Digest, Sha256, Sha384};
use std::alloc::Global;

/// The octets of a name on the wire (RFC 4034 section 6.2).
pub fn wire_of(alloc: Global, name: &Name) -> Result<Octets, NoMemory>
    ensures { IfOk result (λ octets. octets ≡ wire_of name.now) }
{
    let mut octets = Octets::new();
    put_labels(alloc, &mut octets, &name.labels())?;
    octets.push(alloc, 0)?;
    Ok(octets)
}

/// Puts the octets of labels at the end, the leaf first.
#[tactic(auto, using(crate::proofs::LeafFirst::label_last))]
fn put_labels(alloc: Global, octets: &mut Octets, labels: &Labels<'_>) -> Result<(), NoMemory>
    ensures { OnOk result (octets.new ≡ octets.old ++ wire_labels labels.now) }
{
    if let Some((label, below)) = labels.split_first() {
        put_labels(alloc, octets, &below)?;
        put_label(alloc, octets, label)?;
    }
    Ok(())
}

/// Puts the octets of a label at the end: its length, and its own.
fn put_label(alloc: Global, octets: &mut Octets, label: &[u8]) -> Result<(), NoMemory>
    requires { IsLabel label.now }
    ensures { OnOk result (octets.new ≡ octets.old ++ label_octets label.now) }
{
    octets.push(alloc, label.len() as u8)?;
    octets.extend_from_slice(alloc, label)
}

/// The digests of a key: over the octets of its owner on the wire and its data (RFC 4034 section 5.1.4).
#[derive(Debug, Drop)]
pub struct KeyDigests {
    pub by_sha1: [u8; 20],
    pub by_sha256: [u8; 32],
    pub by_sha384: [u8; 48],
}

/// The digests of a key whose owner has these octets on the wire (RFC 4034 section 5.1.4, RFC 4509 section 2.2, RFC 6605
/// section 2).
pub fn digests_of(wire: &[u8], key: &Key) -> KeyDigests
    ensures { result ≡ digests_of wire.now key.now }
{
    let octets = key.octets.items();
    KeyDigests {
        by_sha1: sha1_of(wire, octets),
        by_sha256: sha256_of(wire, octets),
        by_sha384: sha384_of(wire, octets),
    }
}

/// Whether the signer is that of the key with these digests (RFC 4034 section 5.1.4).
pub fn matches(digests: &KeyDigests, signer: &Signer, key: &Key) -> bool
    ensures { result ≡ matches digests.now signer.now key.now }
{
    signer.tag == key.tag
        && signer.algorithm == key.algorithm
        && signer.digest.items() == digest_by(signer.kind, digests)
}

/// The digest of this type; there is none of a type that isn't looked at.
fn digest_by(kind: u8, digests: &KeyDigests) -> &[u8]
    ensures { result.now ≡ digest_by kind digests.now }
{
    match kind {
        1 => digests.by_sha1.as_slice(),
        2 => digests.by_sha256.as_slice(),
        4 => digests.by_sha384.as_slice(),
        _ => b"".as_slice(),
    }
}

/// The digest by SHA-1 of two pieces, put together.
fn sha1_of(first: &[u8], second: &[u8]) -> [u8; 20]
    ensures { result ≡ sha1 (first.now ++ second.now) }
{
    let mut hasher = Sha1::new();
    hasher.update(first);
    hasher.update(second);
    hasher.finalize()
}

/// The digest by SHA-256 of two pieces, put together.
fn sha256_of(first: &[u8], second: &[u8]) -> [u8; 32]
    ensures { result ≡ sha256 (first.now ++ second.now) }
{
    let mut hasher = Sha256::new();
    hasher.update(first);
    hasher.update(second);
    hasher.finalize()
}

/// The digest by SHA-384 of two pieces, put together.
fn sha384_of(first: &[u8], second: &[u8]) -> [u8; 48]
    ensures { result ≡ sha384 (first.now ++ second.now) }
{
    let mut hasher = Sha384::new();
    hasher.update(first);
    hasher.update(second);
    hasher.finalize()
}
