//! The octets that the tokens of kept data write.

ghost use Rattle.std.specs.Prelude.{◌≡◌, IfOk};
ghost use Rattle.kept_data.specs.Octets.{base64_octets, form_octets, generic_octets, hex_octets, is_generic, joined, kept_octets, key_front, key_octets, signer_front, signer_octets, together};

use crate::numbers::algorithm_in;
use base64::DecodeAllocError;
use base64::engine::general_purpose::STANDARD;
use dns_data::{NoMemory, Octets, read_number};
use hex::FromHexError;
use std::alloc::Global;

/// The number of the type of DS records, and that of CDS records (RFC 4034 section 5, RFC 7344 section 3.1).
const DS: u16 = 43;

const CDS: u16 = 59;

/// The number of the type of DNSKEY records, and that of CDNSKEY records (RFC 4034 section 2, RFC 7344 section 3.2).
const DNSKEY: u16 = 48;

const CDNSKEY: u16 = 60;

/// The octets of data of the type with this number, as their tokens write them; or `None` where the type's form isn't
/// known here, or the tokens don't have it (RFC 4034 sections 2.2 and 5.3, RFC 3597 section 5).
pub fn kept_octets(
    alloc: Global,
    number: u16,
    tokens: &[Octets],
) -> Result<Option<Octets>, NoMemory>
    ensures { IfOk result (λ octets. octets ≡ kept_octets number tokens.now) }
{
    if is_generic(tokens) {
        generic_octets(alloc, tokens)
    } else {
        form_octets(alloc, number, tokens)
    }
}

/// Whether the first token begins the generic form.
fn is_generic(tokens: &[Octets]) -> bool
    ensures { result ≡ is_generic tokens.now }
{
    match tokens {
        [first, ..] => first.items() == b"\\#".as_slice(),
        [] => false,
    }
}

/// The octets of data in the generic form.
fn generic_octets(alloc: Global, fields: &[Octets]) -> Result<Option<Octets>, NoMemory>
    ensures { IfOk result (λ octets. octets ≡ generic_octets fields.now) }
{
    match fields {
        [_, _, digits @ ..] => hex_octets(alloc, digits),
        _ => Ok(None),
    }
}

/// The octets of data of the type with this number, whose tokens aren't in the generic form.
fn form_octets(alloc: Global, number: u16, tokens: &[Octets]) -> Result<Option<Octets>, NoMemory>
    ensures { IfOk result (λ octets. octets ≡ form_octets number tokens.now) }
{
    if number == DS || number == CDS {
        return signer_octets(alloc, tokens);
    }
    if number == DNSKEY || number == CDNSKEY {
        return key_octets(alloc, tokens);
    }
    Ok(None)
}

/// The octets of a delegation's signer.
fn signer_octets(alloc: Global, fields: &[Octets]) -> Result<Option<Octets>, NoMemory>
    ensures { IfOk result (λ octets. octets ≡ signer_octets fields.now) }
{
    match fields {
        [tag, algorithm, kind, digest @ ..] => {
            let front = signer_front(tag.items(), algorithm.items(), kind.items());
            signer_joined(alloc, front, digest)
        }
        _ => Ok(None),
    }
}

/// What stands at the front of a signer, and a digest in hexadecimal digits.
fn signer_joined(
    alloc: Global,
    front: Option<[u8; 4]>,
    digest: &[Octets],
) -> Result<Option<Octets>, NoMemory>
    ensures { IfOk result (λ octets. octets ≡ joined front (hex_octets digest.now)) }
{
    let digest = hex_octets(alloc, digest)?;
    joined(alloc, front, digest)
}

/// The tag and the algorithm of a key and the type of a digest.
fn signer_front(tag: &[u8], algorithm: &[u8], kind: &[u8]) -> Option<[u8; 4]>
    ensures { result ≡ signer_front tag.now algorithm.now kind.now }
{
    let tag = read_number(tag, 10, 65535)? as u16;
    let algorithm = algorithm_in(algorithm)?;
    let kind = read_number(kind, 10, 255)? as u8;
    Some([(tag / 256) as u8, (tag % 256) as u8, algorithm, kind])
}

/// The octets of a key's record.
fn key_octets(alloc: Global, fields: &[Octets]) -> Result<Option<Octets>, NoMemory>
    ensures { IfOk result (λ octets. octets ≡ key_octets fields.now) }
{
    match fields {
        [flags, protocol, algorithm, key @ ..] => {
            let front = key_front(flags.items(), protocol.items(), algorithm.items());
            key_joined(alloc, front, key)
        }
        _ => Ok(None),
    }
}

/// What stands at the front of a key's record, and the key in base64.
fn key_joined(
    alloc: Global,
    front: Option<[u8; 4]>,
    key: &[Octets],
) -> Result<Option<Octets>, NoMemory>
    ensures { IfOk result (λ octets. octets ≡ joined front (base64_octets key.now)) }
{
    let key = base64_octets(alloc, key)?;
    joined(alloc, front, key)
}

/// The flags, the protocol and the algorithm of a key.
fn key_front(flags: &[u8], protocol: &[u8], algorithm: &[u8]) -> Option<[u8; 4]>
    ensures { result ≡ key_front flags.now protocol.now algorithm.now }
{
    let flags = read_number(flags, 10, 65535)? as u16;
    let protocol = read_number(protocol, 10, 255)? as u8;
    let algorithm = algorithm_in(algorithm)?;
    Some([
        (flags / 256) as u8,
        (flags % 256) as u8,
        protocol,
        algorithm,
    ])
}

/// Octets at the front and some behind them.
fn joined(
    alloc: Global,
    front: Option<[u8; 4]>,
    back: Option<Octets>,
) -> Result<Option<Octets>, NoMemory>
    ensures { IfOk result (λ octets. octets ≡ joined front back) }
{
    match (front, back) {
        (Some(front), Some(back)) => both(alloc, &front, back.items()),
        _ => Ok(None),
    }
}

/// Octets at the front and those behind them, if there are some.
fn both(alloc: Global, front: &[u8], back: &[u8]) -> Result<Option<Octets>, NoMemory>
    ensures { IfOk result (λ octets. octets ≡ joined (Some front.now) (Some back.now)) }
{
    if back.is_empty() {
        return Ok(None);
    }
    let mut octets = Octets::from_octets(alloc, front)?;
    octets.extend_from_slice(alloc, back)?;
    Ok(Some(octets))
}

/// The octets that texts write in hexadecimal digits, put together.
fn hex_octets(alloc: Global, texts: &[Octets]) -> Result<Option<Octets>, NoMemory>
    ensures { IfOk result (λ octets. octets ≡ hex_octets texts.now) }
{
    let digits = together(alloc, texts)?;
    match hex::decode(alloc, digits.items()) {
        Ok(octets) => Ok(Some(Octets::from_vec(octets))),
        Err(FromHexError::OutOfMemory) => Err(NoMemory),
        Err(_) => Ok(None),
    }
}

/// The octets that texts write in base64 with its padding, put together (RFC 4648 section 4).
fn base64_octets(alloc: Global, texts: &[Octets]) -> Result<Option<Octets>, NoMemory>
    ensures { IfOk result (λ octets. octets ≡ base64_octets texts.now) }
{
    let digits = together(alloc, texts)?;
    match STANDARD.decode(alloc, digits.items()) {
        Ok(octets) => Ok(Some(Octets::from_vec(octets))),
        Err(DecodeAllocError::OutOfMemory) => Err(NoMemory),
        Err(DecodeAllocError::DecodeError(_)) => Ok(None),
    }
}

/// The texts, put together.
fn together(alloc: Global, texts: &[Octets]) -> Result<Octets, NoMemory>
    ensures { IfOk result (λ all. all ≡ together texts.now) }
{
    let mut all = Octets::new();
    for text in texts {
        all.extend_from_slice(alloc, text.items())?;
    }
    Ok(all)
}
