//! Signers and keys that data of records hold.

ghost use Rattle.std.specs.Prelude.{◌≡◌, option_and_then, IfOk};
ghost use Rattle.key_chain.specs.Keys.{key_of, signer_of};
ghost use Rattle.key_chain.specs.Records.{is_dnskey, is_ds, is_malformed, is_numbered, is_word_of, key_in, octets_in, signer_in};

use crate::keys::{Key, Signer, key_of, signer_of};
use dns_data::{NoMemory, Octets, Rdata};
use kept_data::{kept_number, kept_octets};
use std::alloc::Global;

/// The number of the type of DS records (RFC 4034 section 5).
const DS: u16 = 43;

/// The number of the type of DNSKEY records (RFC 4034 section 2).
const DNSKEY: u16 = 48;

/// Whether the data are those of a DS record, in whatever form.
pub fn is_ds(rdata: &Rdata) -> bool
    ensures { result ≡ is_ds rdata.now }
{
    is_numbered(DS, rdata)
}

/// Whether the data are those of a DNSKEY record, in whatever form.
pub fn is_dnskey(rdata: &Rdata) -> bool
    ensures { result ≡ is_dnskey rdata.now }
{
    is_numbered(DNSKEY, rdata)
}

/// Whether the data are of the type with this number, which are kept as they were written.
fn is_numbered(number: u16, rdata: &Rdata) -> bool
    ensures { result ≡ is_numbered number rdata.now }
{
    match rdata {
        Rdata::Other { word, .. } => is_word_of(number, word.get()),
        _ => false,
    }
}

/// Whether the word is that of the type with this number.
fn is_word_of(number: u16, word: &Octets) -> bool
    ensures { result ≡ is_word_of number word.now }
{
    match kept_number(word.items()) {
        Some(own) => own == number,
        None => false,
    }
}

/// The octets of kept data of a type with this number, or `None` where they don't have their form.
fn octets_in(alloc: Global, number: u16, rdata: &Rdata) -> Result<Option<Octets>, NoMemory>
    ensures { IfOk result (λ octets. octets ≡ octets_in number rdata.now) }
{
    match rdata {
        Rdata::Other { tokens, .. } => kept_octets(alloc, number, tokens.items()),
        _ => Ok(None),
    }
}

/// The signer that a DS record's data hold, or `None` where they don't have their form (RFC 4034 section 5.3).
pub fn signer_in(alloc: Global, rdata: &Rdata) -> Result<Option<Signer>, NoMemory>
    ensures { IfOk result (λ signer. signer ≡ signer_in rdata.now) }
{
    let octets = octets_in(alloc, DS, rdata)?;
    signer_of_some(alloc, &octets)
}

/// The signer of octets, where there are some.
fn signer_of_some(alloc: Global, octets: &Option<Octets>) -> Result<Option<Signer>, NoMemory>
    ensures { IfOk result (λ signer. signer ≡ option_and_then signer_of octets.now) }
{
    match octets {
        Some(octets) => signer_of(alloc, octets.items()),
        None => Ok(None),
    }
}

/// The key that a DNSKEY record's data hold, or `None` where they don't have their form (RFC 4034 section 2.2).
pub fn key_in(alloc: Global, rdata: &Rdata) -> Result<Option<Key>, NoMemory>
    ensures { IfOk result (λ key. key ≡ key_in rdata.now) }
{
    let octets = octets_in(alloc, DNSKEY, rdata)?;
    key_of_some(alloc, &octets)
}

/// The key of octets, where there are some.
fn key_of_some(alloc: Global, octets: &Option<Octets>) -> Result<Option<Key>, NoMemory>
    ensures { IfOk result (λ key. key ≡ option_and_then key_of octets.now) }
{
    match octets {
        Some(octets) => key_of(alloc, octets.items()),
        None => Ok(None),
    }
}

/// Whether the data are those of a DS or DNSKEY record and don't have their form.
pub fn is_malformed(alloc: Global, rdata: &Rdata) -> Result<bool, NoMemory>
    ensures { IfOk result (λ malformed. malformed ≡ is_malformed rdata.now) }
{
    if is_ds(rdata) && signer_in(alloc, rdata)?.is_none() {
        return Ok(true);
    }
    Ok(is_dnskey(rdata) && key_in(alloc, rdata)?.is_none())
}
