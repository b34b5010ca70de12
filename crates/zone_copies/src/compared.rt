//! What records are compared by.

ghost use Rattle.std.specs.Prelude.{◌≡◌, ◌++◌, ◌∷◌, [], IfOk, IsSome, OnOk};
ghost use Rattle.std.specs.Option.{option_map_or};
ghost use Rattle.std.specs.List.{flat_map};
ghost use Rattle.dns_data.specs.DataText.{data_text};
ghost use Rattle.dns_data.specs.Rdata.{type_of_data};
ghost use Rattle.dns_data.specs.RrType.{number_of};
ghost use Rattle.kept_data.specs.Octets.{kept_octets};
ghost use Rattle.zone_copies.specs.Versions.{compared, compared_data, data_number, other_number, tokens_or_octets};

use dns_data::{NoMemory, Octets, Rdata, Rr, rdata_text};
use kept_data::{kept_number, kept_octets};
use std::alloc::Global;

/// What a record is compared by: its owner, the number of its type and its data.
pub(crate) fn compared(alloc: Global, rr: &Rr) -> Result<Octets, NoMemory>
    ensures { IfOk result (λ octets. octets ≡ compared rr.now) }
{
    let owner = rr.owner.to_text(alloc)?;
    let mut octets = Octets::from_octets(alloc, owner.as_str().as_bytes())?;
    octets.push(alloc, b' ')?;
    let number = data_number(&rr.rdata);
    octets.push(alloc, (number / 256) as u8)?;
    octets.push(alloc, (number % 256) as u8)?;
    put_data(alloc, &mut octets, &rr.rdata)?;
    Ok(octets)
}

/// The number of the data's type.
fn data_number(rdata: &Rdata) -> u16
    ensures { result ≡ data_number rdata.now }
{
    match rdata {
        Rdata::Other { word, .. } => other_number(word.get()),
        _ => known_number(rdata),
    }
}

/// The number of a type's word, 0 where it is none.
fn other_number(word: &Octets) -> u16
    ensures { result ≡ other_number word.now }
{
    kept_number(word.items()).unwrap_or(0)
}

/// Puts what data are compared by at the end.
fn put_data(alloc: Global, octets: &mut Octets, rdata: &Rdata) -> Result<(), NoMemory>
    ensures { OnOk result (octets.new ≡ octets.old ++ compared_data rdata.now) }
{
    match rdata {
        Rdata::Other { word, tokens } => {
            let number = other_number(word.get());
            put_kept(alloc, octets, number, tokens.items())
        }
        _ => put_text(alloc, octets, rdata),
    }
}

/// Puts the text of data of one of the twelve types at the end.
fn put_text(alloc: Global, octets: &mut Octets, rdata: &Rdata) -> Result<(), NoMemory>
    requires { IsSome (type_of_data rdata.now) }
    ensures { OnOk result (octets.new ≡ octets.old ++ data_text rdata.now) }
{
    let text = rdata_text(alloc, rdata)?;
    octets.extend_from_slice(alloc, text.as_str().as_bytes())
}

/// Puts what data of a type beyond the twelve are compared by at the end.
fn put_kept(
    alloc: Global,
    octets: &mut Octets,
    number: u16,
    tokens: &[Octets],
) -> Result<(), NoMemory>
    ensures { OnOk result (octets.new ≡ octets.old ++ tokens_or_octets tokens.now (kept_octets number tokens.now)) }
{
    match kept_octets(alloc, number, tokens)? {
        Some(own) => put_marked(alloc, octets, 1, own.items()),
        None => {
            let text = tokens_text(alloc, tokens)?;
            put_marked(alloc, octets, 0, text.items())
        }
    }
}

/// Puts a mark and the octets behind it at the end.
fn put_marked(alloc: Global, octets: &mut Octets, mark: u8, behind: &[u8]) -> Result<(), NoMemory>
    ensures { OnOk result (octets.new ≡ octets.old ++ mark ∷ behind.now) }
{
    octets.push(alloc, mark)?;
    octets.extend_from_slice(alloc, behind)
}

/// The tokens, each with a line feed behind it.
fn tokens_text(alloc: Global, tokens: &[Octets]) -> Result<Octets, NoMemory>
    ensures { IfOk result (λ text. text ≡ flat_map (λ token. token ++ 10 ∷ []) tokens.now) }
{
    let mut text = Octets::new();
    for token in tokens {
        text.extend_from_slice(alloc, token.items())?;
        text.push(alloc, b'\n')?;
    }
    Ok(text)
}

/// The number of the type of data of one of the twelve types.
fn known_number(rdata: &Rdata) -> u16
    ensures { result ≡ option_map_or number_of (type_of_data rdata.now) 0 }
{
    match rdata.rtype() {
        Some(rtype) => rtype.number(),
        None => 0,
    }
}
