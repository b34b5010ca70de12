//! Single fields of data.

ghost use Rattle.std.specs.Prelude.{◌≡◌, ◌≤◌, IfOk};
ghost use Rattle.dns_data.specs.Answers.{AnswersOr};
ghost use Rattle.rdata_forms.specs.Numbers.{number_in};
ghost use Rattle.rdata_forms.specs.Times.{time_in};
ghost use Rattle.rdata_forms.specs.Texts.{string_of, tag_of};
ghost use Rattle.rdata_forms.specs.Forms.{name_in};

use crate::fault::RdataFault;
use crate::texts::{read_string, read_tag};
use crate::times::read_ttl;
use dns_data::{Boxed, Name, NameFault, Octets, read_number};
use master_lex::TextToken;
use std::alloc::Global;

/// A number of one to ten digits, or `BadNumber` where the token is none or the number is above `most`.
pub(crate) fn number_field(token: &TextToken<'_>, most: u32) -> Result<u32, RdataFault>
    ensures number { result ≡ number_in most token.now.raw }
    ensures within { IfOk result (λ number. number ≤ most) }
{
    read_number(token.raw(), 10, most).ok_or(RdataFault::BadNumber)
}

/// A time in seconds, or `BadNumber` where the token is none.
pub(crate) fn time_field(token: &TextToken<'_>) -> Result<u32, RdataFault>
    ensures { result ≡ time_in token.now.raw }
{
    read_ttl(token.raw()).ok_or(RdataFault::BadNumber)
}

/// A name under an origin, or why the token is none.
pub(crate) fn name_field(
    alloc: Global,
    token: &TextToken<'_>,
    origin: &Name,
) -> Result<Name, RdataFault>
    ensures { AnswersOr RdataFault.NoMemory result (name_in origin.now token.now.raw) }
{
    match Name::from_text(alloc, token.raw(), origin) {
        Ok(name) => Ok(name),
        Err(NameFault::NoMemory) => Err(RdataFault::NoMemory),
        Err(fault) => Err(RdataFault::BadName(fault)),
    }
}

/// A name under an origin in memory of its own, or why the token is none.
pub(crate) fn boxed_name(
    alloc: Global,
    token: &TextToken<'_>,
    origin: &Name,
) -> Result<Boxed<Name>, RdataFault>
    ensures { AnswersOr RdataFault.NoMemory result (name_in origin.now token.now.raw) }
{
    let name = name_field(alloc, token, origin)?;
    Ok(Boxed::new(alloc, name)?)
}

/// A string of at most this many octets, or `TextTooLong`.
pub(crate) fn string_field(
    alloc: Global,
    token: &TextToken<'_>,
    most: usize,
) -> Result<Octets, RdataFault>
    ensures { AnswersOr RdataFault.NoMemory result (string_of most token.now.raw) }
{
    read_string(alloc, token.raw(), most)
}

/// A string of at most this many octets in memory of its own, or `TextTooLong`.
pub(crate) fn boxed_string(
    alloc: Global,
    token: &TextToken<'_>,
    most: usize,
) -> Result<Boxed<Octets>, RdataFault>
    ensures { AnswersOr RdataFault.NoMemory result (string_of most token.now.raw) }
{
    let string = string_field(alloc, token, most)?;
    Ok(Boxed::new(alloc, string)?)
}

/// A tag, folded, in memory of its own, or why the token is none.
pub(crate) fn boxed_tag(alloc: Global, token: &TextToken<'_>) -> Result<Boxed<Octets>, RdataFault>
    ensures { AnswersOr RdataFault.NoMemory result (tag_of token.now.raw) }
{
    let tag = read_tag(alloc, token.raw())?;
    Ok(Boxed::new(alloc, tag)?)
}
