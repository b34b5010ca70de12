//! Strings and tags.

ghost use Rattle.std.specs.Prelude.{◌≡◌, ◌<◌, ◌==◌, ◌∷◌, [], length, not, IfOk, IfSome, MatchOption};
ghost use Rattle.std.specs.List.{list_all};
ghost use Rattle.dns_data.specs.Answers.{AnswersOr};
ghost use Rattle.rdata_forms.specs.Texts.{resolved, string_of, is_tag_octet, tag_of};

use crate::fault::RdataFault;
use dns_data::{NoMemory, Octets, escaped_octet};
use std::alloc::Global;

/// The string that the text of a token stands for, in one buffer, or `TextTooLong` where it has more than `most`
/// octets. Escapes are resolved and nothing is folded (RFC 1035 section 5.1).
#[tactic(auto, using(crate::proofs::PlainTexts::plain_resolved))]
pub(crate) fn read_string(alloc: Global, text: &[u8], most: usize) -> Result<Octets, RdataFault>
    ensures { AnswersOr RdataFault.NoMemory result (string_of most text.now) }
{
    if !has_no_backslash(text) {
        return read_escaped(alloc, text, most);
    }
    if text.len() > most {
        return Err(RdataFault::TextTooLong);
    }
    Ok(Octets::from_octets(alloc, text)?)
}

/// Whether no octet is a backslash.
fn has_no_backslash(text: &[u8]) -> bool
    ensures { result ≡ list_all (λ octet. not (octet == 92)) text.now }
{
    text.iter().all(|octet| *octet != b'\\')
}

/// The string that the text of a token stands for, octet by octet, or `TextTooLong` where it has more than `most`
/// octets.
fn read_escaped(alloc: Global, text: &[u8], most: usize) -> Result<Octets, RdataFault>
    ensures { AnswersOr RdataFault.NoMemory result (string_of most text.now) }
{
    let mut octets = Octets::with_capacity(alloc, text.len().min(most))?;
    let mut rest = text;
    while let Some((octet, after)) = first_octet(rest) {
        if octets.len() >= most {
            return Err(RdataFault::TextTooLong);
        }
        octets.push(alloc, octet)?;
        rest = after;
    }
    Ok(octets)
}

/// The octets that the text of a token stands for, its escapes resolved (RFC 1035 section 5.1).
pub fn resolve(alloc: Global, text: &[u8]) -> Result<Octets, NoMemory>
    ensures { IfOk result (λ octets. octets ≡ resolved text.now) }
{
    let mut out = Octets::new();
    let mut rest = text;
    while let Some((octet, after)) = first_octet(rest) {
        out.push(alloc, octet)?;
        rest = after;
    }
    Ok(out)
}

/// The octet for which the front of the text stands, and what follows, or `None` where it stands for none.
fn first_octet(text: &[u8]) -> Option<(u8, &[u8])>
    ensures octet { MatchOption result (resolved text.now ≡ []) (λ first. resolved text.now ≡ first.0 ∷ resolved first.1.now) }
    ensures shorter { IfSome result (λ first. length first.1.now < length text.now) }
{
    match text {
        [b'\\', after @ ..] => escaped_octet(after),
        [octet, after @ ..] => Some((*octet, after)),
        [] => None,
    }
}

/// The property tag that the text writes, folded: `TextTooLong` where it has more than 255 octets, else `BadNumber`
/// where there is none or one is no letter and no digit (RFC 8659 section 4.1).
pub(crate) fn read_tag(alloc: Global, text: &[u8]) -> Result<Octets, RdataFault>
    ensures { AnswersOr RdataFault.NoMemory result (tag_of text.now) }
{
    if text.len() > 255 {
        return Err(RdataFault::TextTooLong);
    }
    if text.is_empty() || !are_tag_octets(text) {
        return Err(RdataFault::BadNumber);
    }
    let mut tag = Octets::with_capacity(alloc, text.len())?;
    for octet in text {
        tag.push(alloc, octet.to_ascii_lowercase())?;
    }
    Ok(tag)
}

/// Whether all octets are letters and digits.
fn are_tag_octets(text: &[u8]) -> bool
    ensures { result ≡ list_all is_tag_octet text.now }
{
    text.iter().all(|octet| octet.is_ascii_alphanumeric())
}
