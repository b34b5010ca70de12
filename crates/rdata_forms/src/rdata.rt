//! The data of records.

ghost use Rattle.std.specs.Prelude.{◌≡◌, ◌≢◌, ◌⊎◌, Err, IfOk, IfErr};
ghost use Rattle.dns_data.specs.Answers.{AnswersOr};
ghost use Rattle.rdata_forms.specs.Forms.{rdata_of, other_of, fields_of, written};

use crate::fault::RdataFault;
use crate::forms;
use crate::generic::{is_generic, is_generic_form};
use dns_data::{Boxed, List, Name, NameFault, Octets, Rdata, RrType};
use master_lex::{TextToken, Token, tokens_in_text};
use std::alloc::Global;

/// The data of a type that the tokens stand for under an origin. Of several faults it is the first of these:
/// `GenericKnown` where the first token isn't quoted and reads `\#`; `FieldCount` for another number of tokens than
/// the type's; then the first from the left of `BadNumber`, `BadAddress`, `BadName` and `TextTooLong`. It is never
/// `BadHex`. A string ends before an escape that spells nothing, which no lexer gives (RFC 1035 sections 3.3, 3.4 and
/// 5.1, RFC 3597 section 5).
pub fn read_rdata(
    alloc: Global,
    rtype: RrType,
    tokens: &[Token],
    origin: &Name,
) -> Result<Rdata, RdataFault>
    ensures answers { AnswersOr RdataFault.NoMemory result (rdata_of rtype tokens.now origin.now) }
    ensures named { result ≢ Err (RdataFault.BadName NameFault.NoMemory) }
{
    let tokens = tokens_in_text(alloc, tokens)?;
    read_rdata_in_text(alloc, rtype, &tokens, origin)
}

/// What `read_rdata` answers of these tokens, which stand in a text.
pub fn read_rdata_in_text(
    alloc: Global,
    rtype: RrType,
    tokens: &[TextToken<'_>],
    origin: &Name,
) -> Result<Rdata, RdataFault>
    ensures answers { AnswersOr RdataFault.NoMemory result (rdata_of rtype tokens.now origin.now) }
    ensures named { result ≢ Err (RdataFault.BadName NameFault.NoMemory) }
{
    if is_generic(tokens) {
        return Err(RdataFault::GenericKnown);
    }
    read_fields(alloc, rtype, tokens, origin)
}

/// The data of a type that the fields stand for under an origin.
fn read_fields(
    alloc: Global,
    rtype: RrType,
    tokens: &[TextToken<'_>],
    origin: &Name,
) -> Result<Rdata, RdataFault>
    ensures { AnswersOr RdataFault.NoMemory result (fields_of rtype (written tokens.now) origin.now) }
{
    match rtype {
        RrType::A => forms::read_a(tokens),
        RrType::Ns => forms::read_ns(alloc, tokens, origin),
        RrType::Cname => forms::read_cname(alloc, tokens, origin),
        RrType::Soa => forms::read_soa(alloc, tokens, origin),
        RrType::Ptr => forms::read_ptr(alloc, tokens, origin),
        RrType::Hinfo => forms::read_hinfo(alloc, tokens),
        RrType::Mx => forms::read_mx(alloc, tokens, origin),
        RrType::Txt => forms::read_txt(alloc, tokens),
        RrType::Aaaa => forms::read_aaaa(tokens),
        RrType::Srv => forms::read_srv(alloc, tokens, origin),
        RrType::Dname => forms::read_dname(alloc, tokens, origin),
        RrType::Caa => forms::read_caa(alloc, tokens),
    }
}

/// The data of another type under its word: the tokens as they are written. It is `BadHex` where the first token
/// isn't quoted and reads `\#`, and a length of up to 65,535 and exactly this many octets in hexadecimal don't follow
/// (RFC 3597 section 5).
pub fn read_other(alloc: Global, word: &[u8], tokens: &[Token]) -> Result<Rdata, RdataFault>
    ensures answers { AnswersOr RdataFault.NoMemory result (other_of word.now tokens.now) }
    ensures fault { IfErr result (λ fault. (fault ≡ RdataFault.BadHex) ⊎ (fault ≡ RdataFault.NoMemory)) }
{
    let tokens = tokens_in_text(alloc, tokens)?;
    read_other_in_text(alloc, word, &tokens)
}

/// What `read_other` answers of these tokens, which stand in a text.
pub fn read_other_in_text(
    alloc: Global,
    word: &[u8],
    tokens: &[TextToken<'_>],
) -> Result<Rdata, RdataFault>
    ensures answers { AnswersOr RdataFault.NoMemory result (other_of word.now tokens.now) }
    ensures fault { IfErr result (λ fault. (fault ≡ RdataFault.BadHex) ⊎ (fault ≡ RdataFault.NoMemory)) }
{
    if is_generic(tokens) && !is_generic_form(tokens) {
        return Err(RdataFault::BadHex);
    }
    let word = Boxed::new(alloc, Octets::from_octets(alloc, word)?)?;
    let tokens = copies(alloc, tokens)?;
    Ok(Rdata::Other { word, tokens })
}

/// The tokens as they are written.
fn copies(alloc: Global, tokens: &[TextToken<'_>]) -> Result<List<Octets>, RdataFault>
    ensures ok { IfOk result (λ copies. copies ≡ written tokens.now) }
    ensures err { IfErr result (λ fault. fault ≡ RdataFault.NoMemory) }
{
    let mut copies = Vec::with_capacity(alloc, tokens.len())?;
    for token in tokens {
        copies.push(Octets::from_octets(alloc, token.raw())?)?;
    }
    Ok(List::from_vec(copies))
}
