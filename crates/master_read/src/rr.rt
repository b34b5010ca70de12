//! Records.

ghost use Rattle.std.specs.Prelude.{◌≡◌, map, Result, Ok, Err, IfOk, IfErr, OnOk, MatchResult};
ghost use Rattle.dns_data.specs.Answers.{AnswersOr, with_fault};
ghost use Rattle.dns_data.specs.Octet.{raised};
ghost use Rattle.master_read.specs.Context.{behind_record};
ghost use Rattle.master_read.specs.Entries.{owner_of, written_owner, behind_owner, type_said, data_behind, data_by, as_data, own_ttl, made_of, record_of};

use crate::context::Context;
use crate::fault::{EntryFault, TextCause};
use crate::front::read_front;
use crate::words::{TypeWord, type_word};
use dns_data::{Name, NameFault, NoMemory, Octets, Rdata, Rr};
use master_lex::{TextEntry, TextToken};
use rdata_forms::{RdataFault, read_other_in_text, read_rdata_in_text};
use std::alloc::Global;

/// The record of a record entry of the file of this number, or `None` where its type is dropped. What it leaves for
/// the next entry goes into the context.
#[tactic(auto, unfolding(crate::specs::Entries::record_of))]
pub(crate) fn read_record(
    alloc: Global,
    context: &mut Context,
    file: u32,
    entry: &TextEntry<'_, '_>,
) -> Result<Option<Rr>, EntryFault>
    ensures ok { IfOk result (λ rr. record_of file context.old entry.now ≡ Ok (record { context = context.new; rr = rr })) }
    ensures fault { IfErr result (λ fault. AnswersOr EntryFault.NoMemory (Err fault) (with_fault EntryFault.Cause (record_of file context.old entry.now))) }
{
    let owner = read_owner(alloc, context, entry)?;
    let front = read_front(behind_owner(entry))?;
    let owner = remember(alloc, context, entry, owner, front.ttl)?;
    let rdata = read_data(alloc, front.tokens, &context.origin)?;
    Ok(with_ttl(context, owner, front.ttl, file, entry.line(), rdata)?)
}

/// The owner of a record entry.
#[tactic(auto, unfolding(crate::specs::Entries::owner_of))]
fn read_owner(
    alloc: Global,
    context: &Context,
    entry: &TextEntry<'_, '_>,
) -> Result<Name, EntryFault>
    ensures { AnswersOr EntryFault.NoMemory result (with_fault EntryFault.Cause (owner_of context.now entry.now)) }
{
    if !entry.blank_start() {
        return written_owner(alloc, context, entry.tokens());
    }
    match &context.owner {
        Some(owner) => Ok(owner.copy(alloc)?),
        None => Err(EntryFault::Cause(TextCause::NoOwner)),
    }
}

/// The owner that the first token gives.
fn written_owner(
    alloc: Global,
    context: &Context,
    tokens: &[TextToken<'_>],
) -> Result<Name, EntryFault>
    ensures { AnswersOr EntryFault.NoMemory result (with_fault EntryFault.Cause (written_owner context.now tokens.now)) }
{
    let [token, ..] = tokens else {
        return Err(EntryFault::Cause(TextCause::NoType));
    };
    match Name::from_text(alloc, token.raw(), &context.origin) {
        Ok(owner) => Ok(owner),
        Err(NameFault::NoMemory) => Err(EntryFault::NoMemory),
        Err(fault) => Err(EntryFault::Cause(TextCause::BadOwner(fault))),
    }
}

/// The tokens behind the owner.
fn behind_owner<'t, 'a>(entry: &TextEntry<'t, 'a>) -> &'t [TextToken<'a>]
    ensures { result.now ≡ behind_owner entry.now }
{
    match entry.tokens() {
        [_, tokens @ ..] if !entry.blank_start() => tokens,
        tokens => tokens,
    }
}

/// The data behind the type's word, or `None` where the type is dropped.
#[tactic(auto, unfolding(crate::specs::Entries::data_behind))]
fn read_data(
    alloc: Global,
    tokens: &[TextToken<'_>],
    origin: &Name,
) -> Result<Option<Rdata>, EntryFault>
    ensures { AnswersOr EntryFault.NoMemory result (with_fault EntryFault.Cause (data_behind tokens.now origin.now)) }
{
    let [word, fields @ ..] = tokens else {
        return Err(EntryFault::Cause(TextCause::NoType));
    };
    let said = type_said(word)?;
    data_by(alloc, said, word, fields, origin)
}

/// What the token where the type stands says.
#[tactic(auto, unfolding(crate::specs::Entries::type_said))]
fn type_said(token: &TextToken<'_>) -> Result<TypeWord, TextCause>
    ensures { result ≡ type_said token.now }
{
    if token.is_quoted() {
        return Err(TextCause::UnknownType);
    }
    type_word(token.raw()).ok_or(TextCause::UnknownType)
}

/// The data of a type, or `None` where it is dropped.
fn data_by(
    alloc: Global,
    said: TypeWord,
    word: &TextToken<'_>,
    fields: &[TextToken<'_>],
    origin: &Name,
) -> Result<Option<Rdata>, EntryFault>
    ensures { AnswersOr EntryFault.NoMemory result (with_fault EntryFault.Cause (data_by said word.now fields.now origin.now)) }
{
    match said {
        TypeWord::Known(rtype) => kept(read_rdata_in_text(alloc, rtype, fields, origin)),
        TypeWord::Other => {
            let upper = upper_case(alloc, word.raw())?;
            kept(read_other_in_text(alloc, upper.items(), fields))
        }
        TypeWord::Dropped => Ok(None),
    }
}

/// What the reading of data gave, as a record's.
fn kept(rdata: Result<Rdata, RdataFault>) -> Result<Option<Rdata>, EntryFault>
    ensures { (said : Result Rdata RdataFault) → AnswersOr RdataFault.NoMemory rdata said
        → AnswersOr EntryFault.NoMemory result (with_fault EntryFault.Cause (as_data said)) }
{
    match rdata {
        Ok(rdata) => Ok(Some(rdata)),
        Err(RdataFault::NoMemory) => Err(EntryFault::NoMemory),
        Err(fault) => Err(EntryFault::Cause(TextCause::Rdata(fault))),
    }
}

/// The octets with a to z raised to A to Z.
fn upper_case(alloc: Global, octets: &[u8]) -> Result<Octets, NoMemory>
    ensures { IfOk result (λ upper. upper ≡ map raised octets.now) }
{
    Ok(Octets::from_vec(octets.iter().map(|octet| raised(*octet)).collect(alloc)?))
}

/// The octet, raised to A to Z where it is one of a to z.
fn raised(octet: u8) -> u8
    ensures { result ≡ raised octet }
{
    octet.to_ascii_uppercase()
}

/// Puts what stands in front of a record's type into the context, and gives the owner for the record.
#[tactic(auto, using(crate::proofs::Steps::last_owner_is))]
fn remember(
    alloc: Global,
    context: &mut Context,
    entry: &TextEntry<'_, '_>,
    owner: Name,
    ttl: Option<u32>,
) -> Result<Name, NoMemory>
    requires { owner_of context.old entry.now ≡ Ok owner }
    ensures owner { IfOk result (λ given. given ≡ owner) }
    ensures context { OnOk result (context.new ≡ behind_record context.old owner ttl) }
{
    context.stated_ttl = ttl.or(context.stated_ttl);
    if entry.blank_start() {
        return Ok(owner);
    }
    // The record keeps the copy, which has no more room than it needs.
    let given = owner.copy(alloc)?;
    context.owner = Some(owner);
    Ok(given)
}

/// The record with these data, or `None` where its type is dropped. A TTL that the data say themselves counts as
/// stated where they give the record's.
#[tactic(auto, unfolding(crate::specs::Entries::made_of))]
fn with_ttl(
    context: &mut Context,
    owner: Name,
    stated: Option<u32>,
    file: u32,
    line: u32,
    rdata: Option<Rdata>,
) -> Result<Option<Rr>, TextCause>
    ensures { MatchResult result
        (λ rr. made_of context.old owner stated file line rdata ≡ Ok (record { context = context.new; rr = rr }))
        (λ cause. made_of context.old owner stated file line rdata ≡ Err cause) }
{
    let Some(rdata) = rdata else {
        return Ok(None);
    };
    let own = own_ttl(&rdata);
    let inherited = context.default_ttl.or(context.stated_ttl);
    let Some(ttl) = stated.or(inherited.or(own)) else {
        return Err(TextCause::NoTtl);
    };
    if inherited.is_none() {
        context.stated_ttl = own;
    }
    Ok(Some(Rr {
        owner,
        ttl,
        rdata,
        file,
        line,
    }))
}

/// The TTL that data say themselves: the MINIMUM of an SOA.
fn own_ttl(rdata: &Rdata) -> Option<u32>
    ensures { result ≡ own_ttl rdata.now }
{
    match rdata {
        Rdata::Soa { minimum, .. } => Some(*minimum),
        _ => None,
    }
}
