//! Directives.

ghost use Rattle.std.specs.Prelude.{◌≡◌, false, true, Ok, Err, IfOk, IfErr, OnOk, MatchOption};
ghost use Rattle.dns_data.specs.Answers.{AnswersOr, with_fault};
ghost use Rattle.rdata_forms.specs.Texts.{resolved};
ghost use Rattle.master_read.specs.Directives.{Sets, Includes, is_directive, begins_with_dollar, includes, is_include, named_below, directive_of, origin_directive, ttl_directive, include_directive, file_named, include_origin};

use crate::context::Context;
use crate::fault::{EntryFault, TextCause};
use dns_data::{Name, NameFault, Text, is_word};
use master_lex::{Entry, TextEntry, Token};
use rdata_forms::{read_ttl, resolve};
use std::alloc::Global;

/// A file that is included.
#[derive(Debug, Drop)]
pub(crate) struct Include {
    /// The file's name.
    pub file: Text,
    /// Where its names without a final dot stand below.
    pub origin: Name,
}

/// Whether the entry is a directive.
pub(crate) fn is_directive(entry: &Entry) -> bool
    ensures { result ≡ is_directive entry.now }
{
    !entry.blank_start && begins_with_dollar(entry.tokens.items())
}

/// Whether the first token isn't quoted and begins with `$`.
fn begins_with_dollar(tokens: &[Token]) -> bool
    ensures { result ≡ begins_with_dollar tokens.now }
{
    match tokens {
        [] => false,
        [token, ..] => !token.quoted && token.raw.items().starts_with(b"$"),
    }
}

/// Whether an entry whose tokens stand in the text is a directive.
pub(crate) fn is_directive_in_text(entry: &TextEntry<'_, '_>) -> bool
    ensures { result ≡ is_directive entry.now }
{
    match entry.tokens() {
        [] => false,
        [token, ..] => {
            !entry.blank_start() && !token.is_quoted() && token.raw().starts_with(b"$")
        }
    }
}

/// Whether the entry is an `$INCLUDE`.
pub(crate) fn is_include(entry: &Entry) -> bool
    ensures { result ≡ is_include entry.now }
{
    is_directive(entry) && includes(entry.tokens.items())
}

/// Whether the first token is the word `$INCLUDE`.
fn includes(tokens: &[Token]) -> bool
    ensures { result ≡ includes tokens.now }
{
    match tokens {
        [] => false,
        [token, ..] => is_word("$INCLUDE", token.raw.items()),
    }
}

/// Puts what a directive says into the context, which is no `$INCLUDE`.
#[tactic(auto, unfolding(crate::specs::Directives::directive_of))]
pub(crate) fn read_directive(
    alloc: Global,
    context: &mut Context,
    tokens: &[Token],
) -> Result<(), EntryFault>
    requires { includes tokens.now ≡ false }
    ensures ok { OnOk result (directive_of context.old tokens.now ≡ Ok (Sets context.new)) }
    ensures fault { IfErr result (λ fault. AnswersOr EntryFault.NoMemory (Err fault) (with_fault EntryFault.Cause (directive_of context.old tokens.now))) }
{
    let [token, arguments @ ..] = tokens else {
        return Err(EntryFault::Cause(TextCause::BadDirective));
    };
    let word = token.raw.items();
    if is_word("$ORIGIN", word) {
        read_origin(alloc, context, arguments)
    } else if is_word("$TTL", word) {
        read_default_ttl(context, arguments)
    } else if is_word("$GENERATE", word) {
        Err(EntryFault::Cause(TextCause::NotSupported))
    } else {
        Err(EntryFault::Cause(TextCause::BadDirective))
    }
}

/// The name that a token gives below the origin, as an argument of a directive.
fn read_name(alloc: Global, token: &Token, origin: &Name) -> Result<Name, EntryFault>
    ensures { AnswersOr EntryFault.NoMemory result (with_fault EntryFault.Cause (named_below origin.now token.now)) }
{
    match Name::from_text(alloc, token.raw.items(), origin) {
        Ok(name) => Ok(name),
        Err(NameFault::NoMemory) => Err(EntryFault::NoMemory),
        Err(_) => Err(EntryFault::Cause(TextCause::BadDirective)),
    }
}

/// Puts the name of an `$ORIGIN` into the context (RFC 1035 section 5.1).
#[tactic(auto, unfolding(crate::specs::Directives::origin_directive))]
fn read_origin(alloc: Global, context: &mut Context, arguments: &[Token]) -> Result<(), EntryFault>
    ensures ok { OnOk result (origin_directive context.old arguments.now ≡ Ok (Sets context.new)) }
    ensures fault { IfErr result (λ fault. AnswersOr EntryFault.NoMemory (Err fault) (with_fault EntryFault.Cause (origin_directive context.old arguments.now))) }
{
    let [name] = arguments else {
        return Err(EntryFault::Cause(TextCause::BadDirective));
    };
    context.origin = read_name(alloc, name, &context.origin)?;
    Ok(())
}

/// Puts the time of a `$TTL` into the context (RFC 2308 section 4).
#[tactic(auto, unfolding(crate::specs::Directives::ttl_directive))]
fn read_default_ttl(context: &mut Context, arguments: &[Token]) -> Result<(), EntryFault>
    ensures ok { OnOk result (ttl_directive context.old arguments.now ≡ Ok (Sets context.new)) }
    ensures fault { IfErr result (λ fault. with_fault EntryFault.Cause (ttl_directive context.old arguments.now) ≡ Err fault) }
{
    let [time] = arguments else {
        return Err(EntryFault::Cause(TextCause::BadDirective));
    };
    match read_ttl(time.raw.items()) {
        Some(ttl) => {
            context.default_ttl = Some(ttl);
            Ok(())
        }
        None => Err(EntryFault::Cause(TextCause::BadDirective)),
    }
}

/// The file that an `$INCLUDE` names, and the origin of its entries (RFC 1035 section 5.1).
#[tactic(auto, unfolding(crate::specs::Directives::directive_of))]
pub(crate) fn read_include(
    alloc: Global,
    context: &Context,
    tokens: &[Token],
) -> Result<Include, EntryFault>
    requires { includes tokens.now ≡ true }
    ensures ok { IfOk result (λ include. directive_of context.now tokens.now ≡ Ok (Includes include.file include.origin)) }
    ensures fault { IfErr result (λ fault. AnswersOr EntryFault.NoMemory (Err fault) (with_fault EntryFault.Cause (directive_of context.now tokens.now))) }
{
    match tokens {
        [] => Err(EntryFault::Cause(TextCause::BadDirective)),
        [_, arguments @ ..] => read_file(alloc, context, arguments),
    }
}

/// The file and the origin that the arguments of an `$INCLUDE` give.
#[tactic(auto, unfolding(crate::specs::Directives::include_directive))]
fn read_file(alloc: Global, context: &Context, arguments: &[Token]) -> Result<Include, EntryFault>
    ensures ok { IfOk result (λ include. include_directive context.now arguments.now ≡ Ok (Includes include.file include.origin)) }
    ensures fault { IfErr result (λ fault. AnswersOr EntryFault.NoMemory (Err fault) (with_fault EntryFault.Cause (include_directive context.now arguments.now))) }
{
    let [name, arguments @ ..] = arguments else {
        return Err(EntryFault::Cause(TextCause::BadDirective));
    };
    let file = read_file_name(alloc, name)?;
    let origin = read_include_origin(alloc, arguments, &context.origin)?;
    Ok(Include { file, origin })
}

/// The name of a file that a token gives.
fn read_file_name(alloc: Global, token: &Token) -> Result<Text, EntryFault>
    ensures { AnswersOr EntryFault.NoMemory result (with_fault EntryFault.Cause (file_named (resolved token.now.raw))) }
{
    let octets = resolve(alloc, token.raw.items())?;
    match file_name(octets.items()) {
        Some(name) => Ok(Text::from_str(alloc, name)?),
        None => Err(EntryFault::Cause(TextCause::BadDirective)),
    }
}

/// The octets as a text that isn't empty, or `None` where they are none.
#[tactic(auto, using(crate::proofs::Steps::no_utf8, crate::proofs::Steps::utf8))]
fn file_name(octets: &[u8]) -> Option<&str>
    ensures { MatchOption result (file_named octets.now ≡ Err TextCause.BadDirective) (λ name. file_named octets.now ≡ Ok name.now) }
{
    if octets.is_empty() {
        return None;
    }
    match str::from_utf8(octets) {
        Ok(name) => Some(name),
        Err(_) => None,
    }
}

/// The origin of an included file: the name that stands behind the file's, or the origin so far.
fn read_include_origin(
    alloc: Global,
    arguments: &[Token],
    origin: &Name,
) -> Result<Name, EntryFault>
    ensures { AnswersOr EntryFault.NoMemory result (with_fault EntryFault.Cause (include_origin origin.now arguments.now)) }
{
    match arguments {
        [] => Ok(origin.copy(alloc)?),
        [name] => read_name(alloc, name, origin),
        _ => Err(EntryFault::Cause(TextCause::BadDirective)),
    }
}
