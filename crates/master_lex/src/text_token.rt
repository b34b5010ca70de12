//! Tokens and entries whose octets stand in a text.

ghost use Rattle.std.specs.Prelude.{◌≡◌, IfOk};

use crate::entry::{Entry, Token};
use dns_data::{List, NoMemory, Octets};
use std::alloc::Global;
use std::marker::Model;

/// A token whose octets stand in a text (RFC 1035 section 5.1). Contracts see it as the token.
#[derive(Debug, Drop)]
pub struct TextToken<'a> {
    raw: &'a [u8],
    quoted: bool,
}

impl<'a> Model for TextToken<'a> {
    ghost use Rattle.master_lex.specs.declared.entry.Token.{Token};

    ghost Value = { Token };

    ghost view = { λ token. record { raw = token.raw.now; quoted = token.quoted } };
}

impl<'a> TextToken<'a> {
    /// The token of these octets, in quotes or not.
    pub(crate) fn new(raw: &'a [u8], quoted: bool) -> TextToken<'a>
        ensures { result ≡ record { raw = raw.entry.now; quoted = quoted } }
    {
        TextToken { raw, quoted }
    }

    /// The octets as they are written, without the quotes around them.
    pub fn raw(&self) -> &'a [u8]
        ensures { result.now ≡ self.now.raw }
    {
        self.raw
    }

    /// Whether the token stands in quotes.
    pub fn is_quoted(&self) -> bool
        ensures { result ≡ self.now.quoted }
    {
        self.quoted
    }

    /// The token with octets of its own.
    fn to_token(&self, alloc: Global) -> Result<Token, NoMemory>
        ensures { IfOk result (λ token. token ≡ self.now) }
    {
        Ok(Token {
            raw: Octets::from_octets(alloc, self.raw)?,
            quoted: self.quoted,
        })
    }
}

impl Token {
    /// The token, whose octets stand here.
    pub fn in_text(&self) -> TextToken<'_>
        ensures { result ≡ self.now }
    {
        TextToken::new(self.raw.items(), self.quoted)
    }
}

/// The tokens, whose octets stand here.
pub fn tokens_in_text<'a>(
    alloc: Global,
    tokens: &'a [Token],
) -> Result<Vec<TextToken<'a>>, NoMemory>
    ensures { IfOk result (λ same. same.items ≡ tokens.entry.now) }
{
    let mut same = Vec::with_capacity(alloc, tokens.len())?;
    for token in tokens {
        same.push(token.in_text())?;
    }
    Ok(same)
}

/// An entry whose tokens stand in a text (RFC 1035 section 5.1). Contracts see it as the entry.
#[derive(Debug, Drop)]
pub struct TextEntry<'t, 'a> {
    line: u32,
    blank_start: bool,
    tokens: &'t [TextToken<'a>],
}

impl<'t, 'a> Model for TextEntry<'t, 'a> {
    ghost use Rattle.master_lex.specs.declared.entry.Entry.{Entry};

    ghost Value = { Entry };

    ghost view = { λ entry. record { line = entry.line; blank_start = entry.blank_start; tokens = entry.tokens.now } };
}

impl<'t, 'a> TextEntry<'t, 'a> {
    /// The entry of these tokens, the first of which stands in this line, and whether the line on which it begins has a
    /// space or a tab in front.
    pub fn new(line: u32, blank_start: bool, tokens: &'t [TextToken<'a>]) -> TextEntry<'t, 'a>
        ensures { result ≡ record { line = line; blank_start = blank_start; tokens = tokens.entry.now } }
    {
        TextEntry {
            line,
            blank_start,
            tokens,
        }
    }

    /// The line of the first token, counted from 1.
    pub fn line(&self) -> u32
        ensures { result ≡ self.now.line }
    {
        self.line
    }

    /// Whether the line on which the entry begins has a space or a tab in front.
    pub fn blank_start(&self) -> bool
        ensures { result ≡ self.now.blank_start }
    {
        self.blank_start
    }

    /// The tokens in order.
    pub fn tokens(&self) -> &'t [TextToken<'a>]
        ensures { result.now ≡ self.now.tokens }
    {
        self.tokens
    }

    /// The entry with octets of its own.
    pub fn to_entry(&self, alloc: Global) -> Result<Entry, NoMemory>
        ensures { IfOk result (λ entry. entry ≡ self.now) }
    {
        let mut tokens = Vec::with_capacity(alloc, self.tokens.len())?;
        for token in self.tokens {
            tokens.push(token.to_token(alloc)?)?;
        }
        Ok(Entry {
            line: self.line,
            blank_start: self.blank_start,
            tokens: List::from_vec(tokens),
        })
    }
}
