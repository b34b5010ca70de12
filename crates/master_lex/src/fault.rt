//! What may be wrong in the text of a master file.

ghost use Rattle.std.specs.Prelude.{◌≡◌};
ghost use Rattle.master_lex.specs.Kinds.{lex_code, lex_kind_number};
ghost use Rattle.master_lex.specs.declared.fault.TakeFault.TheVariants.{Lex, NoMemory as OutOfMemory};

use dns_data::NoMemory;
use thiserror::Error;

/// What is wrong in an entry (RFC 1035 section 5.1).
#[derive(Clone, Copy, Debug, PartialEq, Eq, Error)]
pub enum LexKind {
    /// The file ends inside parentheses.
    #[error("the file ends inside parentheses")]
    OpenParen,
    /// A line or the file ends inside quotes.
    #[error("a line ends inside quotes")]
    OpenQuote,
    /// A closing parenthesis has no opening one.
    #[error("a closing parenthesis has no opening one")]
    StrayClose,
    /// A `\` stands before a line feed, before the file's end, or before a digit that isn't the
    /// first of three digits of a value up to 255.
    #[error("a backslash stands before nothing that it can escape")]
    BadEscape,
    /// A token has more than 131,072 octets as written.
    #[error("a token has more than 131072 octets")]
    TokenTooLong,
}

impl LexKind {
    /// The number of the kind, from 1 to 5.
    pub fn number(&self) -> u8
        ensures { result ≡ lex_kind_number self.now }
    {
        match self {
            LexKind::OpenParen => 1,
            LexKind::OpenQuote => 2,
            LexKind::StrayClose => 3,
            LexKind::BadEscape => 4,
            LexKind::TokenTooLong => 5,
        }
    }

    /// The code of the kind, a word that is printed.
    pub fn code(&self) -> &'static str
        ensures { result.now ≡ lex_code self.now }
    {
        match self {
            LexKind::OpenParen => "open-paren",
            LexKind::OpenQuote => "open-quote",
            LexKind::StrayClose => "stray-close",
            LexKind::BadEscape => "bad-escape",
            LexKind::TokenTooLong => "token-too-long",
        }
    }
}

/// What is wrong in an entry, and the line at which it is reported.
#[derive(Clone, Copy, Debug, PartialEq, Eq)]
pub struct LexFault {
    /// The line, counted from 1.
    pub line: u32,
    /// What is wrong there.
    pub kind: LexKind,
}

/// Why no entry was taken.
#[derive(Clone, Copy, Debug, PartialEq, Eq, Error)]
pub enum TakeFault {
    /// The next entry has a fault.
    #[error("line {line}: {kind}")]
    Lex { line: u32, kind: LexKind },
    /// Memory ran out.
    #[error("no memory")]
    NoMemory,
}

impl From<NoMemory> for TakeFault {
    ghost from_gives = { λ _ fault. fault ≡ OutOfMemory };

    fn from(_fault: NoMemory) -> TakeFault {
        TakeFault::NoMemory
    }
}

impl From<LexFault> for TakeFault {
    ghost from_gives = { λ fault result. result ≡ Lex fault.line fault.kind };

    fn from(fault: LexFault) -> TakeFault {
        TakeFault::Lex {
            line: fault.line,
            kind: fault.kind,
        }
    }
}
