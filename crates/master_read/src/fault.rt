//! Why texts give no records.

ghost use Rattle.std.specs.Prelude.{◌≡◌};
ghost use Rattle.master_read.specs.Codes.{text_code};
ghost use Rattle.master_read.specs.declared.fault.EntryFault.TheVariants as entry_fault;
ghost use Rattle.master_read.specs.declared.fault.TextCause.TheVariants as cause;
ghost use Rattle.master_read.specs.declared.fault.TextFault.TheVariants as text_fault;
ghost use Rattle.master_read.specs.Steps.{fault_at};

use dns_data::{NameFault, NoMemory};
use master_lex::{LexFault, LexKind};
use rdata_forms::RdataFault;
use thiserror::Error;

/// What is wrong in a master file.
#[derive(Clone, Copy, Debug, PartialEq, Eq, Error)]
pub enum TextCause {
    /// What is wrong lies in the spelling of an entry (RFC 1035 section 5.1).
    #[error("{0}")]
    Lex(LexKind),
    /// A directive is none that is read, or its argument isn't one that it takes.
    #[error("the directive doesn't read")]
    BadDirective,
    /// The directive is `$GENERATE`.
    #[error("the directive isn't supported")]
    NotSupported,
    /// The owner is no name.
    #[error("the owner is no name: {0}")]
    BadOwner(NameFault),
    /// The line begins with a space or a tab, and no record stands before it.
    #[error("no owner stands here or before")]
    NoOwner,
    /// No type follows the owner, the TTL and the class.
    #[error("no type stands here")]
    NoType,
    /// The word where a type stands is the word of none.
    #[error("the type isn't known")]
    UnknownType,
    /// The class is another than IN.
    #[error("the class isn't IN")]
    NotIn,
    /// The TTL is no time.
    #[error("the TTL is no time")]
    BadTtl,
    /// The data are none of the type.
    #[error("the data don't read: {0}")]
    Rdata(RdataFault),
    /// Neither the record nor what stands before it says a TTL.
    #[error("no TTL stands here or before")]
    NoTtl,
    /// There are more records than there is room for.
    #[error("too many records")]
    TooMany,
    /// The file is included eight levels deep, and no deeper one is read.
    #[error("too many levels of included files")]
    IncludeDepth,
    /// More files are included than may be.
    #[error("too many included files")]
    TooManyIncludes,
}

/// Why texts give no records.
#[derive(Clone, Copy, Debug, PartialEq, Eq, Error)]
pub enum TextFault {
    /// An entry doesn't read.
    #[error("file {file}, line {line}: {cause}")]
    At {
        /// How many files were opened before the one in which it stands.
        file: u32,
        /// The line of the entry, or of the fault in its spelling, counted from 1.
        line: u32,
        /// What is wrong there.
        cause: TextCause,
    },
    /// Memory ran out.
    #[error("no memory")]
    NoMemory,
}

/// Why an entry wasn't read.
#[derive(Clone, Copy, Debug, PartialEq, Eq)]
pub(crate) enum EntryFault {
    /// This is wrong in it.
    Cause(TextCause),
    /// Memory ran out.
    NoMemory,
}

impl TextCause {
    /// The code of the cause, a word that is printed.
    pub fn code(&self) -> &'static str
        ensures { result.now ≡ text_code self.now }
    {
        match self {
            TextCause::Lex(kind) => kind.code(),
            TextCause::BadDirective => "bad-directive",
            TextCause::NotSupported => "not-supported",
            TextCause::BadOwner(_) => "bad-owner",
            TextCause::NoOwner => "no-owner",
            TextCause::NoType => "no-type",
            TextCause::UnknownType => "unknown-type",
            TextCause::NotIn => "not-in",
            TextCause::BadTtl => "bad-ttl",
            TextCause::Rdata(fault) => fault.code(),
            TextCause::NoTtl => "no-ttl",
            TextCause::TooMany => "too-many-records",
            TextCause::IncludeDepth => "include-depth",
            TextCause::TooManyIncludes => "too-many-includes",
        }
    }
}

impl EntryFault {
    /// The fault, in the file of this number and this line.
    pub(crate) fn at(self, file: u32, line: u32) -> TextFault
        ensures { result ≡ fault_at file line self }
    {
        match self {
            EntryFault::Cause(cause) => TextFault::At { file, line, cause },
            EntryFault::NoMemory => TextFault::NoMemory,
        }
    }
}

impl TextFault {
    /// A fault of a spelling, in the file of this number.
    pub(crate) fn of_spelling(file: u32, fault: LexFault) -> TextFault
        ensures { result ≡ text_fault.At file fault.line (cause.Lex fault.kind) }
    {
        TextFault::At {
            file,
            line: fault.line,
            cause: TextCause::Lex(fault.kind),
        }
    }
}

impl From<NoMemory> for TextFault {
    ghost from_gives = { λ _ fault. fault ≡ text_fault.NoMemory };

    fn from(_fault: NoMemory) -> TextFault {
        TextFault::NoMemory
    }
}

impl From<NoMemory> for EntryFault {
    ghost from_gives = { λ _ fault. fault ≡ entry_fault.NoMemory };

    fn from(_fault: NoMemory) -> EntryFault {
        EntryFault::NoMemory
    }
}

impl From<TextCause> for EntryFault {
    ghost from_gives = { λ cause fault. fault ≡ entry_fault.Cause cause };

    fn from(cause: TextCause) -> EntryFault {
        EntryFault::Cause(cause)
    }
}
