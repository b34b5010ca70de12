//! What a refusal prints.

ghost use Rattle.std.specs.Prelude.{◌≡◌};
ghost use Rattle.config_load.specs.Refusal.{file_of, line_told, code_of, row_of};

use crate::fault::LoadFault;
use meta_read::MetaFault;

impl LoadFault {
    /// The name of the file in which the fault stands: that of the metadata, which is given, where it is in no other.
    pub fn file<'a>(&'a self, meta: &'a str) -> &'a str
        ensures { result.now ≡ file_of meta.now self.now }
    {
        match self {
            LoadFault::Read { file } => file.as_str(),
            LoadFault::TooLong { file } => file.as_str(),
            LoadFault::Text { file, .. } => file.as_str(),
            LoadFault::Rule { file, .. } => file.as_str(),
            LoadFault::Meta(_) | LoadFault::ZoneTwice { .. } | LoadFault::NoMemory => meta,
        }
    }

    /// The line in a zone file, or the number of the metadata's row, both counted from 1, or 0 where the fault is in
    /// none.
    pub fn line(&self) -> u32
        ensures { result ≡ line_told self.now }
    {
        match self {
            LoadFault::Meta(fault) => row_of(fault),
            LoadFault::Text { line, .. } => *line,
            LoadFault::Rule { line, .. } => *line,
            LoadFault::ZoneTwice { row } => *row,
            LoadFault::Read { .. } | LoadFault::TooLong { .. } | LoadFault::NoMemory => 0,
        }
    }

    /// The code of the fault, a word that is printed.
    pub fn code(&self) -> &'static str
        ensures { result.now ≡ code_of self.now }
    {
        match self {
            LoadFault::Read { .. } => "read-failed",
            LoadFault::TooLong { .. } => "too-long",
            LoadFault::Meta(fault) => fault.code(),
            LoadFault::Text { cause, .. } => cause.code(),
            LoadFault::Rule { cause, .. } => cause.code(),
            LoadFault::ZoneTwice { .. } => "zone-twice",
            LoadFault::NoMemory => "no-memory",
        }
    }
}

/// The number of the row in which a fault of the metadata stands, or 0.
fn row_of(fault: &MetaFault) -> u32
    ensures { result ≡ row_of fault.now }
{
    match fault {
        MetaFault::Shape { row } => *row,
        MetaFault::BadName { row } => *row,
        _ => 0,
    }
}
