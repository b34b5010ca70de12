//! Why files give no configuration.

ghost use Rattle.std.specs.Prelude.{◌≡◌};
ghost use Rattle.config_load.specs.declared.fault.LoadFault.TheVariants as load_fault;
ghost use Rattle.config_load.specs.Faults.{IsReadOf, IsTooLongOf, of_metadata};

use dns_data::{NoMemory, Text};
use master_read::TextCause;
use meta_read::MetaFault;
use std::alloc::{AllocError, AllocFailed, Global};
use thiserror::Error;
use zone_rules::RuleCause;

/// Why files give no configuration. A file has the name under which it is opened.
#[derive(Debug, Drop, Error)]
pub enum LoadFault {
    /// A read of this file failed.
    #[error("a read failed")]
    Read {
        file: Text,
    },
    /// This file has more octets than the limits allow.
    #[error("a file is too long")]
    TooLong {
        file: Text,
    },
    /// The metadata don't read.
    #[error("the metadata don't read: {0}")]
    Meta(MetaFault),
    /// This zone file or included file doesn't read: the line of the entry at fault, or of the fault in its spelling,
    /// counted from 1, and why.
    #[error("a zone file doesn't read, in line {line}: {cause}")]
    Text {
        file: Text,
        line: u32,
        cause: TextCause,
    },
    /// The records of a zone file break a rule of zones: the file and the line of the record, counted from 1, or the
    /// zone file and 0 where it is no record's.
    #[error("a zone breaks a rule, in line {line}: {cause}")]
    Rule {
        file: Text,
        line: u32,
        cause: RuleCause,
    },
    /// The zone of this row, counted from 1, has the origin of an earlier row's zone on the same server.
    #[error("row {row}: the server has this zone already")]
    ZoneTwice {
        row: u32,
    },
    /// Memory ran out.
    #[error("no memory")]
    NoMemory,
}

impl LoadFault {
    /// A failed read of a file.
    pub(crate) fn read(alloc: Global, name: &str) -> LoadFault
        ensures { IsReadOf name.now result }
    {
        match Text::from_str(alloc, name) {
            Ok(file) => LoadFault::Read { file },
            Err(NoMemory) => LoadFault::NoMemory,
        }
    }

    /// A file that is too long.
    pub(crate) fn too_long(alloc: Global, name: &str) -> LoadFault
        ensures { IsTooLongOf name.now result }
    {
        match Text::from_str(alloc, name) {
            Ok(file) => LoadFault::TooLong { file },
            Err(NoMemory) => LoadFault::NoMemory,
        }
    }
}

impl From<MetaFault> for LoadFault {
    ghost from_gives = { λ fault told. told ≡ of_metadata fault };

    fn from(fault: MetaFault) -> LoadFault {
        match fault {
            MetaFault::NoMemory => LoadFault::NoMemory,
            fault => LoadFault::Meta(fault),
        }
    }
}

impl From<NoMemory> for LoadFault {
    ghost from_gives = { λ _ fault. fault ≡ load_fault.NoMemory };

    fn from(_fault: NoMemory) -> LoadFault {
        LoadFault::NoMemory
    }
}

impl From<AllocError> for LoadFault {
    ghost from_gives = { λ _ fault. fault ≡ load_fault.NoMemory };

    fn from(_fault: AllocError) -> LoadFault {
        LoadFault::NoMemory
    }
}

impl<T: Drop> From<AllocFailed<T>> for LoadFault {
    ghost from_gives = { λ _ fault. fault ≡ load_fault.NoMemory };

    fn from(_fault: AllocFailed<T>) -> LoadFault {
        LoadFault::NoMemory
    }
}
