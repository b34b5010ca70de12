//! Why reports of parts aren't read.

ghost use Rattle.std.specs.Prelude.{◌≡◌};
ghost use Rattle.config_load.specs.declared.fault.LoadFault.TheVariants as load_fault;
ghost use Rattle.parts_run.specs.declared.fault.ReadFault.TheVariants.{Load};

use config_load::LoadFault;
use dns_data::{NoMemory, Text};

/// Why reports of parts aren't read.
#[derive(Debug, Drop)]
pub(crate) enum ReadFault {
    /// This file isn't the report of a part.
    NotReport(Text),
    /// A file isn't read, or memory ran out.
    Load(LoadFault),
}

impl From<LoadFault> for ReadFault {
    ghost from_gives = { λ fault told. told ≡ Load fault };

    fn from(fault: LoadFault) -> ReadFault {
        ReadFault::Load(fault)
    }
}

impl From<NoMemory> for ReadFault {
    ghost from_gives = { λ _ told. told ≡ Load load_fault.NoMemory };

    fn from(_fault: NoMemory) -> ReadFault {
        ReadFault::Load(LoadFault::NoMemory)
    }
}
