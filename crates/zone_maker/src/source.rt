//! The files of a drill, as files that are read.

ghost use Rattle.std.specs.Prelude.{◌≡◌, ◌<◌, ◌≤◌, IfOk};
ghost use Rattle.zone_maker.specs.Drill.{drill};
ghost use Rattle.zone_maker.specs.Source.{no_failures, told_of};

use crate::files::make;
use dns_data::NoMemory;
use io_edges::{Failed, Files, MemoryFiles};
use std::alloc::Global;
use std::marker::Model;

/// The files of a drill, at which no call fails. A name that none of them has reads as an empty file.
#[derive(Drop)]
pub struct DrillFiles {
    files: MemoryFiles,
}

impl Model for DrillFiles {
    ghost use Rattle.io_edges.specs.MemoryFiles.{FilesInMemory, files_code};
    ghost use Rattle.zone_maker.specs.Source.{NoneListed};

    ghost Value = { FilesInMemory };

    ghost coded = { files_code };

    ghost view = { λ drill. drill.files };

    ghost invariant = { λ drill. NoneListed drill.files };
}

impl DrillFiles {
    /// The files of a drill of this many zones, 1 to 5,000, with the metadata under the name `meta.json`.
    pub fn make(alloc: Global, zones: u32) -> Result<DrillFiles, NoMemory>
        requires some { 1 ≤ zones }
        requires few { zones ≤ 5000 }
        ensures { IfOk result (λ files. files ≡ drill zones) }
    {
        let files = make(alloc, zones)?;
        Ok(DrillFiles { files })
    }
}

impl Files for DrillFiles {
    ghost told = { told_of };

    ghost faults = { no_failures };

    fn read(&mut self, name: &str, at: u64, into: &mut [u8]) -> Result<usize, Failed> {
        match self.files.read(name, at, into) {
            Ok(count) => Ok(count),
            Err(Failed) => Ok(0),
        }
    }
}
