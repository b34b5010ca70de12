//! Files by name, as a form in memory keeps them.

ghost use Rattle.std.specs.Prelude.{◌≡◌, is_some, OnOk, OnErr};
ghost use Rattle.std.specs.Option.{option_copied, option_map};
ghost use Rattle.std.specs.FinMap as map;
ghost use Rattle.io_edges.specs.MemoryFiles.{with_failure, with_octets};

use crate::counts::raise;
use dns_data::{NoMemory, Octets};
use std::alloc::Global;
use std::collections::BTreeMap;
use std::marker::Model;

/// A file: its octets, and how many calls failed at it.
#[derive(Drop)]
pub(crate) struct StoredFile {
    pub octets: Octets,
    pub failures: u64,
}

/// Files by name.
#[derive(Drop)]
pub(crate) struct NamedFiles {
    alloc: Global,
    files: BTreeMap<String, StoredFile>,
}

impl Model for NamedFiles {
    ghost use Rattle.io_edges.specs.MemoryFiles.{FileMap, file_map_code};
    ghost use Rattle.io_edges.specs.NamedFiles.{files_by_name};

    ghost Value = { FileMap };

    ghost coded = { file_map_code };

    ghost view = { λ all. files_by_name all.files.entries };
}

impl NamedFiles {
    ghost use Rattle.io_edges.specs.NamedFiles.{stored};

    /// No file.
    pub(crate) fn new(alloc: Global) -> NamedFiles
        ensures { result ≡ map.empty }
    {
        NamedFiles {
            alloc,
            files: BTreeMap::new(alloc),
        }
    }

    /// The file with this name, if there is one.
    pub(crate) fn get(&self, name: &str) -> Option<&StoredFile>
        ensures { option_map stored (option_copied result) ≡ map.get self.now name.now }
    {
        self.files.get(name)
    }

    /// Counts one failure more at the file with this name, and answers whether there is one.
    pub(crate) fn count_failure(&mut self, name: &str) -> bool
        ensures held { result ≡ is_some (map.get self.old name.now) }
        ensures counted { self.new ≡ with_failure self.old name.now }
    {
        match self.files.get_mut(name) {
            Some(file) => {
                file.failures = raise(file.failures);
                true
            }
            None => false,
        }
    }

    /// Puts a file under this name, in the place of the one that is there. After an error all
    /// files are as they were.
    pub(crate) fn put(&mut self, name: &str, octets: &[u8], failures: u64) -> Result<(), NoMemory>
        ensures ok { OnOk result (self.new ≡ with_octets self.old name.now octets.now failures) }
        ensures err { OnErr result (self.new ≡ self.old) }
    {
        let octets = Octets::from_octets(self.alloc, octets)?;
        self.place(name, octets, failures)
    }

    /// Puts a file of octets that it takes over under this name, in the place of the one that is there. After an error all
    /// files are as they were.
    pub(crate) fn place(
        &mut self,
        name: &str,
        octets: Octets,
        failures: u64,
    ) -> Result<(), NoMemory>
        ensures ok { OnOk result (self.new ≡ with_octets self.old name.now octets failures) }
        ensures err { OnErr result (self.new ≡ self.old) }
    {
        let name = String::from_str(self.alloc, name)?;
        self.files.insert(name, StoredFile { octets, failures })?;
        Ok(())
    }
}
