//! Files on a disk.

ghost use Rattle.std.specs.Prelude.{◌≡◌, ◌<◌};
ghost use Rattle.std.specs.FinMap as map;
ghost use Rattle.io_edges.specs.Files.{StaysTold, SameElsewhere};
ghost use Rattle.io_edges.specs.DiskFiles.{told_of_read, told_by_disk};

use crate::counts::raise;
use crate::failed::Failed;
use crate::files::Files;
use crate::fill::fill;
use crate::named_files::NamedFiles;
use dns_data::Octets;
use std::marker::Model;
use std::snapshot::Snapshot;
use std::{fs, rt};

/// The files of a disk, each under its path. A file is read whole at the first reading of its name,
/// whatever its size, and its octets are kept: from then on they are told, and every reading of the
/// name gives them, whatever becomes of the file on the disk. Once all octets are let go of, every
/// reading fails. Every error of the disk, and want of memory on the way, raises one count, which is
/// that of all names.
#[derive(Drop)]
pub struct DiskFiles<'a, R: rt::Files + AllocGlobal> {
    rt: &'a R,
    files: NamedFiles,
    // The files that were told when their octets were let go of. It takes no memory.
    let_go: Option<Snapshot<NamedFiles>>,
    failures: u64,
}

impl<'a, R: rt::Files + AllocGlobal> Model for DiskFiles<'a, R> {
    ghost use Rattle.std.specs.Option.{option_map};
    ghost use Rattle.io_edges.specs.DiskFiles.{FilesOnDisk, disk_code, files_read};

    ghost Value = { FilesOnDisk };

    ghost coded = { disk_code };

    ghost view = { λ d. record {
      files = files_read d.files (option_map (λ told. told.value) d.let_go);
      failures = d.failures;
    } };
}

impl<'a, R: rt::Files + AllocGlobal> DiskFiles<'a, R> {
    /// The files of the disk that the runtime reaches. None was read, and no call failed.
    pub fn new(rt: &'a R) -> DiskFiles<'a, R>
        ensures { result ≡ record { files = map.empty; failures = 0 } }
    {
        DiskFiles {
            rt,
            files: NamedFiles::new(rt.alloc()),
            let_go: None,
            failures: 0,
        }
    }
}

/// Sees that the file of this name is kept.
fn keep<R: rt::Files + AllocGlobal>(
    rt: &R,
    files: &mut NamedFiles,
    name: &str,
) -> Result<(), Failed>
    ensures stays { StaysTold (told_of_read files.old) (told_of_read files.new) }
    ensures others { SameElsewhere name.now (told_of_read files.old) (told_of_read files.new) }
{
    if files.get(name).is_some() {
        return Ok(());
    }
    let Ok(octets) = fs::read(rt, name) else {
        return Err(Failed);
    };
    match files.place(name, Octets::from_vec(octets), 0) {
        Ok(()) => Ok(()),
        Err(_) => Err(Failed),
    }
}

impl<R: rt::Files + AllocGlobal> Files for DiskFiles<'_, R> {
    ghost told = { told_by_disk };

    ghost faults = { λ d _. d.failures };

    fn read(&mut self, name: &str, at: u64, into: &mut [u8]) -> Result<usize, Failed> {
        if self.let_go.is_some() {
            self.failures = raise(self.failures);
            return Err(Failed);
        }
        let kept = keep(self.rt, &mut self.files, name);
        match self.files.get(name) {
            Some(file) if kept.is_ok() => Ok(fill(file.octets.items(), at, into)),
            _ => {
                self.failures = raise(self.failures);
                Err(Failed)
            }
        }
    }

    fn let_go_of_all(&mut self) {
        if self.let_go.is_none() {
            self.let_go = Some(Snapshot::of(&self.files));
            self.files = NamedFiles::new(self.rt.alloc());
        }
    }
}
