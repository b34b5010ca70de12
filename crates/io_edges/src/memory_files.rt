//! Files in memory.

ghost use Rattle.std.specs.Prelude.{◌≡◌, ◌↔◌, ℕ, ◌-◌, ◌<◌, ◌≤◌, List, length, drop, min, IsTrue, IsErr, OnOk, OnErr, IfOk};
ghost use Rattle.io_edges.specs.Counts.{NoneFell, Rose};
ghost use Rattle.io_edges.specs.Files.{IsToldAnd, StaysTold, SameElsewhere, IsPieceFrom};
ghost use Rattle.io_edges.specs.MemoryFiles.{told_by, failures_of, next_fails, after_failure, after_call, no_files, with_file};

use crate::calls::Calls;
use crate::counts::raise;
use crate::failed::Failed;
use crate::files::Files;
use crate::fill::fill;
use crate::named_files::NamedFiles;
use dns_data::{List, NoMemory};
use std::alloc::Global;
use std::marker::Model;

/// Files in memory, which tell their bytes. A call fails where its number is listed or the name
/// isn't held, and nowhere else.
#[derive(Drop)]
pub struct MemoryFiles {
    files: NamedFiles,
    absent: u64,
    calls: Calls,
}

impl Model for MemoryFiles {
    ghost use Rattle.io_edges.specs.MemoryFiles.{FilesInMemory, files_code};

    ghost Value = { FilesInMemory };

    ghost coded = { files_code };

    ghost view = { λ m. record {
      files = m.files;
      absent = m.absent;
      fails = m.calls.fails;
      calls = m.calls.made;
    } };
}

impl MemoryFiles {
    /// No file. The calls of `read` with these numbers fail, the first call being 1. It takes no
    /// memory.
    pub fn new(alloc: Global, fails: List<u32>) -> MemoryFiles
        ensures { result ≡ no_files fails }
    {
        MemoryFiles {
            files: NamedFiles::new(alloc),
            absent: 0,
            calls: Calls::new(fails),
        }
    }

    /// Adds a file, or replaces the one that has its name. Each name keeps its count of failures:
    /// one that wasn't held takes along the count of the absent names. After an error all is as
    /// it was.
    pub fn add(&mut self, name: &str, bytes: &[u8]) -> Result<(), NoMemory>
        ensures ok { OnOk result (self.new ≡ with_file self.old name.now bytes.now) }
        ensures err { OnErr result (self.new ≡ self.old) }
        ensures counts { (other : List ℕ) → failures_of self.new other ≡ failures_of self.old other }
    {
        let failures = match self.files.get(name) {
            Some(file) => file.failures,
            None => self.absent,
        };
        self.files.put(name, bytes, failures)
    }

    /// Counts one failure more at the name.
    fn count_failure(&mut self, name: &str)
        ensures after { self.new ≡ after_failure self.old name.now }
        ensures cause { Rose (failures_of self.old name.now) (failures_of self.new name.now) }
        ensures same_told { told_by self.new ≡ told_by self.old }
        ensures never_fall { NoneFell (failures_of self.old) (failures_of self.new) }
    {
        if !self.files.count_failure(name) {
            self.absent = raise(self.absent);
        }
    }
}

impl Files for MemoryFiles {
    ghost told = { told_by };

    ghost faults = { failures_of };

    fn read(&mut self, name: &str, at: u64, into: &mut [u8]) -> Result<usize, Failed>
        ensures fits { IfOk result (λ count. count ≤ length into.new) }
        ensures front { IfOk result (λ count.
            IsToldAnd (told_by self.new name.now) (λ octets. IsPieceFrom octets at count into.new)) }
        ensures end { IfOk result (λ count. count ≡ 0 → 0 < length into.new →
            IsToldAnd (told_by self.new name.now) (λ octets. length octets ≤ at)) }
        ensures cause { OnErr result (Rose (failures_of self.old name.now) (failures_of self.new name.now)) }
        ensures stays { StaysTold (told_by self.old) (told_by self.new) }
        ensures others { SameElsewhere name.now (told_by self.old) (told_by self.new) }
        ensures never_fall { NoneFell (failures_of self.old) (failures_of self.new) }

        // It tells no more than before, exactly when it fails, how much it reads, and what it leaves.
        ensures same_told { told_by self.new ≡ told_by self.old }
        ensures fails { IsErr result ↔ IsTrue (next_fails self.old name.now) }
        ensures whole { IfOk result (λ count. IsToldAnd (told_by self.old name.now) (λ octets.
            count ≡ min (length into.new) (length octets - at))) }
        ensures rest { IfOk result (λ count. drop count into.new ≡ drop count into.old) }
        ensures after { self.new ≡ after_call self.old name.now }
    {
        let listed = self.calls.count();
        match self.files.get(name) {
            Some(file) if !listed => Ok(fill(file.octets.items(), at, into)),
            _ => {
                self.count_failure(name);
                Err(Failed)
            }
        }
    }
}
