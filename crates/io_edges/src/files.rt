//! Files that are read in pieces.

ghost use Rattle.std.specs.Prelude.{◌≡◌, ℕ, ◌<◌, ◌≤◌, List, length, OnErr, IfOk};
ghost use Rattle.io_edges.specs.Counts.{NoneFell, Rose};
ghost use Rattle.io_edges.specs.Files.{Told, IsToldAnd, StaysTold, SameElsewhere, IsPieceFrom};

use crate::failed::Failed;

/// A source of files, each under a name.
pub trait Files {
    /// What is told of each name. What is told stays told.
    ghost told: { Self → List ℕ → Told };

    /// How many calls failed at a name, for every name. The count never falls, and stands still at
    /// 2^64 - 1.
    ghost faults: { Self → List ℕ → ℕ };

    /// Reads the file of this name from the octet `at` on, counted from 0, into a front of `into`,
    /// and answers how many octets it read. From then on the file's octets are told. Zero, where
    /// `into` isn't empty, is the file's end. What stands in `into` behind that front, or after a
    /// failure, is left open.
    fn read(&mut self, name: &str, at: u64, into: &mut [u8]) -> Result<usize, Failed>
        // What is read, of the octets that are told after the call.
        ensures fits { IfOk result (λ count. count ≤ length into.new) }
        ensures front { IfOk result (λ count.
            IsToldAnd (told self.new name.now) (λ octets. IsPieceFrom octets at count into.new)) }
        ensures end { IfOk result (λ count. count ≡ 0 → 0 < length into.new →
            IsToldAnd (told self.new name.now) (λ octets. length octets ≤ at)) }

        // When it fails.
        ensures cause { OnErr result (Rose (faults self.old name.now) (faults self.new name.now)) }

        // What a call does to the source.
        ensures stays { StaysTold (told self.old) (told self.new) }
        ensures others { SameElsewhere name.now (told self.old) (told self.new) }
        ensures never_fall { NoneFell (faults self.old) (faults self.new) };

    /// Lets go of the octets that it holds, where it holds them for later readings: its reader is done, and a reading after
    /// it may fail. What was told stays told.
    fn let_go_of_all(&mut self)
        ensures told { told self.new ≡ told self.old }
        ensures faults { faults self.new ≡ faults self.old }
    {}
}
