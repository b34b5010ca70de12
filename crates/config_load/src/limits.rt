//! How large what is read may be.

ghost use Rattle.std.specs.Prelude.{◌≡◌, ◌≤◌, ◌-◌};
ghost use Rattle.config_load.specs.Limits.{largest_limits, largest_octets, most_octets, usual_limits};

use meta_read::USUAL_ROWS;

/// The most octets that a file may have, whatever the limits say. The octets of a file are counted in 32 bits.
const LARGEST_OCTETS: u32 = 4_294_950_912;

/// How large the files of a configuration may be. Where some of them were read, it is what they left to the others.
#[derive(Clone, Copy, Debug)]
pub struct Limits {
    /// How many octets a file may have. No file may have more than 4,294,950,912.
    pub octets: u32,
    /// How many record entries the zone files may have in all.
    pub records: u32,
    /// How many files may be included in all.
    pub includes: u32,
    /// How many rows the metadata may have.
    pub rows: u32,
}

impl Limits {
    /// The limits where nothing else is said: 16,777,216 octets a file, 1,000,000 record entries, 1,000 included files
    /// and 10,000 rows.
    pub fn usual() -> Limits
        ensures { result ≡ usual_limits }
    {
        Limits {
            octets: 16_777_216,
            records: 1_000_000,
            includes: 1_000,
            rows: USUAL_ROWS,
        }
    }

    /// The largest limits: 4,294,950,912 octets a file, 4,000,000,000 record entries, 1,000,000 included files, and as
    /// many rows as a file may have.
    pub fn largest() -> Limits
        ensures { result ≡ largest_limits }
    {
        Limits {
            octets: LARGEST_OCTETS,
            records: 4_000_000_000,
            includes: 1_000_000,
            rows: u32::MAX,
        }
    }

    /// How many octets a file may have.
    pub(crate) fn most_octets(self) -> usize
        ensures is { result ≡ most_octets self }
        ensures most { result ≤ largest_octets }
    {
        self.octets.min(LARGEST_OCTETS) as usize
    }

    /// What a zone leaves with this many record entries and included files.
    pub(crate) fn behind(self, seen: u32, included: u32) -> Limits
        ensures { result ≡ record self { records = self.records - seen; includes = self.includes - included } }
    {
        Limits {
            records: self.records.saturating_sub(seen),
            includes: self.includes.saturating_sub(included),
            ..self
        }
    }
}
