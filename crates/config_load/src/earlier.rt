//! Rows whose zones were read, for the later rows that name the same files.

ghost use Rattle.std.specs.Prelude.{◌≡◌, ◌≤◌, ℕ, Bool, List, true, IfOk, IfSome, OnOk, Some, slice_get};
ghost use Rattle.dns_data.specs.Name.{Labels};
ghost use Rattle.io_edges.specs.Files.{FilesTold};
ghost use Rattle.net_model.specs.Configured.{KeepsWithin};
ghost use Rattle.config_load.specs.Conf.{row_skips};
ghost use Rattle.config_load.specs.Earlier.{AreEarlier, HasPutAtMost, IsAlike, IsZoneNamed, WasRead};
ghost use Rattle.config_load.specs.Left.{IsReadLeft, rows_left};

use crate::limits::Limits;
use crate::loaded::RowFiles;
use crate::rows::ReadRows;
use crate::zone::{ReadZone, copied_zone};
use crate::zone_files::copied_names;
use dns_data::NoMemory;
use meta_read::MetaRow;
use net_model::Zone;
use std::alloc::Global;
use std::collections::BTreeMap;
use std::hash::{FoldHasher, Hasher};

/// A row whose zone was read: its place among the rows, the place of its zone among those of its server, and how many
/// record entries and included files were read for it.
#[derive(Clone, Copy, Debug)]
pub(crate) struct EarlierRow {
    pub row: usize,
    pub zone: usize,
    pub records: u32,
    pub includes: u32,
}

/// Rows whose zones were read, by numbers that rows of one file and one origin share. Where several share a number, the
/// last of them is known.
#[derive(Drop)]
pub(crate) struct EarlierRows {
    by_number: BTreeMap<u64, EarlierRow>,
}

impl EarlierRows {
    /// No row was read.
    pub(crate) fn new(alloc: Global) -> EarlierRows
        ensures { (skips : MetaRow → Bool) (meta : List ℕ) (told : FilesTold) (all : List MetaRow) (rows : ReadRows) → AreEarlier skips meta told all rows result }
    {
        EarlierRows {
            by_number: BTreeMap::new(alloc),
        }
    }

    /// What reading the zone of a row gives, taken over from an earlier row of the same file and origin: `None` where the
    /// row is skipped, where no such row is known, or where less may still be read than was read for it.
    pub(crate) fn zone_again(
        &self,
        alloc: Global,
        skipped: bool,
        all: &[MetaRow],
        row: &MetaRow,
        rows: &ReadRows,
    ) -> Result<Option<ReadZone>, NoMemory>
        ensures reads { (skips : Labels → Bool) (meta : List ℕ) (told : FilesTold) (left : Zone → Zone) → ((zone : Zone) → (left zone).origin ≡ zone.origin)
            → (whole : ReadRows) → rows.now ≡ rows_left left whole → AreEarlier (row_skips skips) meta told all.now whole self.now
            → IfOk result (λ again. IfSome again (IsReadLeft (row_skips skips) meta told row.now left whole)) }
        ensures within { IfOk result (λ again. IfSome again (λ read. KeepsWithin read.zone)) }
    {
        if skipped {
            return Ok(None);
        }
        match self.by_number.get(&row_number(row)).copied() {
            Some(earlier) => earlier.zone_again(alloc, all, row, rows),
            None => Ok(None),
        }
    }

    /// Puts the row at this place in, whose zone was read with so much left before, and with it the last of the rows;
    /// none where it is skipped, for which no file was read.
    pub(crate) fn put(
        &mut self,
        skipped: bool,
        place: usize,
        row: &MetaRow,
        left: Limits,
        rows: &ReadRows,
    ) -> Result<(), NoMemory>
        ensures { OnOk result (HasPutAtMost place left rows.now.left self.old self.new) }
    {
        if skipped {
            return Ok(());
        }
        let earlier = EarlierRow {
            row: place,
            zone: rows.servers.last_zone(&row.server),
            records: left.records.saturating_sub(rows.left.records),
            includes: left.includes.saturating_sub(rows.left.includes),
        };
        self.by_number.insert(row_number(row), earlier)?;
        Ok(())
    }
}

impl EarlierRow {
    /// What reading the zone of a row gives, where this one has its file and origin, and as much may still be read as was
    /// read for this one.
    fn zone_again(
        self,
        alloc: Global,
        all: &[MetaRow],
        row: &MetaRow,
        rows: &ReadRows,
    ) -> Result<Option<ReadZone>, NoMemory>
        ensures reads { (skips : Labels → Bool) (meta : List ℕ) (told : FilesTold) (left : Zone → Zone) → ((zone : Zone) → (left zone).origin ≡ zone.origin)
            → (whole : ReadRows) → rows.now ≡ rows_left left whole
            → ((earlier : MetaRow) → slice_get all.now self.row ≡ Some earlier → WasRead (row_skips skips) meta told earlier whole self)
            → IfOk result (λ again. IfSome again (IsReadLeft (row_skips skips) meta told row.now left whole)) }
        ensures within { IfOk result (λ again. IfSome again (λ read. KeepsWithin read.zone)) }
    {
        if !self.is_alike(all, row) || !self.has_room(rows.left) {
            return Ok(None);
        }
        match rows.rows.items().get(self.row) {
            Some(named) => self.zone_named(alloc, named, rows),
            None => Ok(None),
        }
    }

    /// Whether this row has the file and the origin of another.
    fn is_alike(self, all: &[MetaRow], row: &MetaRow) -> bool
        ensures { result ≡ true → IsAlike all.now self.row row.now }
    {
        match all.get(self.row) {
            Some(earlier) => {
                earlier.file.as_str() == row.file.as_str() && earlier.origin == row.origin
            }
            None => false,
        }
    }

    /// Whether as much may still be read as was read for this row.
    fn has_room(self, left: Limits) -> bool
        ensures { result ≡ true → (self.records ≤ left.records) × (self.includes ≤ left.includes) }
    {
        self.records <= left.records && self.includes <= left.includes
    }

    /// The zone of this row and the names of its files, with what they leave to others.
    fn zone_named(
        self,
        alloc: Global,
        named: &RowFiles,
        rows: &ReadRows,
    ) -> Result<Option<ReadZone>, NoMemory>
        ensures is { IfOk result (λ again. IfSome again (IsZoneNamed self named.now rows.now)) }
        ensures within { IfOk result (λ again. IfSome again (λ read. KeepsWithin read.zone)) }
    {
        match rows.servers.zone(&named.server, &named.origin, self.zone) {
            Some(zone) => {
                let zone = copied_zone(alloc, zone)?;
                let names = copied_names(alloc, named.files.items())?;
                let left = rows.left.behind(self.records, self.includes);
                Ok(Some(ReadZone { zone, names, left }))
            }
            None => Ok(None),
        }
    }
}

/// A number that rows of one file and one origin share.
fn row_number(row: &MetaRow) -> u64 {
    let mut hasher = FoldHasher::default();
    hasher.write(row.file.as_str().as_bytes());
    if let Some(origin) = &row.origin {
        hasher.write(origin.encoding());
    }
    hasher.finish()
}
