//! Rows of the metadata.

ghost use Rattle.std.specs.Prelude.{◌≡◌, ◌≤◌, List, [], ◌∷◌, ◌++◌, length, IfOk, IfSome, OnOk};
ghost use Rattle.dns_data.specs.Answers.{AnswersOr};
ghost use Rattle.net_model.specs.Configured.{KeepsWithin};
ghost use Rattle.config_load.specs.Conf.{no_rows, row_skips, with_rows_unless, zone_skipped, zone_unless};
ghost use Rattle.config_load.specs.Left.{HasLeft, IsReadLeft, read_left, rows_left, zones_in};
ghost use Rattle.config_load.specs.RowRead.{row_read};
ghost use Rattle.config_load.specs.Sources.{HasAnswered};
ghost use Rattle.config_load.specs.Taken.{AreTaken};

use crate::earlier::EarlierRows;
use crate::fault::LoadFault;
use crate::limits::Limits;
use crate::loaded::RowFiles;
use crate::servers::Servers;
use crate::taker::ZoneTaker;
use crate::zone::{ReadZone, read_zone};
use dns_data::{List, Name, NoMemory};
use io_edges::Files;
use meta_read::MetaRow;
use net_model::Zone;
use std::alloc::Global;

/// The rows so far, their servers, and what reading these left.
#[derive(Drop)]
pub(crate) struct ReadRows {
    /// What they left.
    pub left: Limits,
    /// The servers in the order of their first rows, each with its zones in the order of rows.
    pub servers: Servers,
    /// The rows, in order.
    pub rows: List<RowFiles>,
}

/// What is left of what all rows give, in order: the taker takes each zone, that of a row which it passes over without
/// records.
pub(crate) fn read_rows<F: Files, T: ZoneTaker>(
    alloc: Global,
    limits: Limits,
    files: &mut F,
    meta: &str,
    all: &[MetaRow],
    taker: &mut T,
) -> Result<ReadRows, LoadFault>
    requires few { length all.now ≤ limits.rows }
    requires none { T.took taker.old taker.old [] }
    ensures { HasLeft (F.told files.old) (F.told files.new) (F.faults files.old) (F.faults files.new) (with_rows_unless (row_skips (T.skips taker.old)) meta.now 1 all.now (no_rows limits))
        (rows_left (T.left_of taker.old)) (λ rows. AreTaken (T.took taker.old taker.new) (zones_in rows.servers)) result }
{
    let mut rows = ReadRows {
        left: limits,
        servers: Servers::new(alloc),
        rows: List::new(alloc),
    };
    let mut earlier = EarlierRows::new(alloc);
    for (i, row) in all.iter().enumerate() {
        let skipped = is_skipped(row, taker);
        let again = earlier.zone_again(alloc, skipped, all, row, &rows)?;
        let left = rows.left;
        let read = read_row(alloc, files, meta, row, left, again, taker)?;
        rows = with_read(alloc, i as u32 + 1, &row.server, read, rows)?;
        earlier.put(skipped, i, row, left, &rows)?;
    }
    Ok(rows)
}

/// What is left of the zone of a row, with the names of its files and what reading these leaves. What reading its zone
/// gives is known where an earlier row has the same file and origin.
fn read_row<F: Files, T: ZoneTaker>(
    alloc: Global,
    files: &mut F,
    meta: &str,
    row: &MetaRow,
    left: Limits,
    again: Option<ReadZone>,
    taker: &mut T,
) -> Result<ReadZone, LoadFault>
    requires { IfSome again (λ read. KeepsWithin read.zone) }
    ensures reads { (first : T) (whole : ReadRows) → whole.left ≡ left → IfSome again (IsReadLeft (row_skips (T.skips taker.old)) meta.now (F.told files.old) row.now (T.left_of taker.old) whole)
        → AreTaken (T.took first taker.old) (zones_in whole.servers)
        → HasLeft (F.told files.old) (F.told files.new) (F.faults files.old) (F.faults files.new) (zone_unless (row_skips (T.skips taker.old)) meta.now row.now left)
        (read_left (T.left_of taker.old)) (λ read. AreTaken (T.took first taker.new) (zones_in whole.servers ++ read.zone ∷ [])) result }
    ensures same { OnOk result (T.left_of taker.new ≡ T.left_of taker.old) }
    ensures same_skips { OnOk result (T.skips taker.new ≡ T.skips taker.old) }
    ensures within { IfOk result (λ read. KeepsWithin read.zone) }
{
    match again {
        Some(read) => Ok(read),
        None => read_new_row(alloc, files, meta, row, left, taker),
    }
}

/// What is left of the zone of a row whose files are read, unless it is skipped.
fn read_new_row<F: Files, T: ZoneTaker>(
    alloc: Global,
    files: &mut F,
    meta: &str,
    row: &MetaRow,
    left: Limits,
    taker: &mut T,
) -> Result<ReadZone, LoadFault>
    ensures reads { (first : T) (zones : List Zone) → AreTaken (T.took first taker.old) zones
        → HasLeft (F.told files.old) (F.told files.new) (F.faults files.old) (F.faults files.new) (zone_unless (row_skips (T.skips taker.old)) meta.now row.now left)
        (read_left (T.left_of taker.old)) (λ read. AreTaken (T.took first taker.new) (zones ++ read.zone ∷ [])) result }
    ensures same { OnOk result (T.left_of taker.new ≡ T.left_of taker.old) }
    ensures same_skips { OnOk result (T.skips taker.new ≡ T.skips taker.old) }
    ensures within { IfOk result (λ read. KeepsWithin read.zone) }
{
    let read = zone_of_row(alloc, files, meta, row, left, taker)?;
    let kept = taken(alloc, read, taker)?;
    Ok(kept)
}

/// The zone of a row, by the rules of zones; without records where the row is skipped.
fn zone_of_row<F: Files, T: ZoneTaker>(
    alloc: Global,
    files: &mut F,
    meta: &str,
    row: &MetaRow,
    left: Limits,
    taker: &T,
) -> Result<ReadZone, LoadFault>
    ensures reads { HasAnswered (F.told files.old) (F.told files.new) (F.faults files.old) (F.faults files.new)
        (zone_unless (row_skips (T.skips taker.now)) meta.now row.now left) result }
    ensures within { IfOk result (λ read. KeepsWithin read.zone) }
{
    if is_skipped(row, taker) {
        Ok(skipped_zone(alloc, row, left)?)
    } else {
        read_zone(alloc, files, meta, row, left)
    }
}

/// Whether the row gives an origin, and is skipped.
fn is_skipped<T: ZoneTaker>(row: &MetaRow, taker: &T) -> bool
    ensures { result ≡ row_skips (T.skips taker.now) row.now }
{
    match &row.origin {
        Some(origin) => taker.passes_over(origin),
        None => false,
    }
}

/// The zone of a row that is skipped: it has no records.
fn skipped_zone(alloc: Global, row: &MetaRow, left: Limits) -> Result<ReadZone, NoMemory>
    ensures { IfOk result (λ read. read ≡ zone_skipped row.now left) }
{
    let origin = match &row.origin {
        Some(origin) => origin.copy(alloc)?,
        None => Name::root(),
    };
    Ok(ReadZone {
        zone: Zone {
            origin,
            rrs: List::new(alloc),
        },
        names: List::new(alloc),
        left,
    })
}

/// What is left of a zone that was read.
fn taken<T: ZoneTaker>(alloc: Global, read: ReadZone, taker: &mut T) -> Result<ReadZone, NoMemory>
    requires { KeepsWithin read.zone }
    ensures left { IfOk result (λ left. left ≡ read_left (T.left_of taker.old) read) }
    ensures took { OnOk result ((first : T) (zones : List Zone) → T.took first taker.old zones → T.took first taker.new (zones ++ read.zone ∷ [])) }
    ensures same { T.left_of taker.new ≡ T.left_of taker.old }
    ensures same_skips { T.skips taker.new ≡ T.skips taker.old }
    ensures within { IfOk result (λ left. KeepsWithin left.zone) }
{
    let ReadZone { zone, names, left } = read;
    let zone = taker.take(alloc, zone)?;
    Ok(ReadZone { zone, names, left })
}

/// The rows so far with one more, which has this number and whose zone was read.
fn with_read(
    alloc: Global,
    number: u32,
    server: &Name,
    read: ReadZone,
    rows: ReadRows,
) -> Result<ReadRows, LoadFault>
    requires { KeepsWithin read.zone }
    ensures { AnswersOr LoadFault.NoMemory result (row_read number server.now read rows) }
{
    let row = RowFiles {
        server: server.copy(alloc)?,
        origin: read.zone.origin.copy(alloc)?,
        files: read.names,
    };
    let mut all = rows.rows;
    all.push(row)?;
    let servers = rows.servers.with_zone(alloc, number, server, read.zone)?;
    Ok(ReadRows {
        left: read.left,
        servers,
        rows: all,
    })
}
