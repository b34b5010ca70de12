//! The lines of copies of zones.

ghost use Rattle.std.specs.Prelude.{◌≡◌, ◌⊎◌, ◌+◌, ◌++◌, ◌∷◌, [], length, decimal, Some, List as Items, IfOk, OnOk};
ghost use Rattle.std.specs.BTreeMap as map;
ghost use Rattle.dns_data.specs.Name.{name_cmp};
ghost use Rattle.dns_data.specs.Spelling.{name_text};
ghost use Rattle.config_load.specs.declared.loaded.RowFiles.{RowFiles as RowValue};
ghost use Rattle.map_run.specs.Copies.{copies_of, copy_counts, copy_line, copy_lines, copy_text, line_beside, row_version, version_at};
ghost use Rattle.run_endings.specs.Endings.{no_memory};
ghost use Rattle.map_run.specs.FirstCopies.{KnowsFirsts, known_lines};
ghost use Rattle.map_run.specs.Lines.{with_lines};

use crate::held::HeldZones;
use crate::lines::{Line, put_line, put_name_column, put_number_column, put_octets, with_lines};
use config_load::{Loaded, RowFiles};
use dns_data::{List, Name, NoMemory, Octets};
use net_model::Config;
use run_endings::Ending;
use std::alloc::Global;
use std::collections::BTreeMap;
use zone_copies::{CopyWord, Version, copy_word, serial_in, version_of};

/// The lines of the copies of zones.
pub(crate) fn copies_ending(alloc: Global, all: &Loaded) -> Ending
    ensures { (result ≡ with_lines (copies_of all.now)) ⊎ (result ≡ no_memory) }
{
    match copies_of(alloc, all) {
        Ok(lines) => with_lines(alloc, lines.items()),
        Err(NoMemory) => Ending::no_memory(),
    }
}

/// The lines of all copies, in the order of rows. What is compared of the first row with an origin is kept.
fn copies_of(alloc: Global, all: &Loaded) -> Result<List<Line>, NoMemory>
    ensures { IfOk result (λ lines. lines ≡ copies_of all.now) }
{
    copies_among(alloc, &all.config, all.rows.items())
}

/// The lines of the copies among rows.
fn copies_among(alloc: Global, config: &Config, rows: &[RowFiles]) -> Result<List<Line>, NoMemory>
    ensures { IfOk result (λ lines. lines ≡ copies_of (record { config = config.now; rows = rows.now })) }
{
    let zones = HeldZones::of(alloc, config)?;
    copies_with(alloc, &zones, rows)
}

/// The same, where the zones are found by their servers and origins.
fn copies_with(
    alloc: Global,
    zones: &HeldZones<'_>,
    rows: &[RowFiles],
) -> Result<List<Line>, NoMemory>
    ensures { IfOk result (λ lines. lines ≡ copies_of (record { config = zones.now; rows = rows.now })) }
{
    let mut firsts = BTreeMap::new(alloc);
    let mut lines = List::new(alloc);
    for (i, row) in rows.iter().enumerate() {
        put_copy(alloc, &mut lines, &mut firsts, zones, i + 1, row)?;
    }
    Ok(lines)
}

/// Puts the line of a row, which has this number, at the end, or keeps what is compared of it where it is the first
/// with its origin.
fn put_copy(
    alloc: Global,
    lines: &mut List<Line>,
    firsts: &mut BTreeMap<Name, Option<Version>>,
    zones: &HeldZones<'_>,
    number: usize,
    row: &RowFiles,
) -> Result<(), NoMemory>
    ensures lines { (before : Items RowValue) → KnowsFirsts zones.now before firsts.old → number ≡ length before + 1 →
        OnOk result (lines.new ≡ lines.old ++ copy_lines zones.now before row.now) }
    ensures firsts { (before : Items RowValue) → KnowsFirsts zones.now before firsts.old →
        OnOk result (KnowsFirsts zones.now (before ++ row.now ∷ []) firsts.new) }
{
    if firsts.contains_key(&row.origin) {
        put_known(alloc, lines, firsts, zones, number, row)
    } else {
        keep_first(alloc, firsts, zones, row)
    }
}

/// Puts the line of a copy at the end, beside what is kept of the first with its origin.
fn put_known(
    alloc: Global,
    lines: &mut List<Line>,
    firsts: &BTreeMap<Name, Option<Version>>,
    zones: &HeldZones<'_>,
    number: usize,
    row: &RowFiles,
) -> Result<(), NoMemory>
    ensures { OnOk result (lines.new ≡ lines.old ++ known_lines number row.now (row_version zones.now row.now) (map.get name_cmp firsts.now row.now.origin)) }
{
    let own = version_at(alloc, zones, &row.server, &row.origin)?;
    match firsts.get(&row.origin) {
        Some(first) => put_beside(alloc, lines, number, row, first, &own),
        None => Ok(()),
    }
}

/// Keeps what is compared of a row, for its origin.
fn keep_first(
    alloc: Global,
    firsts: &mut BTreeMap<Name, Option<Version>>,
    zones: &HeldZones<'_>,
    row: &RowFiles,
) -> Result<(), NoMemory>
    ensures { OnOk result (map.Updates name_cmp firsts.old firsts.new row.now.origin (Some (row_version zones.now row.now))) }
{
    let own = version_at(alloc, zones, &row.server, &row.origin)?;
    firsts.insert(row.origin.copy(alloc)?, own)?;
    Ok(())
}

/// What is compared of the zone with this origin at the server, if it holds one.
fn version_at(
    alloc: Global,
    zones: &HeldZones<'_>,
    server: &Name,
    origin: &Name,
) -> Result<Option<Version>, NoMemory>
    ensures { IfOk result (λ version. version ≡ version_at zones.now server.now origin.now) }
{
    match zones.get(alloc, server, origin)? {
        Some(zone) => Ok(Some(version_of(alloc, zone)?)),
        None => Ok(None),
    }
}

/// Puts the line of a copy beside the first one at the end.
fn put_beside(
    alloc: Global,
    lines: &mut List<Line>,
    number: usize,
    row: &RowFiles,
    first: &Option<Version>,
    own: &Option<Version>,
) -> Result<(), NoMemory>
    ensures { OnOk result (lines.new ≡ lines.old ++ line_beside number row.now first.now own.now) }
{
    match (first, own) {
        (Some(first), Some(own)) => put_copy_line(alloc, lines, number, row, first, own),
        _ => Ok(()),
    }
}

/// Puts the line of a copy beside the first one at the end, where there are both.
fn put_copy_line(
    alloc: Global,
    lines: &mut List<Line>,
    number: usize,
    row: &RowFiles,
    first: &Version,
    own: &Version,
) -> Result<(), NoMemory>
    ensures { OnOk result (lines.new ≡ lines.old ++ copy_line number row.now first.now own.now) }
{
    let word = copy_word(first, own);
    let mut columns = numbered_columns(alloc, copy_text(word), number, row)?;
    put_number_column(alloc, &mut columns, u64::from(serial_in(&own.soa)))?;
    put_number_column(alloc, &mut columns, u64::from(serial_in(&first.soa)))?;
    put_line(alloc, lines, copy_counts(word), columns.items())
}

/// The word of a copy.
fn copy_text(word: CopyWord) -> &'static str
    ensures { result.now ≡ copy_text word }
{
    match word {
        CopyWord::Same => "same",
        CopyWord::Renumbered => "renumbered",
        CopyWord::Behind => "behind",
        CopyWord::Ahead => "ahead",
        CopyWord::Forgotten => "forgotten",
        CopyWord::Apart => "apart",
    }
}

/// Whether the copy differs from the first in more than its serial.
fn copy_counts(word: CopyWord) -> bool
    ensures { result ≡ copy_counts word }
{
    !matches!(word, CopyWord::Same | CopyWord::Renumbered)
}

/// The first columns of a line: a word, the row's number, its server and its zone.
fn numbered_columns(
    alloc: Global,
    word: &str,
    number: usize,
    row: &RowFiles,
) -> Result<List<Octets>, NoMemory>
    ensures { IfOk result (λ columns. columns ≡ word.now ∷ decimal number ∷ name_text row.now.server ∷ name_text row.now.origin ∷ []) }
{
    let mut columns = List::new(alloc);
    put_octets(alloc, &mut columns, word.as_bytes())?;
    put_number_column(alloc, &mut columns, number as u64)?;
    put_name_column(alloc, &mut columns, &row.server)?;
    put_name_column(alloc, &mut columns, &row.origin)?;
    Ok(columns)
}
