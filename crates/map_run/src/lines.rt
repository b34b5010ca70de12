//! The lines of a word.

ghost use Rattle.std.specs.Prelude.{◌≡◌, ◌⊎◌, ◌++◌, ◌∷◌, [], Some, decimal, IfOk, OnOk};
ghost use Rattle.std.specs.List.{flat_map, list_any};
ghost use Rattle.std.specs.Option.{option_map};
ghost use Rattle.config_load.specs.Faults.{name_numbered};
ghost use Rattle.dns_data.specs.DataText.{separated};
ghost use Rattle.dns_data.specs.Spelling.{name_text};
ghost use Rattle.run_endings.specs.Endings.{no_memory};
ghost use Rattle.map_run.specs.Columns.{columns_line, file_text, tab};
ghost use Rattle.map_run.specs.Lines.{line_of, lines_status, lines_text, place_columns, with_lines};

use crate::columns::{put_file, put_name, put_number, put_tab};
use crate::records::file_numbered;
use config_load::RowFiles;
use dns_data::{List, Name, NoMemory, Octets, Rr};
use run_endings::{Ending, Status};
use std::alloc::Global;

/// A line of a word, with its line feed, and whether it counts for the status.
#[derive(Debug, Drop)]
pub(crate) struct Line {
    pub counts: bool,
    pub text: Octets,
}

/// How a run ends with these lines.
pub(crate) fn with_lines(alloc: Global, lines: &[Line]) -> Ending
    ensures { (result ≡ with_lines lines.now) ⊎ (result ≡ no_memory) }
{
    Ending::written(status_of(lines), text_of(alloc, lines))
}

/// The status of lines.
fn status_of(lines: &[Line]) -> Status
    ensures { result ≡ lines_status lines.now }
{
    if some_counts(lines) {
        Status::Faults
    } else {
        Status::Clean
    }
}

/// Whether some line counts.
fn some_counts(lines: &[Line]) -> bool
    ensures { result ≡ list_any (λ line. line.counts) lines.now }
{
    lines.iter().any(|line| line.counts)
}

/// The texts of lines, in order.
fn text_of(alloc: Global, lines: &[Line]) -> Result<Octets, NoMemory>
    ensures { IfOk result (λ text. text ≡ lines_text lines.now) }
{
    let mut text = Octets::new();
    for line in lines {
        text.extend_from_slice(alloc, line.text.items())?;
    }
    Ok(text)
}

/// Puts the line of these columns at the end.
pub(crate) fn put_line(
    alloc: Global,
    lines: &mut List<Line>,
    counts: bool,
    columns: &[Octets],
) -> Result<(), NoMemory>
    ensures { OnOk result (lines.new ≡ lines.old ++ line_of counts columns.now ∷ []) }
{
    let text = columns_line(alloc, columns)?;
    lines.push(Line { counts, text })
}

/// The text of a line of columns, with tabs between them.
fn columns_line(alloc: Global, columns: &[Octets]) -> Result<Octets, NoMemory>
    ensures { IfOk result (λ text. text ≡ columns_line columns.now) }
{
    let mut text = Octets::new();
    put_columns_between(alloc, &mut text, b"\t", columns)?;
    text.push(alloc, b'\n')?;
    Ok(text)
}

/// Puts columns at the end, with these octets between them.
pub(crate) fn put_columns_between(
    alloc: Global,
    text: &mut Octets,
    between: &[u8],
    columns: &[Octets],
) -> Result<(), NoMemory>
    ensures { OnOk result (text.new ≡ text.old ++ separated between.now columns.now) }
{
    match columns {
        [first, rest @ ..] => {
            text.extend_from_slice(alloc, first.items())?;
            put_behind(alloc, text, between, rest)
        }
        [] => Ok(()),
    }
}

/// Puts columns at the end, each behind these octets.
fn put_behind(
    alloc: Global,
    text: &mut Octets,
    between: &[u8],
    columns: &[Octets],
) -> Result<(), NoMemory>
    ensures { OnOk result (text.new ≡ text.old ++ flat_map (λ next. between.now ++ next) columns.now) }
{
    for column in columns {
        put_both(alloc, text, between, column.items())?;
    }
    Ok(())
}

/// Puts octets and others behind them at the end.
fn put_both(alloc: Global, text: &mut Octets, first: &[u8], second: &[u8]) -> Result<(), NoMemory>
    ensures { OnOk result (text.new ≡ text.old ++ (first.now ++ second.now)) }
{
    text.extend_from_slice(alloc, first)?;
    text.extend_from_slice(alloc, second)
}

/// Puts a column at the end that has these octets.
pub(crate) fn put_octets(
    alloc: Global,
    columns: &mut List<Octets>,
    octets: &[u8],
) -> Result<(), NoMemory>
    ensures { OnOk result (columns.new ≡ columns.old ++ octets.now ∷ []) }
{
    columns.push(Octets::from_octets(alloc, octets)?)
}

/// Puts columns at the end.
pub(crate) fn put_all(
    alloc: Global,
    columns: &mut List<Octets>,
    more: &[Octets],
) -> Result<(), NoMemory>
    ensures { OnOk result (columns.new ≡ columns.old ++ more.now) }
{
    for column in more {
        put_octets(alloc, columns, column.items())?;
    }
    Ok(())
}

/// Puts a column at the end that has a name.
pub(crate) fn put_name_column(
    alloc: Global,
    columns: &mut List<Octets>,
    name: &Name,
) -> Result<(), NoMemory>
    ensures { OnOk result (columns.new ≡ columns.old ++ name_text name.now ∷ []) }
{
    let mut column = Octets::new();
    put_name(alloc, &mut column, name)?;
    columns.push(column)
}

/// Puts a column at the end that has a number.
pub(crate) fn put_number_column(
    alloc: Global,
    columns: &mut List<Octets>,
    number: u64,
) -> Result<(), NoMemory>
    ensures { OnOk result (columns.new ≡ columns.old ++ decimal number ∷ []) }
{
    let mut column = Octets::new();
    put_number(alloc, &mut column, number)?;
    columns.push(column)
}

/// Puts a column at the end that has the name of a file.
fn put_file_column(alloc: Global, columns: &mut List<Octets>, file: &str) -> Result<(), NoMemory>
    ensures { OnOk result (columns.new ≡ columns.old ++ file_text file.now ∷ []) }
{
    let mut column = Octets::new();
    put_file(alloc, &mut column, file)?;
    columns.push(column)
}

/// Puts the columns of a record's place at the end: the file and the line from which it was read, both empty where there is
/// none.
pub(crate) fn put_place(
    alloc: Global,
    columns: &mut List<Octets>,
    row: &RowFiles,
    rr: Option<&Rr>,
) -> Result<(), NoMemory>
    ensures { OnOk result (columns.new ≡ columns.old ++ place_columns row.now (option_map (λ one. one.now) rr.entry)) }
{
    match rr {
        Some(rr) => {
            put_file_column(alloc, columns, file_numbered(row.files.items(), rr.file))?;
            put_number_column(alloc, columns, u64::from(rr.line))
        }
        None => {
            put_octets(alloc, columns, b"")?;
            put_octets(alloc, columns, b"")
        }
    }
}

/// Puts the columns of a record's place at the end, each behind a tab.
pub(crate) fn put_place_behind(
    alloc: Global,
    text: &mut Octets,
    row: &RowFiles,
    rr: &Rr,
) -> Result<(), NoMemory>
    ensures { OnOk result (text.new ≡ text.old ++ flat_map (λ next. tab ++ next) (place_columns row.now (Some rr.now))) }
{
    put_file_behind(alloc, text, row, rr)?;
    put_line_behind(alloc, text, rr)
}

/// Puts the name of a record's file at the end, behind a tab.
fn put_file_behind(
    alloc: Global,
    text: &mut Octets,
    row: &RowFiles,
    rr: &Rr,
) -> Result<(), NoMemory>
    ensures { OnOk result (text.new ≡ text.old ++ (tab ++ file_text (name_numbered row.now.files rr.now.file))) }
{
    put_tab(alloc, text)?;
    put_file(alloc, text, file_numbered(row.files.items(), rr.file))
}

/// Puts a record's line at the end, behind a tab.
fn put_line_behind(alloc: Global, text: &mut Octets, rr: &Rr) -> Result<(), NoMemory>
    ensures { OnOk result (text.new ≡ text.old ++ (tab ++ decimal rr.now.line)) }
{
    put_tab(alloc, text)?;
    put_number(alloc, text, u64::from(rr.line))
}

/// The first columns of a line: a word, and the row's server and zone.
pub(crate) fn row_columns(
    alloc: Global,
    word: &str,
    row: &RowFiles,
) -> Result<List<Octets>, NoMemory>
    ensures { IfOk result (λ columns. columns ≡ word.now ∷ name_text row.now.server ∷ name_text row.now.origin ∷ []) }
{
    let mut columns = List::new(alloc);
    put_octets(alloc, &mut columns, word.as_bytes())?;
    put_name_column(alloc, &mut columns, &row.server)?;
    put_name_column(alloc, &mut columns, &row.origin)?;
    Ok(columns)
}
