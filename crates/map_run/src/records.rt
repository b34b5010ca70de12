//! The lines of records.

ghost use Rattle.std.specs.Prelude.{◌≡◌, ◌++◌, ◌∷◌, [], decimal, codes, map, IfOk, OnOk};
ghost use Rattle.std.specs.List.{flat_map};
ghost use Rattle.dns_data.specs.DataText.{separated};
ghost use Rattle.dns_data.specs.Spelling.{name_text};
ghost use Rattle.config_load.specs.Faults.{name_numbered};
ghost use Rattle.map_run.specs.Columns.{file_text, columns_line, tab, as_written};
ghost use Rattle.map_run.specs.Records.{other_tokens, other_word, record_columns, records_text, row_text, record_data, type_text};

use crate::columns::{put_file, put_name, put_number, put_tab, put_written};
use crate::held::HeldZones;
use crate::lines::{self, put_name_column};
use config_load::{Loaded, RowFiles};
use dns_data::{List, NoMemory, Octets, Rdata, Rr, Text, rdata_text};
use net_model::Config;
use std::alloc::Global;

/// The lines of all records, in the order of rows.
pub(crate) fn records_text(alloc: Global, all: &Loaded) -> Result<Octets, NoMemory>
    ensures { IfOk result (λ text. text ≡ records_text all.now) }
{
    rows_text(alloc, &all.config, all.rows.items())
}

/// The lines of the records of rows, in order.
fn rows_text(alloc: Global, config: &Config, rows: &[RowFiles]) -> Result<Octets, NoMemory>
    ensures { IfOk result (λ text. text ≡ flat_map (row_text config.now) rows.now) }
{
    let zones = HeldZones::of(alloc, config)?;
    rows_with(alloc, &zones, rows)
}

/// The same, where the zones are found by their servers and origins.
fn rows_with(alloc: Global, zones: &HeldZones<'_>, rows: &[RowFiles]) -> Result<Octets, NoMemory>
    ensures { IfOk result (λ text. text ≡ flat_map (row_text zones.now) rows.now) }
{
    let mut text = Octets::new();
    for row in rows {
        put_row_records(alloc, &mut text, zones, row)?;
    }
    Ok(text)
}

/// Puts the lines of a row's records at the end.
fn put_row_records(
    alloc: Global,
    text: &mut Octets,
    zones: &HeldZones<'_>,
    row: &RowFiles,
) -> Result<(), NoMemory>
    ensures { OnOk result (text.new ≡ text.old ++ row_text zones.now row.now) }
{
    match zones.get(alloc, &row.server, &row.origin)? {
        Some(zone) => {
            let front = front_of(alloc, row)?;
            put_record_texts(alloc, text, front.items(), row, zone.rrs.items())
        }
        None => Ok(()),
    }
}

/// The first columns of each record of a row, with a tab behind each: they are spelt once.
fn front_of(alloc: Global, row: &RowFiles) -> Result<Octets, NoMemory>
    ensures { IfOk result (λ front. front ≡ ((name_text row.now.server ++ tab) ++ name_text row.now.origin) ++ tab) }
{
    let mut front = Octets::new();
    put_name(alloc, &mut front, &row.server)?;
    put_tab(alloc, &mut front)?;
    put_name(alloc, &mut front, &row.origin)?;
    put_tab(alloc, &mut front)?;
    Ok(front)
}

/// Puts the lines of records, which begin so, at the end.
fn put_record_texts(
    alloc: Global,
    text: &mut Octets,
    front: &[u8],
    row: &RowFiles,
    rrs: &[Rr],
) -> Result<(), NoMemory>
    requires { front.now ≡ ((name_text row.now.server ++ tab) ++ name_text row.now.origin) ++ tab }
    ensures { OnOk result (text.new ≡ text.old ++ flat_map (λ rr. columns_line (record_columns row.now rr)) rrs.now) }
{
    for rr in rrs {
        put_record_text(alloc, text, front, row, rr)?;
    }
    Ok(())
}

/// Puts the line of a record, which begins so, at the end.
fn put_record_text(
    alloc: Global,
    text: &mut Octets,
    front: &[u8],
    row: &RowFiles,
    rr: &Rr,
) -> Result<(), NoMemory>
    requires { front.now ≡ ((name_text row.now.server ++ tab) ++ name_text row.now.origin) ++ tab }
    ensures { OnOk result (text.new ≡ text.old ++ columns_line (record_columns row.now rr.now)) }
{
    put_columns(alloc, text, front, row, rr)?;
    text.push(alloc, b'\n')
}

/// The columns of a record.
pub(crate) fn record_columns(
    alloc: Global,
    row: &RowFiles,
    rr: &Rr,
) -> Result<List<Octets>, NoMemory>
    ensures { IfOk result (λ columns. columns ≡ record_columns row.now rr.now) }
{
    let mut columns = List::new(alloc);
    put_record_columns(alloc, &mut columns, row, rr)?;
    Ok(columns)
}

/// Puts the columns of a record at the end.
pub(crate) fn put_record_columns(
    alloc: Global,
    columns: &mut List<Octets>,
    row: &RowFiles,
    rr: &Rr,
) -> Result<(), NoMemory>
    ensures { OnOk result (columns.new ≡ columns.old ++ record_columns row.now rr.now) }
{
    put_name_column(alloc, columns, &row.server)?;
    put_name_column(alloc, columns, &row.origin)?;
    put_name_column(alloc, columns, &rr.owner)?;
    put_data_columns(alloc, columns, row, rr)
}

/// Puts the columns of a record behind its owner at the end: its type, its place and its data.
fn put_data_columns(
    alloc: Global,
    columns: &mut List<Octets>,
    row: &RowFiles,
    rr: &Rr,
) -> Result<(), NoMemory>
    ensures { OnOk result (columns.new ≡ columns.old ++ type_text rr.now.rdata ∷ file_text (name_numbered row.now.files rr.now.file) ∷ decimal rr.now.line ∷ record_data rr.now.rdata ∷ []) }
{
    let mut word = Octets::new();
    put_type(alloc, &mut word, &rr.rdata)?;
    columns.push(word)?;
    lines::put_place(alloc, columns, row, Some(rr))?;
    let mut data = Octets::new();
    put_data(alloc, &mut data, &rr.rdata)?;
    columns.push(data)
}

/// Puts the columns of a record, which begin so, at the end.
fn put_columns(
    alloc: Global,
    text: &mut Octets,
    front: &[u8],
    row: &RowFiles,
    rr: &Rr,
) -> Result<(), NoMemory>
    requires { front.now ≡ ((name_text row.now.server ++ tab) ++ name_text row.now.origin) ++ tab }
    ensures { OnOk result (text.new ≡ text.old ++ separated tab (record_columns row.now rr.now)) }
{
    text.extend_from_slice(alloc, front)?;
    put_name(alloc, text, &rr.owner)?;
    put_tab(alloc, text)?;
    put_type(alloc, text, &rr.rdata)?;
    put_tab(alloc, text)?;
    put_place(alloc, text, row.files.items(), rr)?;
    put_tab(alloc, text)?;
    put_data(alloc, text, &rr.rdata)
}

/// Puts the file and the line from which a record was read at the end.
fn put_place(alloc: Global, text: &mut Octets, files: &[Text], rr: &Rr) -> Result<(), NoMemory>
    ensures { OnOk result (text.new ≡ text.old ++ (file_text (name_numbered files.now rr.now.file) ++ (tab ++ decimal rr.now.line))) }
{
    put_file(alloc, text, file_numbered(files, rr.file))?;
    put_tab(alloc, text)?;
    put_number(alloc, text, u64::from(rr.line))
}

/// The name of the file of this number.
pub(crate) fn file_numbered(files: &[Text], number: u32) -> &str
    ensures { result.now ≡ name_numbered files.now number }
{
    match files.get(number as usize) {
        Some(file) => file.as_str(),
        None => "",
    }
}

/// Puts the word of the data's type at the end.
fn put_type(alloc: Global, text: &mut Octets, rdata: &Rdata) -> Result<(), NoMemory>
    ensures { OnOk result (text.new ≡ text.old ++ type_text rdata.now) }
{
    match rdata.rtype() {
        Some(rtype) => text.extend_from_slice(alloc, rtype.word().as_bytes()),
        None => put_other_word(alloc, text, rdata),
    }
}

/// Puts the word of a type beyond the twelve at the end.
fn put_other_word(alloc: Global, text: &mut Octets, rdata: &Rdata) -> Result<(), NoMemory>
    ensures { OnOk result (text.new ≡ text.old ++ other_word rdata.now) }
{
    match rdata {
        Rdata::Other { word, .. } => put_written(alloc, text, word.get().items()),
        _ => Ok(()),
    }
}

/// Puts a record's data at the end.
fn put_data(alloc: Global, text: &mut Octets, rdata: &Rdata) -> Result<(), NoMemory>
    ensures { OnOk result (text.new ≡ text.old ++ record_data rdata.now) }
{
    if rdata.rtype().is_some() {
        let data = rdata_text(alloc, rdata)?;
        return text.extend_from_slice(alloc, data.as_str().as_bytes());
    }
    put_other_tokens(alloc, text, rdata)
}

/// Puts the tokens of data of a type beyond the twelve at the end.
fn put_other_tokens(alloc: Global, text: &mut Octets, rdata: &Rdata) -> Result<(), NoMemory>
    ensures { OnOk result (text.new ≡ text.old ++ other_tokens rdata.now) }
{
    match rdata {
        Rdata::Other { tokens, .. } => {
            let tokens = tokens_text(alloc, tokens.items())?;
            text.extend_from_slice(alloc, tokens.items())
        }
        _ => Ok(()),
    }
}

/// Tokens as they were written, with a space between.
fn tokens_text(alloc: Global, tokens: &[Octets]) -> Result<Octets, NoMemory>
    ensures { IfOk result (λ text. text ≡ separated (codes " ") (map as_written tokens.now)) }
{
    let mut text = Octets::new();
    for (i, token) in tokens.iter().enumerate() {
        if i > 0 {
            text.push(alloc, b' ')?;
        }
        put_written(alloc, &mut text, token.items())?;
    }
    Ok(text)
}
