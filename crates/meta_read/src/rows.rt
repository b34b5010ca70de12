//! Rows of zone files.

ghost use Rattle.std.specs.Prelude.{◌≡◌, ◌<◌, ◌^◌, map, length, codes};
ghost use Rattle.std.specs.Option.{option_map};
ghost use Rattle.serde_json.specs.Find.{get};
ghost use Rattle.serde_json.specs.View.{view};
ghost use Rattle.dns_data.specs.Answers.{AnswersOr};
ghost use Rattle.meta_read.specs.Names.{each};
ghost use Rattle.meta_read.specs.Rows.{rows_of, read_row, file_in_row, origin_at, origin_text, origin_in};

use crate::fault::MetaFault;
use crate::members::{list_at, text_at};
use crate::meta::MetaRow;
use crate::names::name_in_row;
use dns_data::{List, Name, Text};
use serde_json::Value;
use std::alloc::Global;

/// The rows in order, if there are no more than `most`.
pub(crate) fn read_rows(alloc: Global, most: u32, value: &Value) -> Result<List<MetaRow>, MetaFault>
    ensures { AnswersOr MetaFault.NoMemory result (rows_of most (view value.now)) }
{
    let Some(values) = list_at(value, "ZoneFiles") else {
        return Err(MetaFault::Shape { row: 0 });
    };
    if values.len() > most as usize {
        return Err(MetaFault::TooManyRows);
    }
    each_row(alloc, values)
}

/// The row of each value, with its number, counted from 1.
fn each_row(alloc: Global, values: &[Value]) -> Result<List<MetaRow>, MetaFault>
    requires { length values.now < 2 ^ 32 }
    ensures { AnswersOr MetaFault.NoMemory result (each read_row 1 (map view values.now)) }
{
    let mut rows = List::new(alloc);
    for (i, value) in values.iter().enumerate() {
        rows.push(read_row(alloc, i as u32 + 1, value)?)?;
    }
    Ok(rows)
}

/// A row: its shape is looked at before its names.
pub(crate) fn read_row(alloc: Global, number: u32, row: &Value) -> Result<MetaRow, MetaFault>
    ensures { AnswersOr MetaFault.NoMemory result (read_row number (view row.now)) }
{
    let Some(file) = file_in_row(row) else {
        return Err(MetaFault::Shape { row: number });
    };
    let Some(server) = text_at(row, "NameServer") else {
        return Err(MetaFault::Shape { row: number });
    };
    let Some(origin) = origin_of(row) else {
        return Err(MetaFault::Shape { row: number });
    };
    let server = name_in_row(alloc, number, server)?;
    let origin = origin_in(alloc, number, origin)?;
    let file = Text::from_str(alloc, file)?;
    Ok(MetaRow {
        file,
        server,
        origin,
    })
}

/// The file's name, or `None` where it isn't a string with an octet.
fn file_in_row(row: &Value) -> Option<&str>
    ensures { option_map (λ file. file.now) result ≡ file_in_row (view row.now) }
{
    let file = text_at(row, "FileName")?;
    if file.is_empty() {
        return None;
    }
    Some(file)
}

/// The text of a row's origin, `None` within where the member isn't there or is null, and `None` where it is another
/// value than a string.
fn origin_of(row: &Value) -> Option<Option<&str>>
    ensures { option_map (λ origin. option_map (λ text. text.now) origin) result ≡ origin_at (get (codes "Origin") (view row.now)) }
{
    match row.get("Origin") {
        Some(value) => origin_text(value),
        None => Some(None),
    }
}

/// The text of an origin's value, `None` within where it is null, and `None` where it is no string and not null.
fn origin_text(value: &Value) -> Option<Option<&str>>
    ensures { option_map (λ origin. option_map (λ text. text.now) origin) result ≡ origin_text (view value.now) }
{
    match value {
        Value::String(text) => Some(Some(text.as_str())),
        Value::Null => Some(None),
        _ => None,
    }
}

/// The origin that a text stands for, where there is a text.
fn origin_in(alloc: Global, number: u32, text: Option<&str>) -> Result<Option<Name>, MetaFault>
    ensures { AnswersOr MetaFault.NoMemory result (origin_in number (option_map (λ text. text.now) text.entry)) }
{
    match text {
        Some(text) => Ok(Some(name_in_row(alloc, number, text)?)),
        None => Ok(None),
    }
}
