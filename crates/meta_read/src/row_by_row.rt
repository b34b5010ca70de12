//! Metadata whose rows are read one after another.

ghost use Rattle.std.specs.Prelude.{◌≡◌, ◌<◌, ◌≤◌, length, Ok, IfOk, IfSome, OnOk};
ghost use Rattle.serde_json.specs.Data.{Data, Members, no_members, put};
ghost use Rattle.serde_json.specs.View.{view};
ghost use Rattle.meta_read.specs.Rows.{read_row};
ghost use Rattle.meta_read.specs.RowByRow.{ReadsValue, AreRows, Represents, ReadsAs, ReadsMembers, ReadsRows};

use crate::meta::MetaRow;
use crate::rows::read_row;
use dns_data::List;
use json::{Error, Reader, Scratch, Token};
use serde_json::Value;
use std::alloc::Global;

/// What is found of the members of metadata: the value at `TopNameServers`, and the rows at `ZoneFiles`.
#[derive(Drop)]
pub(crate) struct FoundMembers {
    pub tops: Option<Value>,
    pub rows: Option<List<MetaRow>>,
}

/// What is found in the octets of metadata, of which one row at a time is held as a value. It is `None` where they don't
/// read so: where they are no text of JSON or no object, where `ZoneFiles` is a list of more than `most` rows or no list,
/// where a row has a fault, or where memory runs out.
pub(crate) fn read_row_by_row(alloc: Global, most: u32, octets: &[u8]) -> Option<FoundMembers>
    ensures { IfSome result (λ found. ReadsAs most octets.now found) }
{
    let Ok(text) = str::from_utf8(octets) else {
        return None;
    };
    let mut scratch = Scratch::new(alloc);
    let Ok(mut reader) = Reader::new(text, &mut scratch) else {
        return None;
    };
    let Some(Token::BeginObject) = reader.next() else {
        return None;
    };
    let mut found = FoundMembers {
        tops: None,
        rows: None,
    };
    let Ok(()) = next_members(alloc, most, &mut reader, &mut found) else {
        return None;
    };
    match reader.next() {
        None => Some(found),
        Some(_) => None,
    }
}

/// Reads the members of an object and the brace behind them, and keeps what is wanted of them.
fn next_members(
    alloc: Global,
    most: u32,
    reader: &mut Reader<'_>,
    found: &mut FoundMembers,
) -> Result<(), Error>
    requires { Represents most found.old no_members }
    ensures { OnOk result (ReadsMembers most reader.old reader.new found.new) }
{
    while let Some(key) = reader.next_key()? {
        next_member(alloc, most, key, reader, found)?;
    }
    Ok(())
}

/// Reads the value of the member with this key, and keeps what is wanted of it.
fn next_member(
    alloc: Global,
    most: u32,
    key: &str,
    reader: &mut Reader<'_>,
    found: &mut FoundMembers,
) -> Result<(), Error>
    ensures reads { OnOk result ((datum : Data) × ReadsValue 126 reader.old reader.new datum
        × ((before : Members) → Represents most found.old before → Represents most found.new (put key.now datum before))) }
    ensures shorter { OnOk result (length reader.new < length reader.old) }
{
    if key == "ZoneFiles" {
        let rows = next_rows(alloc, most, reader)?;
        found.rows = Some(rows);
        return Ok(());
    }
    let value = next_value(alloc, reader, 126)?;
    if key == "TopNameServers" {
        found.tops = Some(value);
    }
    Ok(())
}

/// Reads a list of no more rows than `most`.
fn next_rows(alloc: Global, most: u32, reader: &mut Reader<'_>) -> Result<List<MetaRow>, Error>
    ensures reads { IfOk result (λ rows. (datum : Data) × ReadsValue 126 reader.old reader.new datum × AreRows most rows datum) }
    ensures shorter { OnOk result (length reader.new < length reader.old) }
{
    let Some(Token::BeginArray) = reader.next() else {
        return Err(Error::Invalid);
    };
    rows_up_to_end(alloc, most, reader)
}

/// Reads the rows of a list of which the bracket was read, and the bracket behind them.
fn rows_up_to_end(alloc: Global, most: u32, reader: &mut Reader<'_>) -> Result<List<MetaRow>, Error>
    ensures reads { IfOk result (λ rows. ReadsRows most reader.old reader.new rows) }
    ensures shorter { OnOk result (length reader.new ≤ length reader.old) }
{
    let mut rows = List::new(alloc);
    let mut number = 0;
    while !reader.take_end_array() {
        if number == most {
            return Err(Error::Invalid);
        }
        number += 1;
        let row = next_row(alloc, number, reader)?;
        let Ok(()) = rows.push(row) else {
            return Err(Error::OutOfMemory);
        };
    }
    Ok(rows)
}

/// Reads the row with this number.
fn next_row(alloc: Global, number: u32, reader: &mut Reader<'_>) -> Result<MetaRow, Error>
    ensures reads { IfOk result (λ row. (datum : Data) × ReadsValue 125 reader.old reader.new datum × (read_row number datum ≡ Ok row)) }
    ensures shorter { OnOk result (length reader.new < length reader.old) }
{
    let value = next_value(alloc, reader, 125)?;
    match read_row(alloc, number, &value) {
        Ok(row) => Ok(row),
        Err(_) => Err(Error::Invalid),
    }
}

/// Reads a value: its text is written anew and read by `serde_json`.
fn next_value(alloc: Global, reader: &mut Reader<'_>, depth: usize) -> Result<Value, Error>
    requires { depth ≤ 127 }
    ensures reads { IfOk result (λ found. ReadsValue depth reader.old reader.new (view found)) }
    ensures shorter { OnOk result (length reader.new < length reader.old) }
{
    let read = json::Value::read(alloc, reader, depth)?;
    let text = json::to_vec(alloc, &read)?;
    match Value::from_slice(alloc, text.as_slice()) {
        Ok(value) => Ok(value),
        Err(_) => Err(Error::Invalid),
    }
}
