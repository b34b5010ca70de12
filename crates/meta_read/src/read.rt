//! Metadata from octets.

ghost use Rattle.std.specs.Option.{option_map};
ghost use Rattle.serde_json.specs.View.{view};
ghost use Rattle.dns_data.specs.Answers.{AnswersOr};
ghost use Rattle.meta_read.specs.Metadata.{metadata_of, metadata_in, metadata_within};
ghost use Rattle.meta_read.specs.RowByRow.{with_rows};

use crate::fault::MetaFault;
use crate::hosted::first_unhosted;
use crate::meta::{Meta, MetaRow};
use crate::row_by_row::{FoundMembers, read_row_by_row};
use crate::rows::read_rows;
use crate::tops::{read_tops, tops_at};
use dns_data::List;
use serde_json::Value;
use std::alloc::Global;

/// How many rows there may be, where nothing else is said.
pub const USUAL_ROWS: u32 = 10_000;

/// The metadata of a file's octets, with at most 10,000 rows, or the first fault, as of `read_metadata_within`.
pub fn read_metadata(alloc: Global, octets: &[u8]) -> Result<Meta, MetaFault>
    ensures { AnswersOr MetaFault.NoMemory result (metadata_of octets.now) }
{
    read_metadata_within(alloc, USUAL_ROWS, octets)
}

/// The metadata of a file's octets, or the first fault in the order of the steps: `NotJson`; `Shape` of row 0 where
/// `TopNameServers` isn't a list of strings, `NoTops` where it is empty, `BadName` of row 0; `Shape` of row 0 where
/// `ZoneFiles` isn't a list, `TooManyRows` where it has more than `most`; for each row in order its `Shape`, then its
/// `BadName`; and `TopUnhosted` with the first top server that has no row.
pub fn read_metadata_within(alloc: Global, most: u32, octets: &[u8]) -> Result<Meta, MetaFault>
    ensures { AnswersOr MetaFault.NoMemory result (metadata_within most octets.now) }
{
    let Some(FoundMembers { tops, rows }) = read_row_by_row(alloc, most, octets) else {
        return read_as_value(alloc, most, octets);
    };
    match rows {
        Some(rows) => with_rows(alloc, tops.as_ref(), rows),
        None => read_as_value(alloc, most, octets),
    }
}

/// The metadata of these rows, and of the member that names the top servers.
fn with_rows(alloc: Global, tops: Option<&Value>, rows: List<MetaRow>) -> Result<Meta, MetaFault>
    ensures { AnswersOr MetaFault.NoMemory result (with_rows rows (option_map (λ value. view value.now) tops.entry)) }
{
    let tops = tops_at(alloc, tops)?;
    match first_unhosted(alloc, tops.items(), rows.items())? {
        Some(top) => Err(MetaFault::TopUnhosted(top.copy(alloc)?)),
        None => Ok(Meta { tops, rows }),
    }
}

/// The metadata of octets that are read as one value.
fn read_as_value(alloc: Global, most: u32, octets: &[u8]) -> Result<Meta, MetaFault>
    ensures { AnswersOr MetaFault.NoMemory result (metadata_within most octets.now) }
{
    match Value::from_slice(alloc, octets) {
        Ok(value) => metadata_in(alloc, most, &value),
        Err(error) => {
            if error.is_memory() {
                Err(MetaFault::NoMemory)
            } else {
                Err(MetaFault::NotJson)
            }
        }
    }
}

/// The metadata of a value, with no more rows than `most`.
fn metadata_in(alloc: Global, most: u32, value: &Value) -> Result<Meta, MetaFault>
    ensures { AnswersOr MetaFault.NoMemory result (metadata_in most (view value.now)) }
{
    let tops = read_tops(alloc, value)?;
    let rows = read_rows(alloc, most, value)?;
    match first_unhosted(alloc, tops.items(), rows.items())? {
        Some(top) => Err(MetaFault::TopUnhosted(top.copy(alloc)?)),
        None => Ok(Meta { tops, rows }),
    }
}
