//! What is read of the report of a part.

ghost use Rattle.std.specs.Prelude.{◌≡◌, List, map, option_map, IfOk, Some};
ghost use Rattle.serde_json.specs.View.{view as data_of};
ghost use Rattle.part_form.specs.Stated.{bound_at, bound_of, number_at, part_in, part_stated, part_with, entry_of, part_of};

use crate::entries::{StatedEntry, stated_entries};
use crate::places::name_of;
use dns_data::{List, Name, NoMemory};
use meta_read::list_at;
use serde_json::Value;
use std::alloc::Global;

/// The report of a part: where its own names begin, and which is the first name behind them; how many own names and
/// classes it has, how many rewrites a query may use, and its entries.
#[derive(Drop)]
pub struct StatedPart {
    pub(crate) from: Option<Name>,
    pub(crate) to: Option<Name>,
    pub(crate) classes: u64,
    pub(crate) names: u64,
    pub(crate) rewrites: u64,
    pub(crate) entries: List<StatedEntry>,
}

/// The report of a part that a file's octets are, or `None` where they are none.
pub fn read_part(alloc: Global, octets: &[u8]) -> Result<Option<StatedPart>, NoMemory>
    ensures { IfOk result (λ found. option_map part_of found ≡ part_in octets.now) }
{
    match Value::from_slice(alloc, octets) {
        Ok(value) => stated_part(alloc, &value),
        Err(error) => {
            if error.is_memory() {
                Err(NoMemory)
            } else {
                Ok(None)
            }
        }
    }
}

/// The report that an object tells.
fn stated_part(alloc: Global, value: &Value) -> Result<Option<StatedPart>, NoMemory>
    ensures { IfOk result (λ found. option_map part_of found ≡ part_stated (data_of value.now)) }
{
    let Some(from) = bound_at(alloc, value, "from")? else {
        return Ok(None);
    };
    let Some(to) = bound_at(alloc, value, "to")? else {
        return Ok(None);
    };
    let Some(values) = list_at(value, "faults") else {
        return Ok(None);
    };
    match stated_entries(alloc, values)? {
        Some(entries) => Ok(part_with(value, from, to, entries)),
        None => Ok(None),
    }
}

/// The report of a part with these bounds and entries.
fn part_with(
    value: &Value,
    from: Option<Name>,
    to: Option<Name>,
    entries: List<StatedEntry>,
) -> Option<StatedPart>
    ensures { option_map part_of result ≡ part_with (data_of value.now) from to (map entry_of entries) }
{
    Some(StatedPart {
        classes: number_at(value, "classes")?,
        names: number_at(value, "names")?,
        rewrites: number_at(value, "rewrites")?,
        from,
        to,
        entries,
    })
}

/// The whole number at a key, of 64 bits at most.
fn number_at(value: &Value, key: &str) -> Option<u64>
    ensures { result ≡ number_at key.now (data_of value.now) }
{
    value.get(key)?.as_u64()
}

/// The bound at a key: a name by its text, or none where null stands.
fn bound_at(alloc: Global, value: &Value, key: &str) -> Result<Option<Option<Name>>, NoMemory>
    ensures { IfOk result (λ found. found ≡ bound_at key.now (data_of value.now)) }
{
    match value.get(key) {
        Some(bound) => bound_of(alloc, bound),
        None => Ok(None),
    }
}

/// The bound that a value tells.
fn bound_of(alloc: Global, value: &Value) -> Result<Option<Option<Name>>, NoMemory>
    ensures { IfOk result (λ found. found ≡ bound_of (data_of value.now)) }
{
    if value.is_null() {
        return Ok(Some(None));
    }
    match value.as_str() {
        Some(text) => Ok(name_of(alloc, text)?.map(Some)),
        None => Ok(None),
    }
}
