//! Top servers.

ghost use Rattle.std.specs.Prelude.{◌≡◌, map, is_some};
ghost use Rattle.std.specs.List.{list_all};
ghost use Rattle.std.specs.Option.{option_map};
ghost use Rattle.serde_json.specs.Find.{as_str};
ghost use Rattle.serde_json.specs.View.{view};
ghost use Rattle.dns_data.specs.Answers.{AnswersOr};
ghost use Rattle.meta_read.specs.Names.{each};
ghost use Rattle.meta_read.specs.Tops.{tops_of, tops_at, tops_in, top_of};

use crate::fault::MetaFault;
use crate::members::list_in;
use crate::names::{name_in_row, once};
use dns_data::{List, Name};
use serde_json::Value;
use std::alloc::Global;

/// The top servers, each once, at its first place.
pub(crate) fn read_tops(alloc: Global, value: &Value) -> Result<List<Name>, MetaFault>
    ensures { AnswersOr MetaFault.NoMemory result (tops_of (view value.now)) }
{
    tops_at(alloc, value.get("TopNameServers"))
}

/// The top servers that a member names, each once, at its first place.
pub(crate) fn tops_at(alloc: Global, member: Option<&Value>) -> Result<List<Name>, MetaFault>
    ensures { AnswersOr MetaFault.NoMemory result (tops_at (option_map (λ value. view value.now) member.entry)) }
{
    let Some(values) = list_in(member) else {
        return Err(MetaFault::Shape { row: 0 });
    };
    let names = tops_in(alloc, values)?;
    Ok(once(alloc, names.items())?)
}

/// The names of a list of strings, of which there is one at least.
fn tops_in(alloc: Global, values: &[Value]) -> Result<List<Name>, MetaFault>
    ensures { AnswersOr MetaFault.NoMemory result (tops_in (map view values.now)) }
{
    if !are_strings(values) {
        return Err(MetaFault::Shape { row: 0 });
    }
    if values.is_empty() {
        return Err(MetaFault::NoTops);
    }
    each_top(alloc, values)
}

/// Whether each value is a string.
fn are_strings(values: &[Value]) -> bool
    ensures { result ≡ list_all (λ value. is_some (as_str (view value))) values.now }
{
    values.iter().all(|value| value.is_string())
}

/// The name of each value.
fn each_top(alloc: Global, values: &[Value]) -> Result<List<Name>, MetaFault>
    ensures { AnswersOr MetaFault.NoMemory result (each top_of 1 (map view values.now)) }
{
    let mut names = List::new(alloc);
    for value in values {
        names.push(top_of(alloc, value)?)?;
    }
    Ok(names)
}

/// The name that a value stands for.
fn top_of(alloc: Global, value: &Value) -> Result<Name, MetaFault>
    ensures { AnswersOr MetaFault.NoMemory result (top_of 1 (view value.now)) }
{
    match value.as_str() {
        Some(text) => name_in_row(alloc, 0, text),
        None => Err(MetaFault::Shape { row: 0 }),
    }
}
