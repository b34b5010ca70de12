//! The entry that would be right.

ghost use Rattle.std.specs.Prelude.{◌≡◌, ◌↔◌, true, map, IfOk};
ghost use Rattle.report_json.specs.Plain.{IsWritten};
ghost use Rattle.report_json.specs.Report.{entry_value};
ghost use Rattle.report_check.specs.Entries.{entry_with, first_repeats};
ghost use Rattle.serde_json.specs.Data.{Data};

use crate::asked::EntryQuery;
use crate::texts::is_entry_text;
use dns_data::{List, Name, NoMemory, RrType};
use graph_form::{ReportEntry, Seen, repeats};
use net_model::{Fault, Walk};
use std::alloc::Global;

/// What an entry has beside its fault.
#[derive(Drop)]
struct EntryRest {
    query: Name,
    rtype: RrType,
    repeats: bool,
    walks: List<Walk>,
}

/// Whether the text is that of the entry of the query and the type with these walks and this fault.
pub(crate) fn is_entry_of(
    alloc: Global,
    asked: &EntryQuery,
    walks: &[&Walk],
    fault: Fault,
    text: &[u8],
) -> Result<bool, NoMemory>
    ensures { IfOk result (λ same. (value : Data) → IsWritten value text.now
        → (same ≡ true) ↔ (value ≡ entry_value (entry_with asked.now.query asked.now.rtype (first_repeats (map (λ walk. walk.now) walks.now)) (map (λ walk. walk.now) walks.now) fault))) }
{
    // What holds a fault is dropped by a call: dropped where a block ends, it is taken apart there by the kinds of faults.
    match parts_of(alloc, asked, walks) {
        Ok(parts) => {
            let entry = entry_of(parts, fault);
            let same = is_entry_text(alloc, &entry, text);
            drop(entry);
            same
        }
        Err(NoMemory) => {
            drop(fault);
            Err(NoMemory)
        }
    }
}

/// The entry of a fault with these parts.
fn entry_of(parts: EntryRest, fault: Fault) -> ReportEntry
    ensures { result ≡ entry_with parts.query parts.rtype parts.repeats parts.walks fault }
{
    ReportEntry {
        seen: Seen {
            fault,
            rtype: parts.rtype,
        },
        query: parts.query,
        repeats: parts.repeats,
        walks: parts.walks,
    }
}

/// What the entry of the query and the type with these walks has beside a fault.
fn parts_of(alloc: Global, asked: &EntryQuery, walks: &[&Walk]) -> Result<EntryRest, NoMemory>
    ensures { IfOk result (λ parts. parts ≡ record { query = asked.now.query; rtype = asked.now.rtype; repeats = first_repeats (map (λ walk. walk.now) walks.now); walks = map (λ walk. walk.now) walks.now }) }
{
    let repeats = repeated(alloc, walks)?;
    let query = asked.query.copy(alloc)?;
    let walks = copied_walks(alloc, walks)?;
    Ok(EntryRest {
        query,
        rtype: asked.rtype,
        repeats,
        walks,
    })
}

/// Whether the first of the walks comes to a server twice with one name.
fn repeated(alloc: Global, walks: &[&Walk]) -> Result<bool, NoMemory>
    ensures { IfOk result (λ answer. answer ≡ first_repeats (map (λ walk. walk.now) walks.now)) }
{
    match walks {
        [] => Ok(false),
        [first, ..] => repeats(alloc, first),
    }
}

/// Equal walks.
fn copied_walks(alloc: Global, walks: &[&Walk]) -> Result<List<Walk>, NoMemory>
    ensures { IfOk result (λ copies. copies ≡ map (λ walk. walk.now) walks.now) }
{
    let mut copies = List::new(alloc);
    for walk in walks {
        copies.push(walk.copy(alloc)?)?;
    }
    Ok(copies)
}
