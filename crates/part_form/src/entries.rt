//! The entries of the report of a part.

ghost use Rattle.std.specs.Prelude.{◌≡◌, ◌∷◌, ◌++◌, [], true, false, map, option_map, IfOk, Some, None};
ghost use Rattle.serde_json.specs.View.{view as data_of};
ghost use Rattle.net_model.proofs.FaultOrder.{classes_total};
ghost use Rattle.std.proofs.lemmas.Cmp.{on_total};
ghost use Rattle.part_form.specs.declared.entries.StatedEntry.{StatedEntry as EntryValue};
ghost use Rattle.part_form.specs.Stated.{entries_stated, entry_stated, entry_with, held_fault, held_order, entry_of};

use crate::places::{class_in, fault_in};
use dns_data::{List, NoMemory};
use graph_form::OfFault;
use net_model::{Class, Fault};
use serde_json::Value;
use std::alloc::Global;
use std::cmp::Ordering;

/// An entry of the report of a part: its fault, its class, and its value in a report.
#[derive(Drop)]
pub(crate) struct StatedEntry {
    pub(crate) fault: Fault,
    pub(crate) class: Class,
    pub(crate) value: Value,
}

impl OfFault for StatedEntry {
    ghost fault_of = { held_fault };

    ghost rank = { held_order };

    fn its_fault(&self) -> &Fault {
        &self.fault
    }

    fn compare_rank(&self, other: &StatedEntry) -> Ordering {
        self.class.compare(&other.class)
    }

    ghost total = { on_total (λ entry. entry.class) classes_total };
}

/// The entries that objects tell, or `None` where one tells none.
pub(crate) fn stated_entries(
    alloc: Global,
    values: &[Value],
) -> Result<Option<List<StatedEntry>>, NoMemory>
    ensures { IfOk result (λ found. option_map (map entry_of) found ≡ entries_stated (map data_of values.now)) }
{
    let mut entries = List::new(alloc);
    for value in values {
        if !put_stated(alloc, value, &mut entries)? {
            return Ok(None);
        }
    }
    Ok(Some(entries))
}

/// Puts the entry that an object tells behind the others, and answers whether it tells one.
fn put_stated(
    alloc: Global,
    value: &Value,
    entries: &mut List<StatedEntry>,
) -> Result<bool, NoMemory>
    ensures stated { IfOk result (λ tells. tells ≡ true → (entry : EntryValue) × (entry_stated (data_of value.now) ≡ Some (entry_of entry)) × (entries.new ≡ entries.old ++ entry ∷ [])) }
    ensures none { IfOk result (λ tells. tells ≡ false → entry_stated (data_of value.now) ≡ None) }
{
    match stated_entry(alloc, value)? {
        Some(entry) => {
            entries.push(entry)?;
            Ok(true)
        }
        None => Ok(false),
    }
}

/// The entry that an object tells: its own at `entry`, with the class at `class` and `name`.
fn stated_entry(alloc: Global, value: &Value) -> Result<Option<StatedEntry>, NoMemory>
    ensures { IfOk result (λ found. option_map entry_of found ≡ entry_stated (data_of value.now)) }
{
    let Some(entry) = value.get("entry") else {
        return Ok(None);
    };
    match class_in(alloc, value)? {
        Some(class) => entry_with(alloc, class, entry),
        None => Ok(None),
    }
}

/// The entry with this value and this class, if the value tells a fault.
fn entry_with(alloc: Global, class: Class, entry: &Value) -> Result<Option<StatedEntry>, NoMemory>
    ensures { IfOk result (λ found. option_map entry_of found ≡ entry_with class (data_of entry.now)) }
{
    let value = entry.clone()?;
    match fault_in(alloc, entry)? {
        Some(fault) => Ok(Some(StatedEntry {
            fault,
            class,
            value,
        })),
        None => Ok(None),
    }
}
