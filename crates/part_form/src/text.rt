//! The text of merged reports.

ghost use Rattle.std.specs.Prelude.{◌≡◌, ◌++◌, codes, false, map, IfOk, OnOk};
ghost use Rattle.serde_json.specs.Events.{SendsValue};
ghost use Rattle.serde_json.specs.View.{view};
ghost use Rattle.serde_json.specs.Written.{compact_text, has_float};
ghost use Rattle.report_json.specs.Json.{array_of};
ghost use Rattle.part_form.specs.Held.{held_value};

use crate::entries::StatedEntry;
use dns_data::{List, NoMemory, Octets};
use serde::{Described, Serialize, Serializer};
use std::alloc::Global;

/// The counts of merged reports, and the first entry of each fault.
#[derive(Drop)]
pub(crate) struct Merged {
    pub classes: u64,
    pub names: u64,
    pub rewrites: u64,
    pub entries: List<StatedEntry>,
}

impl Described for Merged {
    ghost writes = { λ merged. SendsValue (held_value merged) };
}

impl Serialize for Merged {
    fn serialize<S: Serializer>(&self, out: &mut S) -> Result<(), S::Error> {
        out.begin_map(Some(4))?;
        out.key("classes")?;
        out.u64(self.classes)?;
        out.key("faults")?;
        send_entries(self.entries.items(), out)?;
        out.key("names")?;
        out.u64(self.names)?;
        out.key("rewrites")?;
        out.u64(self.rewrites)?;
        out.end_map()
    }
}

/// Writes the values of entries, in order.
fn send_entries<S: Serializer>(entries: &[StatedEntry], out: &mut S) -> Result<(), S::Error>
    ensures { OnOk result (SendsValue (array_of (map (λ entry. view entry.value) entries.now)) (S.written out.old) (S.written out.new)) }
{
    out.begin_seq(Some(entries.len()))?;
    for entry in entries {
        entry.value.serialize(out)?;
    }
    out.end_seq()
}

/// The text of merged reports, and a line feed.
pub(crate) fn text_of(alloc: Global, merged: &Merged) -> Result<Octets, NoMemory>
    ensures { IfOk result (λ text. has_float (held_value merged.now) ≡ false → text ≡ compact_text (held_value merged.now) ++ codes "\n") }
{
    let Ok(mut text) = serde_json::to_vec(alloc, merged) else {
        return Err(NoMemory);
    };
    text.push(b'\n')?;
    Ok(Octets::from_vec(text))
}
