//! What is kept of an entry for the report of a part.

ghost use Rattle.std.specs.Prelude.{◌≡◌, IfOk};
ghost use Rattle.std.proofs.Common.{refl};
ghost use Rattle.report_json.specs.Report.{entry_text};
ghost use Rattle.part_run.specs.KeptEntry.{kept_entry};

use dns_data::{Name, NoMemory, Text};
use graph_form::ReportEntry;
use net_model::Fault;
use query_verdicts::Kept;
use report_json::entry_text;
use std::alloc::Global;
use std::str;

/// What is kept of an entry: its fault, its query, and its text in a report.
#[derive(Drop)]
pub(crate) struct KeptEntry {
    pub fault: Fault,
    pub query: Name,
    pub text: Text,
}

impl Kept for KeptEntry {
    ghost kept_of = { kept_entry };

    ghost fault_of = { λ kept. kept.fault };

    fn of_entry(alloc: Global, entry: ReportEntry) -> Result<KeptEntry, NoMemory> {
        let text = text_of(alloc, &entry)?;
        let fault = entry.seen.fault;
        let query = entry.query;
        Ok(KeptEntry { fault, query, text })
    }

    fn its_fault(&self) -> &Fault {
        &self.fault
    }

    ghost same_fault = { λ _. refl };
}

/// The text of an entry, as a `Text`. The octets are looked at once more, since no clause says that serde_json writes UTF-8
/// alone.
fn text_of(alloc: Global, entry: &ReportEntry) -> Result<Text, NoMemory>
    ensures { IfOk result (λ text. text ≡ entry_text entry.now) }
{
    let octets = entry_text(alloc, entry)?;
    match str::from_utf8(octets.items()) {
        Ok(text) => Text::from_str(alloc, text),
        Err(_) => Err(NoMemory),
    }
}
