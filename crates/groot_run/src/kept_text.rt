//! The text that is kept of an entry of a report, in its place.

ghost use Rattle.std.specs.Prelude.{◌≡◌, List as ListOf, length, map, IfOk};
ghost use Rattle.std.proofs.Common.{refl};
ghost use Rattle.graph_form.specs.declared.report.ReportEntry.{ReportEntry as EntryValue};
ghost use Rattle.groot_run.specs.KeptText.{kept_text};
ghost use Rattle.groot_run.specs.Outcome.{status_of};
ghost use Rattle.groot_run.specs.ScopeTexts.{status_when};

use dns_data::{List, NoMemory, Octets};
use graph_form::ReportEntry;
use net_model::Fault;
use query_verdicts::{Kept, KeptReport};
use report_json::{ReportNumbers, entry_piece};
use run_endings::Status;
use std::alloc::Global;

/// The text of an entry with the comma behind it, and the entry's fault.
#[derive(Drop)]
pub(crate) struct EntryText {
    pub fault: Fault,
    pub text: Octets,
}

impl Kept for EntryText {
    ghost kept_of = { kept_text };

    ghost fault_of = { λ kept. kept.fault };

    fn of_entry(alloc: Global, entry: ReportEntry) -> Result<EntryText, NoMemory> {
        let text = entry_piece(alloc, &entry)?;
        let fault = entry.seen.fault;
        Ok(EntryText { fault, text })
    }

    fn its_fault(&self) -> &Fault {
        &self.fault
    }

    ghost same_fault = { λ _. refl };
}

impl EntryText {
    /// The text alone.
    fn into_text(self) -> Octets
        ensures { result ≡ self.text }
    {
        self.text
    }
}

/// The numbers of a report.
pub(crate) fn numbers_of<K>(report: &KeptReport<K>) -> ReportNumbers
    ensures classes { result.classes ≡ report.now.classes }
    ensures names { result.names ≡ report.now.names }
    ensures rewrites { result.rewrites ≡ report.now.rewrites }
{
    ReportNumbers {
        classes: report.classes,
        names: report.names,
        rewrites: report.rewrites,
    }
}

/// The texts alone, in their order.
pub(crate) fn texts_of(alloc: Global, kept: List<EntryText>) -> Result<List<Octets>, NoMemory>
    ensures { IfOk result (λ texts. texts ≡ map (λ one. one.text) kept) }
{
    let texts: Vec<Octets> = kept
        .into_vec()
        .into_iter()
        .map(|one| one.into_text())
        .collect(alloc)?;
    Ok(List::from_vec(texts))
}

/// The status of a report that is written whole, by what is kept of its entries.
pub(crate) fn status_of<K>(kept: &[K]) -> Status
    ensures { (entries : ListOf EntryValue) → length kept.now ≡ length entries → result ≡ status_of entries }
{
    status_when(has_entries(kept))
}

/// Whether a report has a fault, by what is kept of its entries.
pub(crate) fn has_entries<K>(kept: &[K]) -> bool
    ensures { (entries : ListOf EntryValue) → length kept.now ≡ length entries → status_when result ≡ status_of entries }
{
    match kept {
        [] => false,
        _ => true,
    }
}

/// The status of reports that are written, by whether one has a fault.
pub(crate) fn status_when(faulty: bool) -> Status
    ensures { result ≡ status_when faulty }
{
    if faulty {
        Status::Faults
    } else {
        Status::Clean
    }
}
