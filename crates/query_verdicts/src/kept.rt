//! What is kept of the entries of a report.

ghost use Rattle.std.specs.Prelude.{◌≡◌, IfOk};
ghost use Rattle.std.proofs.Common.{refl};
ghost use Rattle.graph_form.specs.declared.report.ReportEntry.{ReportEntry as EntryValue};
ghost use Rattle.net_model.specs.declared.fault.Fault.{Fault as FaultOf};

use dns_data::{List, NoMemory};
use graph_form::ReportEntry;
use net_model::Fault;
use std::alloc::Global;

/// What is kept of an entry of a report: the entry, or what is made of it as soon as it is there, so that its walks go
/// before those of the next entry are made. Its fault is kept, since entries come in another order than they stand.
pub trait Kept {
    /// What is kept of an entry.
    ghost kept_of: { EntryValue → Self };

    /// The fault of the entry of which it is kept.
    ghost fault_of: { Self → FaultOf };

    /// What is kept of the entry, which goes.
    fn of_entry(alloc: Global, entry: ReportEntry) -> Result<Self, NoMemory>
        ensures { IfOk result (λ kept. kept ≡ kept_of entry) };

    /// The fault of the entry.
    fn its_fault(&self) -> &Fault
        ensures { result.now ≡ fault_of self.now };

    /// What is kept of an entry tells the entry's fault.
    ghost same_fault: { (entry : EntryValue) → fault_of (kept_of entry) ≡ entry.seen.fault };
}

impl Kept for ReportEntry {
    ghost kept_of = { λ entry. entry };

    ghost fault_of = { λ entry. entry.seen.fault };

    fn of_entry(_alloc: Global, entry: ReportEntry) -> Result<ReportEntry, NoMemory> {
        Ok(entry)
    }

    fn its_fault(&self) -> &Fault {
        &self.seen.fault
    }

    ghost same_fault = { λ _. refl };
}

impl Kept for Fault {
    ghost kept_of = { λ entry. entry.seen.fault };

    ghost fault_of = { λ fault. fault };

    fn of_entry(_alloc: Global, entry: ReportEntry) -> Result<Fault, NoMemory> {
        Ok(entry.seen.fault)
    }

    fn its_fault(&self) -> &Fault {
        self
    }

    ghost same_fault = { λ _. refl };
}

/// A report of whose entries something is kept in their place: how many classes and names there are, how many rewrites a
/// query may use, and what is kept of the entries, in their order.
#[derive(Debug, Drop)]
pub struct KeptReport<K> {
    pub classes: u32,
    pub names: u32,
    pub rewrites: u32,
    pub kept: List<K>,
}
