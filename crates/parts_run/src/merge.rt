//! What is told of reports that were read.

ghost use Rattle.std.specs.Prelude.{◌≡◌, ◌⊎◌, Ok, Err, map};
ghost use Rattle.config_load.specs.Faults.{name_numbered};
ghost use Rattle.part_form.specs.Stated.{part_of};
ghost use Rattle.run_endings.specs.Endings.{no_memory};
ghost use Rattle.parts_run.specs.Outcome.{IsEndingOf, TellsMerged, fault_code, fault_file, refused_as, with_merged};

use dns_data::{List, NoMemory, Text};
use part_form::{MergeFault, MergedText, StatedPart, merged_text};
use run_endings::{Ending, Status, refusal_line};
use std::alloc::Global;

/// What is told of the reports of the files of these names: their text merged, or why they aren't merged.
pub(crate) fn merged_ending(alloc: Global, names: &[Text], parts: List<StatedPart>) -> Ending
    ensures { TellsMerged names.now (Ok (map part_of parts)) result ⊎ (result ≡ no_memory) }
{
    match merged_text(alloc, parts) {
        Ok(merged) => with_merged(merged),
        Err(fault) => not_merged(alloc, names, fault),
    }
}

/// What is told of the reports of the files of these names that aren't merged.
fn not_merged(alloc: Global, names: &[Text], fault: MergeFault) -> Ending
    ensures { IsEndingOf names.now (Err fault) result ⊎ (result ≡ no_memory) }
{
    match fault {
        MergeFault::NoMemory => Ending::no_memory(),
        _ => refused(alloc, fault_file(names, fault), fault_code(fault)),
    }
}

/// A run that ends with merged reports.
fn with_merged(merged: MergedText) -> Ending
    ensures { (result ≡ with_merged merged) ⊎ (result ≡ no_memory) }
{
    let status = if merged.has_faults {
        Status::Faults
    } else {
        Status::Clean
    };
    Ending::written(status, Ok(merged.text))
}

/// A run that refuses this file as a whole, with this code.
pub(crate) fn refused(alloc: Global, file: &str, code: &str) -> Ending
    ensures { (result ≡ refused_as file.now code.now) ⊎ (result ≡ no_memory) }
{
    match refusal_line(alloc, file, 0, code) {
        Ok(line) => Ending::without_output(Status::Refused, line),
        Err(NoMemory) => Ending::no_memory(),
    }
}

/// The file of a fault: that of the report of its number, or the last.
fn fault_file(names: &[Text], fault: MergeFault) -> &str
    ensures { result.now ≡ fault_file names.now fault }
{
    match fault {
        MergeFault::OtherRewrites(number) => named(names, number as usize),
        MergeFault::NotNext(number) => named(names, number as usize),
        MergeFault::NotLast | MergeFault::TooMany | MergeFault::NoMemory => {
            named(names, names.len().saturating_sub(1))
        }
    }
}

/// The name of this number, counted from 0.
fn named(names: &[Text], number: usize) -> &str
    ensures { result.now ≡ name_numbered names.now number }
{
    match names.get(number) {
        Some(name) => name.as_str(),
        None => "",
    }
}

/// The word for a fault.
fn fault_code(fault: MergeFault) -> &'static str
    ensures { result.now ≡ fault_code fault }
{
    match fault {
        MergeFault::OtherRewrites(_) => "other-rewrites",
        MergeFault::NotNext(_) => "not-next",
        MergeFault::NotLast => "not-last",
        MergeFault::TooMany => "too-many",
        MergeFault::NoMemory => "no-memory",
    }
}
