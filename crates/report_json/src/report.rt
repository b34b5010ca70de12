//! Reports and their entries.

ghost use Rattle.std.specs.Prelude.{◌≡◌, IfOk, OnOk};
ghost use Rattle.std.specs.Str.{IsUtf8};
ghost use Rattle.serde_json.specs.Events.{SendsValue, SendsMembers};
ghost use Rattle.report_json.specs.Json.{json_members};
ghost use Rattle.report_json.specs.Members.{SendsMore};
ghost use Rattle.report_json.specs.Report.{showing_members, entry_value, entry_text, report_members, report_value, report_text};

use crate::fault::{kind_word, send_fault};
use crate::object::send_name;
use crate::written::{Written, compact_text, line_of, send_list};
use dns_data::{NoMemory, Octets};
use graph_form::{Report, ReportEntry};
use serde::Serializer;
use std::alloc::Global;

/// The text of an entry, as it stands in a report, without a line feed.
pub fn entry_text(alloc: Global, entry: &ReportEntry) -> Result<Octets, NoMemory>
    ensures { IfOk result (λ text. text ≡ entry_text entry.now) }
{
    Ok(Octets::from_vec(compact_text(alloc, entry)?))
}

/// The text of a report, its entries in the order in which they stand: a line of JSON, in UTF-8.
pub fn report_text(alloc: Global, report: &Report) -> Result<Octets, NoMemory>
    ensures text { IfOk result (λ text. text ≡ report_text report.now) }
    ensures utf8 { IfOk result (λ text. IsUtf8 text) }
{
    line_of(alloc, report)
}

impl Written for Report {
    ghost value = { report_value };

    fn send<S: Serializer>(&self, alloc: Global, out: &mut S) -> Result<(), S::Error> {
        send_report(alloc, self, out)
    }
}

impl Written for ReportEntry {
    ghost value = { entry_value };

    fn send<S: Serializer>(&self, alloc: Global, out: &mut S) -> Result<(), S::Error> {
        send_entry(alloc, self, out)
    }
}

/// Writes a report.
fn send_report<S: Serializer>(alloc: Global, report: &Report, out: &mut S) -> Result<(), S::Error>
    ensures { OnOk result (SendsValue (report_value report.now) (S.written out.old) (S.written out.new)) }
{
    out.begin_map(Some(4))?;
    send_report_members(alloc, report, out)?;
    out.end_map()
}

/// Writes what a report says, as members of an object that isn't ended.
pub(crate) fn send_report_members<S: Serializer>(
    alloc: Global,
    report: &Report,
    out: &mut S,
) -> Result<(), S::Error>
    ensures { OnOk result (SendsMore (report_members report.now) (S.written out.old) (S.written out.new)) }
{
    out.key("classes")?;
    out.u64(u64::from(report.classes))?;
    out.key("faults")?;
    send_list(alloc, report.entries.items(), out)?;
    out.key("names")?;
    out.u64(u64::from(report.names))?;
    out.key("rewrites")?;
    out.u64(u64::from(report.rewrites))
}

/// Writes an entry.
fn send_entry<S: Serializer>(
    alloc: Global,
    entry: &ReportEntry,
    out: &mut S,
) -> Result<(), S::Error>
    ensures { OnOk result (SendsValue (entry_value entry.now) (S.written out.old) (S.written out.new)) }
{
    out.begin_map(Some(6))?;
    out.key("kind")?;
    out.str(kind_word(&entry.seen.fault))?;
    out.key("place")?;
    send_fault(alloc, &entry.seen.fault, out)?;
    out.key("query")?;
    send_name(alloc, &entry.query, out)?;
    send_showing(alloc, entry, out)
}

/// Writes the last members of an entry, on how the query shows the fault.
fn send_showing<S: Serializer>(
    alloc: Global,
    entry: &ReportEntry,
    out: &mut S,
) -> Result<(), S::Error>
    ensures { OnOk result (SendsMembers (json_members (showing_members entry.now)) (S.written out.old) (S.written out.new)) }
{
    out.key("repeats")?;
    out.bool(entry.repeats)?;
    out.key("type")?;
    out.str(entry.seen.rtype.word())?;
    out.key("walks")?;
    send_list(alloc, entry.walks.items(), out)?;
    out.end_map()
}
