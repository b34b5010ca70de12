//! The texts of reports in pieces, where the texts of the entries are there and the entries aren't.

ghost use Rattle.std.specs.Prelude.{◌≡◌, ◌++◌, ℕ, drop, IfOk, OnOk};
ghost use Rattle.std.specs.List.{flat_map};
ghost use Rattle.graph_form.specs.declared.report.Report.{Report};
ghost use Rattle.report_json.specs.Pieces.{AreOfReport, entry_piece, joined, report_back, report_front, scope_back, without_comma};
ghost use Rattle.report_json.specs.Report.{report_text};
ghost use Rattle.report_json.specs.Sites.{scope_text};

use crate::report::entry_text;
use crate::sites::sites_text;
use crate::written::compact_text;
use dns_data::{List, Name, NoMemory, Octets};
use graph_form::ReportEntry;
use itoa::Buffer;
use site_checks::SiteFindings;
use std::alloc::Global;

/// The numbers of a report: how many classes and names there are, and how many rewrites a query may use.
#[derive(Clone, Copy, Debug)]
pub struct ReportNumbers {
    pub classes: u32,
    pub names: u32,
    pub rewrites: u32,
}

/// The text of an entry and a comma, as it stands in a report before another entry. It takes no more memory than it has
/// octets.
pub fn entry_piece(alloc: Global, entry: &ReportEntry) -> Result<Octets, NoMemory>
    ensures { IfOk result (λ piece. piece ≡ entry_piece entry.now) }
{
    let text = entry_text(alloc, entry)?;
    let mut piece = Octets::with_capacity(alloc, text.len().saturating_add(1))?;
    piece.extend_from_slice(alloc, text.items())?;
    piece.extend_from_slice(alloc, b",")?;
    Ok(piece)
}

/// The text of a report in pieces, from its numbers and the pieces of its entries in the order in which they stand.
pub fn report_pieces(
    alloc: Global,
    numbers: ReportNumbers,
    entries: List<Octets>,
) -> Result<List<Octets>, NoMemory>
    ensures { IfOk result (λ pieces. (report : Report) → AreOfReport numbers entries report
        → flat_map (λ piece. piece) pieces ≡ report_text report) }
{
    let mut back = back_of(alloc, numbers)?;
    back.extend_from_slice(alloc, b"}\n")?;
    put_around(alloc, numbers, entries, back)
}

/// The text of a report on the queries at or below a name, and of what all checks tell of their classes, in pieces.
pub fn scope_pieces(
    alloc: Global,
    numbers: ReportNumbers,
    entries: List<Octets>,
    name: &Name,
    told: &[SiteFindings],
) -> Result<List<Octets>, NoMemory>
    ensures { IfOk result (λ pieces. (report : Report) → AreOfReport numbers entries report
        → flat_map (λ piece. piece) pieces ≡ scope_text report name.now told.now) }
{
    let mut back = back_of(alloc, numbers)?;
    put_scope(alloc, name, told, &mut back)?;
    put_around(alloc, numbers, entries, back)
}

/// Puts the pieces of entries, without the last one's comma, between what stands in front and what stands behind.
fn put_around(
    alloc: Global,
    numbers: ReportNumbers,
    entries: List<Octets>,
    back: Octets,
) -> Result<List<Octets>, NoMemory>
    ensures { IfOk result (λ pieces. flat_map (λ piece. piece) pieces ≡ joined (report_front numbers.classes) entries back) }
{
    let front = front_of(alloc, numbers.classes)?;
    let mut entries = without_comma(entries)?;
    let mut pieces = Vec::new(alloc);
    pieces.push(front)?;
    pieces.append(&mut entries)?;
    pieces.push(back)?;
    Ok(List::from_vec(pieces))
}

/// The pieces without the comma behind the last one.
fn without_comma(pieces: List<Octets>) -> Result<Vec<Octets>, NoMemory>
    ensures { IfOk result (λ rest. rest.items ≡ without_comma pieces) }
{
    let mut rest = pieces.into_vec();
    if let Some(mut last) = rest.pop() {
        let len = last.len();
        last.truncate(len.saturating_sub(1));
        rest.push(last)?;
    }
    Ok(rest)
}

/// What stands in front of the entries.
fn front_of(alloc: Global, classes: u32) -> Result<Octets, NoMemory>
    ensures { IfOk result (λ front. front ≡ report_front classes) }
{
    let mut digits = Buffer::new();
    let mut front = Octets::new();
    front.extend_from_slice(alloc, b"{\"classes\":")?;
    front.extend_from_slice(alloc, digits.format(classes).as_bytes())?;
    front.extend_from_slice(alloc, b",\"faults\":[")?;
    Ok(front)
}

/// What stands behind the entries, up to the end of the object.
fn back_of(alloc: Global, numbers: ReportNumbers) -> Result<Octets, NoMemory>
    ensures { IfOk result (λ back. back ≡ report_back numbers.names numbers.rewrites) }
{
    let mut digits = Buffer::new();
    let mut back = Octets::new();
    back.extend_from_slice(alloc, b"],\"names\":")?;
    back.extend_from_slice(alloc, digits.format(numbers.names).as_bytes())?;
    back.extend_from_slice(alloc, b",\"rewrites\":")?;
    let mut digits = Buffer::new();
    back.extend_from_slice(alloc, digits.format(numbers.rewrites).as_bytes())?;
    Ok(back)
}

/// Puts the last members of a scope at the end, with the end of the line.
fn put_scope(
    alloc: Global,
    name: &Name,
    told: &[SiteFindings],
    back: &mut Octets,
) -> Result<(), NoMemory>
    ensures { OnOk result ((names rewrites : ℕ) → back.old ≡ report_back names rewrites → back.new ≡ scope_back names rewrites name.now told.now) }
{
    back.extend_from_slice(alloc, b",\"scope\":")?;
    let text = compact_text(alloc, name)?;
    back.extend_from_slice(alloc, text.as_slice())?;
    back.extend_from_slice(alloc, b",")?;
    let sites = sites_text(alloc, told)?;
    put_behind_first(alloc, sites.items(), back)
}

/// Puts octets behind the first one at the end.
fn put_behind_first(alloc: Global, octets: &[u8], back: &mut Octets) -> Result<(), NoMemory>
    ensures { OnOk result (back.new ≡ back.old ++ drop 1 octets.now) }
{
    match octets.split_first() {
        Some((_, rest)) => back.extend_from_slice(alloc, rest),
        None => Ok(()),
    }
}
