//! The reports of parts merged into one.

ghost use Rattle.std.specs.Prelude.{◌≡◌, ◌++◌, ◌≤◌, ◌^◌, map, sum_by, IfOk, OnOk, Some, None, option_map, MatchOption};
ghost use Rattle.part_form.specs.Merging.{IsMerged, apart_from, begins, behind, bound_eq, first_rewrites, rises};
ghost use Rattle.part_form.specs.Stated.{held_entries, part_of};

use crate::entries::StatedEntry;
use crate::fault::MergeFault;
use crate::stated::StatedPart;
use crate::text::{Merged, text_of};
use dns_data::{List, Name, NoMemory, Octets};
use graph_form::first_of_each;
use std::alloc::Global;

/// The text of merged reports, and whether it has an entry.
#[derive(Debug, Drop)]
pub struct MergedText {
    pub text: Octets,
    pub has_faults: bool,
}

/// The text of the report that the reports of parts make together, in order. It is `OtherRewrites` or `NotNext` with the
/// first that allows another number of rewrites than the first one, or doesn't begin where the one before it ends; else
/// `NotLast` where the last one ends before the last name; else `TooMany` where more than 64 bits would count the names
/// or classes.
pub fn merged_text(alloc: Global, parts: List<StatedPart>) -> Result<MergedText, MergeFault>
    ensures { IsMerged (map part_of parts) result }
{
    let rewrites = first_rewrites(parts.items());
    if let Some(fault) = apart(rewrites, parts.items()) {
        return Err(fault);
    }
    let Some(classes) = all_classes(parts.items()) else {
        return Err(MergeFault::TooMany);
    };
    let Some(names) = all_names(parts.items()) else {
        return Err(MergeFault::TooMany);
    };
    let merged = Merged {
        classes,
        names,
        rewrites,
        entries: first_of_each(alloc, all_entries(alloc, parts)?)?,
    };
    Ok(MergedText {
        text: text_of(alloc, &merged)?,
        has_faults: !merged.entries.is_empty(),
    })
}

/// How many rewrites a query may use, by the first report.
fn first_rewrites(parts: &[StatedPart]) -> u64
    ensures { result ≡ first_rewrites (map part_of parts.now) }
{
    match parts.first() {
        Some(part) => part.rewrites,
        None => 0,
    }
}

/// Why the reports aren't those of all parts, in order.
fn apart(rewrites: u64, parts: &[StatedPart]) -> Option<MergeFault>
    ensures { result ≡ apart_from 0 rewrites (Some None) (map part_of parts.now) }
{
    let mut next = Some(None);
    for (i, part) in parts.iter().enumerate() {
        if part.rewrites != rewrites {
            return Some(MergeFault::OtherRewrites(i as u64));
        }
        if !begins(next, part.from.as_ref()) || !rises(part.from.as_ref(), part.to.as_ref()) {
            return Some(MergeFault::NotNext(i as u64));
        }
        next = behind(part.to.as_ref());
    }
    match next {
        Some(_) => Some(MergeFault::NotLast),
        None => None,
    }
}

/// Whether a report with this bound begins where the next one does.
fn begins(next: Option<Option<&Name>>, from: Option<&Name>) -> bool
    ensures { result ≡ begins (option_map (option_map (λ name. name.now)) next.entry) (option_map (λ name. name.now) from.entry) }
{
    match next {
        Some(at) => same_bound(at, from),
        None => false,
    }
}

/// Whether two bounds are one.
fn same_bound(a: Option<&Name>, b: Option<&Name>) -> bool
    ensures { result ≡ bound_eq (option_map (λ name. name.now) a.entry) (option_map (λ name. name.now) b.entry) }
{
    match (a, b) {
        (None, None) => true,
        (Some(one), Some(other)) => *one == *other,
        _ => false,
    }
}

/// Whether the one bound is before the other, where there are both.
fn rises(from: Option<&Name>, to: Option<&Name>) -> bool
    ensures { result ≡ rises (option_map (λ name. name.now) from.entry) (option_map (λ name. name.now) to.entry) }
{
    match (from, to) {
        (Some(one), Some(other)) => one.compare(other).is_lt(),
        _ => true,
    }
}

/// Where the report behind one with this end begins.
fn behind<'a>(to: Option<&'a Name>) -> Option<Option<&'a Name>>
    ensures { option_map (option_map (λ name. name.now)) result ≡ behind (option_map (λ name. name.now) to.entry) }
{
    match to {
        Some(name) => Some(Some(name)),
        None => None,
    }
}

/// The sum of the classes, or `None` where it takes more than 64 bits.
fn all_classes(parts: &[StatedPart]) -> Option<u64>
    ensures { MatchOption result (2 ^ 64 ≤ sum_by (λ part. part.classes) parts.now) (λ sum. sum ≡ sum_by (λ part. part.classes) parts.now) }
{
    let mut sum = 0_u64;
    for part in parts {
        sum = sum.checked_add(part.classes)?;
    }
    Some(sum)
}

/// The sum of the names, or `None` where it takes more than 64 bits.
fn all_names(parts: &[StatedPart]) -> Option<u64>
    ensures { MatchOption result (2 ^ 64 ≤ sum_by (λ part. part.names) parts.now) (λ sum. sum ≡ sum_by (λ part. part.names) parts.now) }
{
    let mut sum = 0_u64;
    for part in parts {
        sum = sum.checked_add(part.names)?;
    }
    Some(sum)
}

/// The entries of all reports.
fn all_entries(alloc: Global, parts: List<StatedPart>) -> Result<List<StatedEntry>, NoMemory>
    ensures { IfOk result (λ entries. entries ≡ held_entries parts) }
{
    let mut all = List::new(alloc);
    for part in parts {
        put_all(part.entries, &mut all)?;
    }
    Ok(all)
}

/// Puts entries behind others.
fn put_all(entries: List<StatedEntry>, all: &mut List<StatedEntry>) -> Result<(), NoMemory>
    ensures { OnOk result (all.new ≡ all.old ++ entries) }
{
    for entry in entries {
        all.push(entry)?;
    }
    Ok(())
}
