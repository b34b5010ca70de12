//! The records of a zone by their owners.

ghost use Rattle.std.specs.Prelude.{◌≡◌, ◌++◌, ℕ, ◌<◌, ◌≤◌, [], map, length, slice_index_or, Contains, IsSorted, IfOk, OnOk};
ghost use Rattle.std.specs.List.{flat_map};
ghost use Rattle.dns_data.specs.Name.{Labels, name_cmp, AreInOrder};
ghost use Rattle.zone_tree.specs.OwnedData.{IsFormPut};
ghost use Rattle.zone_tree.specs.Owners.{data_of_runs, leading};
ghost use Rattle.zone_tree.specs.Records.{TellsData};
ghost use Rattle.zone_tree.specs.Runs.{data_of_run, owner_of, records_in};

use crate::owned_data::{OwnedData, OwnedForm, put_form};
use crate::owned_lists::OwnedLists;
use crate::runs::KeyedRun;
use dns_data::{Name, NoMemory, Rr};
use std::alloc::Global;

/// What each of the names owns, by runs of records in the order of their owners, which are among the names.
pub(crate) fn records_by_name<'a>(
    alloc: Global,
    names: &[Name],
    runs: &[KeyedRun<'a>],
) -> Result<OwnedData<'a>, NoMemory>
    requires names { AreInOrder names.now }
    requires sorted { IsSorted name_cmp (map owner_of runs.now) }
    requires among { (owner : Labels) → Contains (map owner_of runs.now) owner → Contains names.now owner }
    ensures many { IfOk result (λ all. length all ≡ length names.now) }
    ensures each { IfOk result (λ all. (k : ℕ) (d : _) → k < length names.now → TellsData (data_of_runs runs.now (slice_index_or names.now k [])) (slice_index_or all k d)) }
{
    let mut forms = Vec::with_capacity(alloc, names.len())?;
    let mut lists = OwnedLists::new(alloc);
    let mut rrs = Vec::new(alloc);
    let mut at = 0;
    for name in names {
        let left = &runs[at..];
        let (own, _) = left.split_at(leading(left, name));
        forms.push(form_by_runs(alloc, &mut lists, &mut rrs, own)?)?;
        at += own.len();
    }
    Ok(OwnedData::of(forms, lists))
}

/// How many runs at the front have this owner.
fn leading(runs: &[KeyedRun<'_>], name: &Name) -> usize
    ensures value { result ≡ leading name.now (map owner_of runs.now) }
    ensures within { result ≤ length runs.now }
{
    let mut count = 0;
    for run in runs {
        if run.first.owner != *name {
            return count;
        }
        count += 1;
    }
    count
}

/// The form of what a name owns, by the runs of its records, which are put in the place of other records.
fn form_by_runs<'a>(
    alloc: Global,
    lists: &mut OwnedLists<'a>,
    rrs: &mut Vec<&'a Rr>,
    runs: &[KeyedRun<'a>],
) -> Result<OwnedForm<'a>, NoMemory>
    ensures { IfOk result (IsFormPut (flat_map data_of_run runs.now) lists.old lists.new) }
{
    put_runs(rrs, runs)?;
    put_form(alloc, lists, rrs.as_slice())
}

/// Puts the records of runs in the place of others.
fn put_runs<'a>(rrs: &mut Vec<&'a Rr>, runs: &[KeyedRun<'a>]) -> Result<(), NoMemory>
    ensures { OnOk result (map (λ rr. rr.now) rrs.new.items ≡ flat_map records_in runs.now) }
{
    rrs.clear();
    for run in runs {
        put_run(rrs, run)?;
    }
    Ok(())
}

/// Puts the records of a run behind others.
fn put_run<'a>(rrs: &mut Vec<&'a Rr>, run: &KeyedRun<'a>) -> Result<(), NoMemory>
    ensures { OnOk result (map (λ rr. rr.now) rrs.new.items ≡ map (λ rr. rr.now) rrs.old.items ++ records_in run.now) }
{
    rrs.push(run.first)?;
    for rr in run.rest {
        rrs.push(rr)?;
    }
    Ok(())
}
