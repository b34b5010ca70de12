//! Runs of records of one owner, in the order of their owners.

ghost use Rattle.std.specs.Prelude.{◌≡◌, ◌≤◌, ◌∷◌, ◌++◌, All, map, length, IfOk, OnOk};
ghost use Rattle.std.specs.List.{filter, flat_map};
ghost use Rattle.dns_data.specs.Name.{is_prefix};
ghost use Rattle.zone_tree.specs.Owners.{AreByOwner, leading};
ghost use Rattle.zone_tree.specs.Runs.{IsKeyedRun, keyed_cmp, records_in};

use dns_data::{Name, NoMemory, Rr};
use name_table::key_if_below;
use net_model::Zone;
use std::alloc::Global;
use std::cmp::Ordering;

/// Records of one owner that stand one behind the other, and the key of their owner below the origin.
#[derive(Clone, Copy, Debug)]
pub(crate) struct KeyedRun<'a> {
    pub key: u64,
    pub first: &'a Rr,
    pub rest: &'a [Rr],
}

/// The runs of the records at or below the origin in the order of their owners, those of one owner in file order.
pub(crate) fn runs_in_order<'a>(
    alloc: Global,
    zone: &'a Zone,
) -> Result<Vec<KeyedRun<'a>>, NoMemory>
    ensures { IfOk result (λ runs. AreByOwner zone.now runs.items) }
{
    let mut runs = keyed_runs(alloc, zone)?;
    runs.sort_by(|a, b| keyed_order(a, b))?;
    Ok(runs)
}

/// The runs of the records at or below the origin in file order, each with its key.
fn keyed_runs<'a>(alloc: Global, zone: &'a Zone) -> Result<Vec<KeyedRun<'a>>, NoMemory>
    ensures rrs { IfOk result (λ runs. flat_map records_in runs.items ≡ filter (λ rr. is_prefix zone.now.origin rr.owner) zone.now.rrs) }
    ensures each { IfOk result (λ runs. All (IsKeyedRun zone.now.origin) runs.items) }
{
    let mut runs = Vec::with_capacity(alloc, zone.rrs.items().len())?;
    let mut left = zone.rrs.items();
    while let Some((first, behind)) = left.split_first() {
        let (rest, next) = behind.split_at(run_len(behind, &first.owner));
        push_run(&mut runs, &zone.origin, first, rest)?;
        left = next;
    }
    Ok(runs)
}

/// Puts the run of a record and of others of its owner behind other runs, if the owner is at or below the origin.
fn push_run<'a>(
    runs: &mut Vec<KeyedRun<'a>>,
    origin: &Name,
    first: &'a Rr,
    rest: &'a [Rr],
) -> Result<(), NoMemory>
    requires { All (λ rr. rr.owner ≡ first.now.owner) rest.now }
    ensures rrs { OnOk result (flat_map records_in runs.new.items ≡ flat_map records_in runs.old.items ++ filter (λ rr. is_prefix origin.now rr.owner) (first.now ∷ rest.now)) }
    ensures each { All (IsKeyedRun origin.now) runs.old.items → OnOk result (All (IsKeyedRun origin.now) runs.new.items) }
{
    if let Some(key) = key_if_below(origin, &first.owner.labels()) {
        runs.push(KeyedRun { key, first, rest })?;
    }
    Ok(())
}

/// How many records at the front have this owner.
fn run_len(rrs: &[Rr], owner: &Name) -> usize
    ensures value { result ≡ leading owner.now (map (λ rr. rr.owner) rrs.now) }
    ensures within { result ≤ length rrs.now }
{
    let mut count = 0;
    for rr in rrs {
        if rr.owner != *owner {
            return count;
        }
        count += 1;
    }
    count
}

/// How keyed runs stand: as their keys do, or where these are one as their owners do.
fn keyed_order(a: &KeyedRun<'_>, b: &KeyedRun<'_>) -> Ordering
    ensures { result ≡ keyed_cmp a.now b.now }
{
    if a.key == b.key {
        a.first.owner.compare(&b.first.owner)
    } else {
        a.key.cmp(&b.key)
    }
}
