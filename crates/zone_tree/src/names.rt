//! The existing names of a zone.

ghost use Rattle.std.specs.Prelude.{◌≡◌, ◌∷◌, ◌++◌, map, IfOk, OnOk};
ghost use Rattle.zone_tree.specs.Names.{new_prefixes, tree_after, AreExisting};
ghost use Rattle.zone_tree.specs.Owners.{AreByOwner};
ghost use Rattle.zone_tree.specs.Runs.{owner_of};

use crate::runs::KeyedRun;
use dns_data::{Name, NoMemory};
use net_model::Zone;
use std::alloc::Global;

/// The names that exist in the zone, in order, by the runs of its records in the order of their owners.
pub(crate) fn existing_names(
    alloc: Global,
    zone: &Zone,
    runs: &[KeyedRun<'_>],
) -> Result<Vec<Name>, NoMemory>
    requires { AreByOwner zone.now runs.now }
    ensures { IfOk result (λ names. AreExisting zone.now names.items) }
{
    let mut names = names_above(alloc, &zone.origin, runs)?;
    names.shrink_to_fit();
    Ok(names)
}

/// The origin, and the prefixes of each run's owner that don't begin the owner before it.
fn names_above(alloc: Global, origin: &Name, runs: &[KeyedRun<'_>]) -> Result<Vec<Name>, NoMemory>
    ensures { IfOk result (λ names. names.items ≡ origin.now ∷ tree_after origin.now (map owner_of runs.now)) }
{
    let mut names = Vec::new(alloc);
    names.push(origin.copy(alloc)?)?;
    let mut before = origin;
    for run in runs {
        push_new(alloc, &mut names, before, &run.first.owner)?;
        before = &run.first.owner;
    }
    Ok(names)
}

/// Puts the prefixes of the name at the end that don't begin the name before it.
fn push_new(
    alloc: Global,
    names: &mut Vec<Name>,
    before: &Name,
    name: &Name,
) -> Result<(), NoMemory>
    ensures { OnOk result (names.new.items ≡ names.old.items ++ new_prefixes before.now name.now) }
{
    let shared = name.labels().common_len(&before.labels()) as usize;
    for count in shared + 1..name.len() as usize + 1 {
        names.push(name.copy_front(alloc, count)?)?;
    }
    Ok(())
}
