//! Which records have held owners.

ghost use Rattle.std.specs.Prelude.{◌≡◌, true, map, IfOk, IsSomeAnd};
ghost use Rattle.dns_data.specs.Name.{is_among};
ghost use Rattle.part_checks.specs.Parts.{held_by};

use crate::sets::NameSets;
use dns_data::{NoMemory, Rr};
use std::alloc::Global;

/// Whether the owners of records are held, in the order of the records. An owner is looked for once for all records of it
/// that follow each other.
pub(crate) fn held_owners(
    alloc: Global,
    sets: &NameSets<'_>,
    rrs: &[Rr],
) -> Result<Vec<bool>, NoMemory>
    ensures { IfOk result (λ held. held.items ≡ map (λ rr. is_among (held_by sets.now) rr.owner) rrs.now) }
{
    let mut held = Vec::with_capacity(alloc, rrs.len())?;
    let mut before = None;
    let mut is_held = false;
    for rr in rrs {
        if !is_owner_of(before, rr) {
            is_held = sets.has(&rr.owner);
        }
        held.push(is_held)?;
        before = Some(rr);
    }
    Ok(held)
}

/// Whether there is a record before this one, with the same owner.
pub(crate) fn is_owner_of(before: Option<&Rr>, rr: &Rr) -> bool
    ensures { result ≡ true → IsSomeAnd before.entry (λ other. other.now.owner ≡ rr.now.owner) }
{
    match before {
        Some(other) => other.owner == rr.owner,
        None => false,
    }
}
