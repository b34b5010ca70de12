//! The names of the whole where it leaves the names that a part holds.

ghost use Rattle.std.specs.Prelude.{◌≡◌, ◌⊎◌, false, map, All, Contains, IsTrue, IfOk, IfErr, IfSome, OnOk, Some};
ghost use Rattle.dns_data.specs.Name.{Labels, is_among};
ghost use Rattle.part_checks.specs.Outside.{first_outside, parent, zone_names, HasOutside, IsBelowHeld, IsPassed, Leaves};
ghost use Rattle.part_checks.specs.Parts.{held_by};
ghost use Rattle.part_checks.specs.Claims.{IsFitName};
ghost use Rattle.label_graph.specs.Graphs.{SomeItem};
ghost use Rattle.part_checks.specs.Rules.{Refutes};

use crate::fault::{PartFault, PartRule};
use crate::owners::is_owner_of;
use crate::sets::NameSets;
use dns_data::{List, Name, NoMemory, Rr};
use net_model::Zone;
use std::alloc::Global;

/// The shortest prefixes of the origin and of the owners of a zone that aren't held; of those right below one name perhaps
/// only the shorter ones. A name that is own, but isn't held, is a fault, and one that is told as away. It is known which
/// owners are held.
pub(crate) fn outside_of(
    alloc: Global,
    sets: &NameSets<'_>,
    zone: &Zone,
    held: &[bool],
) -> Result<List<Name>, PartFault>
    requires { held.now ≡ map (λ rr. is_among (held_by sets.now) rr.owner) zone.now.rrs }
    ensures passed { IfOk result (λ outside. All (IsPassed sets.now outside) (zone_names zone.now)) }
    ensures leaves { IfOk result (λ outside. (name : Labels) → Contains outside name → Leaves sets.now (zone_names zone.now) name) }
    ensures refused { IfErr result (Refutes (λ rule. All (IsFitName rule sets.now) (zone_names zone.now))) }
{
    let mut outside = List::new(alloc);
    put_name(alloc, sets, &zone.origin, &mut outside)?;
    put_owners(alloc, sets, zone.rrs.items(), held, &mut outside)?;
    Ok(outside)
}

/// Puts the names behind others where the owners of records leave the held ones. It is known which owners are held, and the
/// names right above the others are.
fn put_owners(
    alloc: Global,
    sets: &NameSets<'_>,
    rrs: &[Rr],
    held: &[bool],
    outside: &mut List<Name>,
) -> Result<(), PartFault>
    requires held { held.now ≡ map (λ rr. is_among (held_by sets.now) rr.owner) rrs.now }
    requires below { (name : Labels) → Contains outside.old name → IsBelowHeld sets.now name }
    ensures passed { OnOk result (All (λ rr. IsPassed sets.now outside.new rr.owner) rrs.now) }
    ensures stays { OnOk result ((name : Labels) → Contains outside.old name → Contains outside.new name) }
    ensures leaves { OnOk result ((name : Labels) → Contains outside.new name → Contains outside.old name ⊎ SomeItem (λ rr. first_outside sets.now rr.owner ≡ Some name) rrs.now) }
    ensures refused { IfErr result (Refutes (λ rule. All (λ rr. IsFitName rule sets.now rr.owner) rrs.now)) }
{
    let mut before = None;
    for (i, rr) in rrs.iter().enumerate() {
        put_owner(alloc, sets, before, rr, held[i], outside)?;
        before = Some(rr);
    }
    Ok(())
}

/// Puts the name behind others where the owner of a record leaves the held ones, if it does. It is known whether it is
/// held, and the owner of the record before is passed.
fn put_owner(
    alloc: Global,
    sets: &NameSets<'_>,
    before: Option<&Rr>,
    rr: &Rr,
    is_held: bool,
    outside: &mut List<Name>,
) -> Result<(), PartFault>
    requires held { is_held ≡ is_among (held_by sets.now) rr.now.owner }
    requires before { IfSome before (λ other. IsPassed sets.now outside.old other.now.owner) }
    requires below { (name : Labels) → Contains outside.old name → IsBelowHeld sets.now name }
    ensures passed { OnOk result (IsPassed sets.now outside.new rr.now.owner) }
    ensures stays { OnOk result ((other : Labels) → Contains outside.old other → Contains outside.new other) }
    ensures leaves { OnOk result ((other : Labels) → Contains outside.new other → Contains outside.old other ⊎ (first_outside sets.now rr.now.owner ≡ Some other)) }
    ensures refused { IfErr result (Refutes (λ rule. IsFitName rule sets.now rr.now.owner)) }
{
    if is_held {
        return Ok(());
    }
    if is_owner_of(before, rr) {
        return Ok(());
    }
    put_leaving(alloc, sets, &rr.owner, outside)
}

/// Puts the name behind others where a name leaves the held ones, if it does.
fn put_name(
    alloc: Global,
    sets: &NameSets<'_>,
    name: &Name,
    outside: &mut List<Name>,
) -> Result<(), PartFault>
    requires { (other : Labels) → Contains outside.old other → IsBelowHeld sets.now other }
    ensures passed { OnOk result (IsPassed sets.now outside.new name.now) }
    ensures stays { OnOk result ((other : Labels) → Contains outside.old other → Contains outside.new other) }
    ensures leaves { OnOk result ((other : Labels) → Contains outside.new other → Contains outside.old other ⊎ (first_outside sets.now name.now ≡ Some other)) }
    ensures refused { IfErr result (Refutes (λ rule. IsFitName rule sets.now name.now)) }
{
    if sets.has(name) {
        return Ok(());
    }
    put_leaving(alloc, sets, name, outside)
}

/// Puts the name behind others where one that isn't held leaves the held ones.
fn put_leaving(
    alloc: Global,
    sets: &NameSets<'_>,
    name: &Name,
    outside: &mut List<Name>,
) -> Result<(), PartFault>
    requires outside { is_among (held_by sets.now) name.now ≡ false }
    requires below { (other : Labels) → Contains outside.old other → IsBelowHeld sets.now other }
    ensures passed { OnOk result (IsPassed sets.now outside.new name.now) }
    ensures stays { OnOk result ((other : Labels) → Contains outside.old other → Contains outside.new other) }
    ensures leaves { OnOk result ((other : Labels) → Contains outside.new other → Contains outside.old other ⊎ (first_outside sets.now name.now ≡ Some other)) }
    ensures refused { IfErr result (Refutes (λ rule. IsFitName rule sets.now name.now)) }
{
    let front = front_of(alloc, sets, name, outside.items().last())?;
    if let Some(own) = sets.own_outside(alloc, &front, name)? {
        return Err(PartFault::Breaks(PartRule::Own, own));
    }
    if sets.is_away(&front) {
        return Err(PartFault::Breaks(PartRule::Away, front));
    }
    put_outside(front, outside)?;
    Ok(())
}

/// Where a name that isn't held leaves the held ones: it does at itself, if it stands beside another right below a held
/// one.
fn front_of(
    alloc: Global,
    sets: &NameSets<'_>,
    name: &Name,
    last: Option<&Name>,
) -> Result<Name, NoMemory>
    requires outside { is_among (held_by sets.now) name.now ≡ false }
    requires below { IfSome last (λ other. IsBelowHeld sets.now other.now) }
    ensures { IfOk result (λ front. first_outside sets.now name.now ≡ Some front) }
{
    if let Some(other) = last {
        if is_beside(other, name) {
            return name.copy(alloc);
        }
    }
    sets.front_outside(alloc, name)
}

/// Puts a name behind others, unless the last one stands beside it and is no longer.
pub(crate) fn put_outside(front: Name, outside: &mut List<Name>) -> Result<(), NoMemory>
    ensures there { OnOk result (HasOutside outside.new front) }
    ensures stays { OnOk result ((name : Labels) → Contains outside.old name → Contains outside.new name) }
    ensures added { (name : Labels) → Contains outside.new name → Contains outside.old name ⊎ (front ≡ name) }
{
    if let Some(last) = outside.items().last() {
        if is_beside(last, &front) && last.octets() <= front.octets() {
            return Ok(());
        }
    }
    outside.push(front)?;
    Ok(())
}

/// Whether two names stand right below the same name.
fn is_beside(one: &Name, other: &Name) -> bool
    ensures { IsTrue result → parent one.now ≡ parent other.now }
{
    let above = one.front((one.len() as usize).saturating_sub(1));
    let beside = other.front((other.len() as usize).saturating_sub(1));
    above.compare(&beside).is_eq()
}
