//! The first name on the way down to each name of a zone that decides at those below it.

ghost use Rattle.std.specs.Prelude.{◌≡◌, ◌<◌, ◌-◌, ◌&&◌, true, [], length, nat_lt, slice_index_or, IfOk};
ghost use Rattle.dns_data.specs.Name.{is_prefix};
ghost use Rattle.dns_data.specs.TypeSet.{has_bit};
ghost use Rattle.dns_data.specs.declared.rr_type.RrType.{RrType};
ghost use Rattle.net_model.specs.Zone.{owns};
ghost use Rattle.zone_tree.specs.FirstDecider.{is_cut, decides_below, IsFirstDecider, AreFirstDeciders};
ghost use Rattle.zone_tree.specs.Records.{IsTree};

use crate::node::NodeId;
use crate::owned_data::OwnedData;
use dns_data::{Name, NoMemory, RrType, TypeSet};
use net_model::Zone;
use std::alloc::Global;

/// For each of the existing names of a zone, in order, the first name from the origin down to it that decides at those
/// below it; the origin where none does.
pub(crate) fn first_deciders(
    alloc: Global,
    zone: &Zone,
    names: &[Name],
    records: &OwnedData<'_>,
) -> Result<Vec<NodeId>, NoMemory>
    requires { IsTree zone.now names.now records.now }
    ensures { IfOk result (λ firsts. AreFirstDeciders zone.now names.now firsts.items) }
{
    let mut firsts = Vec::with_capacity(alloc, names.len())?;
    let mut before = NodeId::at(0);
    for place in 0..names.len() {
        before = first_decider_at(zone, names, records, before, place);
        firsts.push(before)?;
    }
    Ok(firsts)
}

/// The first decider of the name at a place, by that of the name before it.
fn first_decider_at(
    zone: &Zone,
    names: &[Name],
    records: &OwnedData<'_>,
    before: NodeId,
    place: usize,
) -> NodeId
    requires tree { IsTree zone.now names.now records.now }
    requires within { place < length names.now }
    requires before { IsFirstDecider zone.now names.now (slice_index_or names.now (place - 1) []) before }
    ensures { IsFirstDecider zone.now names.now (slice_index_or names.now place []) result }
{
    let name = &names[place];
    let above = &names[before.place()];
    if decides_at(zone, above, records.at(before.place()).types(), name) {
        return before;
    }
    if decides_below(zone, name, records.at(place).types()) {
        return NodeId::at(place);
    }
    NodeId::at(0)
}

/// Whether a name that owns these types has fewer labels than another, and decides at those below it.
fn decides_at(zone: &Zone, above: &Name, types: TypeSet, name: &Name) -> bool
    requires inside { is_prefix zone.now.origin above.now ≡ true }
    requires types { (rtype : RrType) → has_bit types rtype ≡ owns zone.now above.now rtype }
    ensures { result ≡ (nat_lt (length above.now) (length name.now) && decides_below zone.now above.now) }
{
    decides_below(zone, above, types) && above.len() < name.len()
}

/// Whether a name that owns these types decides at those below it: a zone cut, or the owner of a DNAME record.
fn decides_below(zone: &Zone, name: &Name, types: TypeSet) -> bool
    requires inside { is_prefix zone.now.origin name.now ≡ true }
    requires types { (rtype : RrType) → has_bit types rtype ≡ owns zone.now name.now rtype }
    ensures { result ≡ decides_below zone.now name.now }
{
    is_cut(zone, name, types) || types.has(RrType::Dname)
}

/// Whether a name that owns these types is a zone cut: below the origin, with NS records.
pub(crate) fn is_cut(zone: &Zone, name: &Name, types: TypeSet) -> bool
    requires { (rtype : RrType) → has_bit types rtype ≡ owns zone.now name.now rtype }
    ensures { result ≡ is_cut zone.now name.now }
{
    types.has(RrType::Ns) && name.len() > zone.origin.len()
}
