//! What a name owns.

ghost use Rattle.std.specs.Prelude.{◌≡◌, map, List, All, [], ◌∷◌, IfSome, IfNone};
ghost use Rattle.std.specs.List.{filter};
ghost use Rattle.std.specs.Option.{option_map};
ghost use Rattle.dns_data.specs.Rdata.{has_type};
ghost use Rattle.dns_data.specs.declared.rdata.Rdata.{Rdata as RdataValue};
ghost use Rattle.net_model.specs.Zone.{target_of};
ghost use Rattle.zone_tree.specs.OwnedLists.{set_of, IsPartOf};
ghost use Rattle.zone_tree.specs.Records.{all_in, data_in, first_in, TellsTypes};

use crate::owned_lists::{RecordSet, items_of};
use dns_data::{Name, Rdata, Rr, RrType, TypeSet};
use std::slice;

/// The types of records.
pub(crate) fn types_of(own: &[&Rr]) -> TypeSet
    ensures { TellsTypes (map (λ rr. rr.now.rdata) own.now) result }
{
    let mut types = TypeSet::empty();
    for rr in own {
        if let Some(rtype) = rr.rtype() {
            types = types.union(TypeSet::one(rtype));
        }
    }
    types
}

/// The first data of a type, and the records behind them.
pub(crate) fn first_of_type<'r, 'a>(
    own: &'r [&'a Rr],
    rtype: RrType,
) -> Option<(&'a Rdata, &'r [&'a Rr])>
    ensures some { IfSome result (λ both. filter (has_type rtype) (map (λ rr. rr.now.rdata) own.now) ≡ both.0.now ∷ filter (has_type rtype) (map (λ rr. rr.now.rdata) both.1.now)) }
    ensures none { IfNone result (filter (has_type rtype) (map (λ rr. rr.now.rdata) own.now) ≡ []) }
{
    for (place, rr) in own.iter().enumerate() {
        if is_of_type(&rr.rdata, rtype) {
            return Some((&rr.rdata, &own[place + 1..]));
        }
    }
    None
}

/// Whether data are of a type.
pub(crate) fn is_of_type(rdata: &Rdata, rtype: RrType) -> bool
    ensures { result ≡ has_type rtype rdata.now }
{
    match rdata.rtype() {
        Some(other) => rtype.number() == other.number(),
        None => false,
    }
}

/// The name that a name server's, an alias's or a redirection's data hold.
pub(crate) fn target_of<'a>(rdata: &'a Rdata) -> Option<&'a Name>
    ensures { option_map (λ target. target.now) result ≡ target_of rdata.now }
{
    match rdata {
        Rdata::Ns(target) => Some(target),
        Rdata::Cname(target) => Some(target),
        Rdata::Dname(target) => Some(target),
        _ => None,
    }
}

/// The data of a type among sets, in the order of their texts.
pub(crate) fn data_in<'s>(
    sets: &'s [RecordSet<'_>],
    several: &'s [Rdata],
    rtype: RrType,
) -> &'s [Rdata]
    requires { All (λ set. IsPartOf several.now set.several) sets.now }
    ensures { result.now ≡ data_in (map (set_of several.now) sets.now) rtype }
{
    for set in sets {
        if set.rtype.number() == rtype.number() {
            return data_of_set(set, several);
        }
    }
    &[]
}

/// The data of a set, in the order of their texts.
fn data_of_set<'s>(set: &'s RecordSet<'_>, several: &'s [Rdata]) -> &'s [Rdata]
    requires { IsPartOf several.now set.now.several }
    ensures { result.now ≡ all_in (set_of several.now set.now) }
{
    let items = items_of(several, set.several);
    if items.is_empty() {
        return slice::from_ref(set.first);
    }
    items
}

/// The first data of a type in file order among sets.
pub(crate) fn first_in<'a>(sets: &[RecordSet<'a>], rtype: RrType) -> Option<&'a Rdata>
    ensures { (several : List RdataValue) → option_map (λ rdata. rdata.now) result ≡ first_in (map (set_of several) sets.now) rtype }
{
    for set in sets {
        if set.rtype.number() == rtype.number() {
            return Some(set.first);
        }
    }
    None
}
