//! The types that the records of a name answer alike.

ghost use Rattle.std.specs.Prelude.{◌≡◌, true, IfOk};
ghost use Rattle.std.specs.List.{AllByRecursion};
ghost use Rattle.dns_data.specs.Name.{Labels};
ghost use Rattle.dns_data.specs.TypeSet.{has_bit};
ghost use Rattle.dns_data.specs.declared.rr_type.RrType.{RrType};
ghost use Rattle.net_model.specs.declared.config.Config.{Config};
ghost use Rattle.zone_lookup.specs.Alike.{AreAlike, AreSplit, GoAlike};
ghost use Rattle.zone_lookup.specs.Reply.{IsReply};
ghost use Rattle.zone_tree.specs.Tree.{IsNode, name_of};

use crate::reply::Reply;
use dns_data::{List, NoMemory, RrType, TypeSet};
use std::alloc::Global;
use zone_tree::{NodeId, Tree};

/// The sets into which the records of an existing name split a set of types: one of the types that they answer alike, and
/// one of each other type.
pub fn split_types(
    alloc: Global,
    tree: &Tree<'_>,
    owner: NodeId,
    types: TypeSet,
) -> Result<List<TypeSet>, NoMemory>
    requires { IsNode tree.now owner }
    ensures split { IfOk result (AreSplit (has_bit types)) }
    ensures alike { IfOk result (AllByRecursion (AreAlike tree.now.zone (name_of tree.now owner))) }
{
    let together = types_alike(tree, owner, types);
    let mut sets = one_set(alloc, together)?;
    let mut left = types.minus(together);
    for t in RrType::ALL {
        if left.has(t) {
            let one = TypeSet::one(t);
            sets.push(one)?;
            left = left.minus(one);
        }
    }
    Ok(sets)
}

/// The set of types alone, if it has a type.
#[tactic(auto, using(crate::proofs::TypeSets::one_is_split, crate::proofs::TypeSets::none_are_split))]
pub fn one_set(alloc: Global, types: TypeSet) -> Result<List<TypeSet>, NoMemory>
    ensures split { IfOk result (AreSplit (has_bit types)) }
    ensures only { IfOk result (AllByRecursion (λ set. set ≡ types)) }
{
    let mut sets = List::new(alloc);
    match types.first() {
        Some(_) => {
            sets.push(types)?;
            Ok(sets)
        }
        None => Ok(sets),
    }
}

/// The types of a set that the records of an existing name answer alike: for an alias all but CNAME, which it rewrites;
/// else those of which the name owns no data.
fn types_alike(tree: &Tree<'_>, owner: NodeId, types: TypeSet) -> TypeSet
    requires { IsNode tree.now owner }
    ensures within { (t : RrType) → has_bit result t ≡ true → has_bit types t ≡ true }
    ensures alike { AreAlike tree.now.zone (name_of tree.now owner) result }
{
    match tree.alias(owner) {
        Some(_) => types.minus(TypeSet::one(RrType::Cname)),
        None => types.minus(tree.types(owner)),
    }
}

/// The sets into which a reply splits a set of types: walks go the same way with the types of each.
pub fn split_by(
    alloc: Global,
    reply: &Reply<'_, '_>,
    types: TypeSet,
) -> Result<List<TypeSet>, NoMemory>
    requires { (config : Config) × (server : Labels) × (name : Labels) × IsReply config server name reply.now }
    ensures split { IfOk result (AreSplit (has_bit types)) }
    ensures alike { IfOk result (AllByRecursion (GoAlike reply.now)) }
{
    match *reply {
        Reply::Outside => one_set(alloc, types),
        Reply::Refers(_, _) => one_set(alloc, types),
        Reply::Redirects(_, _, _) => one_set(alloc, types),
        Reply::Alias(tree, owner, _) => split_types(alloc, tree, owner, types),
        Reply::Records(tree, owner) => split_types(alloc, tree, owner, types),
        Reply::Nothing(_) => one_set(alloc, types),
    }
}
