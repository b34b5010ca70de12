//! What a zone cut and the records of a name answer.

ghost use Rattle.std.specs.Prelude.{◌≡◌, map, None, IfOk, if◌then◌else◌};
ghost use Rattle.std.specs.Option.{option_map};
ghost use Rattle.dns_data.specs.RrType.{type_eq};
ghost use Rattle.dns_data.specs.declared.rr_type.RrType.TheVariants as rr_type;
ghost use Rattle.net_model.specs.declared.found.Found.TheVariants as found_as;
ghost use Rattle.net_model.specs.Lookup.{first_name, answer_of, at_name};
ghost use Rattle.net_model.specs.Zone.{ns_names, targets_at};
ghost use Rattle.zone_tree.specs.Tree.{IsNode, name_of};

use crate::node::NodeId;
use crate::tree::Tree;
use dns_data::{List, Name, NoMemory, Rdata, RrType, copied_data};
use net_model::Found;
use std::alloc::Global;

/// What a zone cut answers: its name servers (RFC 1034 section 4.3.2, step 3b).
pub fn referral(alloc: Global, tree: &Tree<'_>, cut: NodeId) -> Result<Found, NoMemory>
    requires { IsNode tree.now cut }
    ensures { IfOk result (λ answer. answer ≡ found_as.Referral (name_of tree.now cut) (ns_names tree.now.zone (name_of tree.now cut))) }
{
    Ok(Found::Referral {
        cut: tree.name(cut).copy(alloc)?,
        names: copied_names(alloc, tree.name_servers(cut))?,
    })
}

/// What the records of an existing name answer (RFC 1034 sections 3.6.2 and 4.3.2, step 3a).
pub fn at_name(alloc: Global, tree: &Tree<'_>, owner: NodeId, t: RrType) -> Result<Found, NoMemory>
    requires { IsNode tree.now owner }
    ensures { IfOk result (λ answer. answer ≡ at_name tree.now.zone (name_of tree.now owner) t) }
{
    match alias_for(tree, owner, t) {
        Some(target) => Ok(Found::Rewrite {
            by_dname: false,
            owner: tree.name(owner).copy(alloc)?,
            to: target.copy(alloc)?,
        }),
        None => answer_of(alloc, tree.set(owner, t)),
    }
}

/// The target of the alias that a name is for queries of a type other than CNAME.
fn alias_for<'a>(tree: &Tree<'a>, owner: NodeId, t: RrType) -> Option<&'a Name>
    requires { IsNode tree.now owner }
    ensures { option_map (λ target. target.now) result ≡ (if type_eq t rr_type.Cname then None else first_name (targets_at tree.now.zone (name_of tree.now owner) rr_type.Cname)) }
{
    if t.number() == RrType::Cname.number() {
        None
    } else {
        tree.alias(owner)
    }
}

/// The data of a type, or that there are none.
fn answer_of(alloc: Global, items: &[Rdata]) -> Result<Found, NoMemory>
    ensures { IfOk result (λ answer. answer ≡ answer_of items.now) }
{
    let copies = copied_data(alloc, items)?;
    if copies.items().is_empty() {
        return Ok(Found::NoData);
    }
    Ok(Found::Answer(copies))
}

/// Copies of names.
fn copied_names(alloc: Global, names: &[&Name]) -> Result<List<Name>, NoMemory>
    ensures { IfOk result (λ copies. copies ≡ map (λ name. name.now) names.now) }
{
    let mut copies = List::new(alloc);
    for name in names {
        copies.push(name.copy(alloc)?)?;
    }
    Ok(copies)
}
