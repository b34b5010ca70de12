//! What both zones of a delegation hold: the one that refers, and the one of the name server with the zone cut as its
//! origin.

ghost use lib.Pointwise.{pointwise};
ghost use Rattle.std.specs.Prelude.{◌≡◌, ◌&&◌, true, map, IfOk, IfSome};
ghost use Rattle.std.specs.Option.{option_map};
ghost use Rattle.dns_data.specs.Name.{is_prefix};
ghost use Rattle.dns_data.specs.Rdata.{data_eq};
ghost use Rattle.net_model.specs.Zone.{addresses, ns_names};
ghost use Rattle.zone_lookup.specs.CutFlags.{glue_by};
ghost use Rattle.zone_lookup.specs.Sides.{both_differ, glue_of_sides, names_eq, sides_differ};

use crate::follow::has_address;
use dns_data::{List, Name, NoMemory, Rdata};
use std::alloc::Global;
use zone_tree::Tree;

/// Whether both zones are there, the one that refers and the delegated one, and list other name servers at a zone cut.
pub(crate) fn zones_differ(above: Option<&Tree<'_>>, below: Option<&Tree<'_>>, cut: &Name) -> bool
    requires above { IfSome above (λ tree. is_prefix tree.now.zone.origin cut.now ≡ true) }
    requires below { IfSome below (λ tree. is_prefix tree.now.zone.origin cut.now ≡ true) }
    ensures { result ≡ sides_differ cut.now (option_map (λ tree. tree.now.zone) above.entry) (option_map (λ tree. tree.now.zone) below.entry) }
{
    let Some(above) = above else {
        return false;
    };
    let Some(below) = below else {
        return false;
    };
    !same_names(servers_at(above, cut), servers_at(below, cut))
}

/// Whether the name server is at or below the cut, and both zones are there and hold addresses of it, but not the same.
pub(crate) fn addresses_differ(
    alloc: Global,
    above: Option<&Tree<'_>>,
    below: Option<&Tree<'_>>,
    cut: &Name,
    ns: &Name,
) -> Result<bool, NoMemory>
    requires above { IfSome above (λ tree. is_prefix tree.now.zone.origin cut.now ≡ true) }
    requires below { IfSome below (λ tree. is_prefix tree.now.zone.origin cut.now ≡ true) }
    ensures { IfOk result (λ differ. differ ≡ (is_prefix cut.now ns.now
        && glue_of_sides ns.now (option_map (λ tree. tree.now.zone) above.entry) (option_map (λ tree. tree.now.zone) below.entry))) }
{
    if !cut.is_prefix_of(ns) {
        return Ok(false);
    }
    let Some(above) = above else {
        return Ok(false);
    };
    let Some(below) = below else {
        return Ok(false);
    };
    let glue = addresses_at(alloc, above, ns)?;
    let own = addresses_at(alloc, below, ns)?;
    Ok(both_differ(glue.items(), own.items()))
}

/// Whether the name server is at or below the cut, and the zone that refers is there and holds an address of it.
pub(crate) fn has_glue(above: Option<&Tree<'_>>, cut: &Name, ns: &Name) -> bool
    requires { IfSome above (λ tree. is_prefix tree.now.zone.origin cut.now ≡ true) }
    ensures { result ≡ glue_by (option_map (λ tree. tree.now.zone) above.entry) cut.now ns.now }
{
    match above {
        Some(tree) if cut.is_prefix_of(ns) => has_address(tree, ns),
        _ => false,
    }
}

/// The names of the name servers that a name at or below the origin owns, in the order of names.
fn servers_at<'t, 'a>(tree: &'t Tree<'a>, name: &Name) -> &'t [&'a Name]
    requires { is_prefix tree.now.zone.origin name.now ≡ true }
    ensures { map (λ server. server.now) result.now ≡ ns_names tree.now.zone name.now }
{
    match tree.node_at(name) {
        Some(node) => tree.name_servers(node),
        None => &[],
    }
}

/// The addresses that a name at or below the origin owns, in the order of their texts.
fn addresses_at(alloc: Global, tree: &Tree<'_>, name: &Name) -> Result<List<Rdata>, NoMemory>
    requires { is_prefix tree.now.zone.origin name.now ≡ true }
    ensures { IfOk result (λ all. all ≡ addresses tree.now.zone name.now) }
{
    match tree.node_at(name) {
        Some(node) => tree.addresses(alloc, node),
        None => Ok(List::new(alloc)),
    }
}

/// Whether neither has no data, and they aren't the same.
fn both_differ(above: &[Rdata], below: &[Rdata]) -> bool
    ensures { result ≡ both_differ above.now below.now }
{
    !above.is_empty() && !below.is_empty() && !same_data(above, below)
}

/// Whether two lists have the same data in the same order.
fn same_data(a: &[Rdata], b: &[Rdata]) -> bool
    ensures { result ≡ pointwise data_eq a.now b.now }
{
    a == b
}

/// Whether two lists have the same names in the same order.
fn same_names(a: &[&Name], b: &[&Name]) -> bool
    ensures { result ≡ names_eq (map (λ name. name.now) a.now) (map (λ name. name.now) b.now) }
{
    a == b
}
