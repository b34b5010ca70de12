//! Closest enclosers and sources of synthesis (RFC 4592 section 3.3.1).

ghost use Rattle.std.specs.Prelude.{◌≡◌, ◌↔◌, true, length, take, Some, IfSome, IfNone, IsTrue};
ghost use Rattle.dns_data.specs.Name.{is_prefix};
ghost use Rattle.net_model.specs.Lookup.{ByRecords, ByNothing, closest_encloser, synthesized};
ghost use Rattle.zone_tree.specs.Preceding.{IsPreceding};
ghost use Rattle.zone_tree.specs.Tree.{IsNode, name_of};

use crate::node::NodeId;
use crate::preceding::Preceding;
use crate::tree::Tree;
use dns_data::Name;

/// The closest encloser of a name at or below the origin: its longest prefix that exists in the zone. It takes no memory.
pub fn encloser(tree: &Tree<'_>, name: &Name) -> NodeId
    requires { is_prefix tree.now.zone.origin name.now ≡ true }
    ensures node { IsNode tree.now result }
    ensures name { closest_encloser tree.now.zone name.now ≡ Some (name_of tree.now result) }
{
    encloser_behind(tree, name, &tree.preceding(name))
}

/// The closest encloser of a name, by the existing name that precedes it.
fn encloser_behind(tree: &Tree<'_>, name: &Name, preceding: &Preceding) -> NodeId
    requires { IsPreceding tree.now name.now preceding.now }
    ensures node { IsNode tree.now result }
    ensures name { name_of tree.now result ≡ take preceding.now.shared name.now }
{
    if is_encloser(tree, preceding) {
        return preceding.node;
    }
    match tree.node_of(&name.front(preceding.shared)) {
        Some(node) => node,
        None => unreachable!(),
    }
}

/// The source of synthesis of a name at or below the origin: the asterisk label directly below its closest encloser, or
/// `None` where that name doesn't exist in the zone. It takes no memory.
pub fn source(tree: &Tree<'_>, name: &Name) -> Option<NodeId>
    requires { is_prefix tree.now.zone.origin name.now ≡ true }
    ensures node { IfSome result (IsNode tree.now) }
    ensures some { IfSome result (λ source. synthesized tree.now.zone (closest_encloser tree.now.zone name.now) ≡ ByRecords (name_of tree.now source)) }
    ensures none { IfNone result (synthesized tree.now.zone (closest_encloser tree.now.zone name.now) ≡ ByNothing) }
{
    source_behind(tree, name, &tree.preceding(name))
}

/// The source of synthesis of a name, by the existing name that precedes it.
pub(crate) fn source_behind(tree: &Tree<'_>, name: &Name, preceding: &Preceding) -> Option<NodeId>
    requires { IsPreceding tree.now name.now preceding.now }
    ensures node { IfSome result (IsNode tree.now) }
    ensures some { IfSome result (λ source. synthesized tree.now.zone (Some (take preceding.now.shared name.now)) ≡ ByRecords (name_of tree.now source)) }
    ensures none { IfNone result (synthesized tree.now.zone (Some (take preceding.now.shared name.now)) ≡ ByNothing) }
{
    source_below(tree, encloser_behind(tree, name, preceding))
}

/// Whether an existing name has no more labels than those that it shares with a name behind it.
fn is_encloser(tree: &Tree<'_>, preceding: &Preceding) -> bool
    requires { IsNode tree.now preceding.now.node }
    ensures { IsTrue result ↔ (length (name_of tree.now preceding.now.node) ≡ preceding.now.shared) }
{
    tree.name(preceding.node).len() as usize == preceding.shared
}

/// The asterisk label directly below a closest encloser, or `None` where that name doesn't exist in the zone.
pub(crate) fn source_below(tree: &Tree<'_>, encloser: NodeId) -> Option<NodeId>
    requires { IsNode tree.now encloser }
    ensures node { IfSome result (IsNode tree.now) }
    ensures some { IfSome result (λ source. synthesized tree.now.zone (Some (name_of tree.now encloser)) ≡ ByRecords (name_of tree.now source)) }
    ensures none { IfNone result (synthesized tree.now.zone (Some (name_of tree.now encloser)) ≡ ByNothing) }
{
    tree.child_with(encloser, b"*")
}
