//! What decides at a name (RFC 1034 section 4.3.2, RFC 4592 section 3.3, RFC 6672 section 3.2).

ghost use Rattle.std.specs.Prelude.{◌≡◌, true, ◌&&◌, ◌||◌, nat_lt, ◌++◌, take, IfSome, IfNone};
ghost use Rattle.dns_data.specs.Name.{Labels, is_prefix};
ghost use Rattle.dns_data.specs.TypeSet.{has_bit};
ghost use Rattle.dns_data.specs.declared.rr_type.RrType.TheVariants as rr_type;
ghost use Rattle.net_model.specs.Lookup.{deciding};
ghost use Rattle.net_model.specs.OpenTail.{IsOpenTail};
ghost use Rattle.zone_tree.specs.Decider.{deciding_by, IsOfTree, IsTailIf, undecided, by_source};
ghost use Rattle.zone_tree.specs.FirstDecider.{Undecided};
ghost use Rattle.zone_tree.specs.Preceding.{IsPreceding};
ghost use Rattle.zone_tree.specs.Tree.{IsNode, name_of};

use crate::enclosers::{source_behind, source_below};
use crate::first_deciders::is_cut;
use crate::node::NodeId;
use crate::preceding::Preceding;
use crate::tree::Tree;
use dns_data::{Name, RrType, TypeSet};

/// What decides at a name, whatever the type: its zone cut; the owner of a DNAME record; the name itself or its source
/// of synthesis, whose records are its own; or nothing.
#[derive(Clone, Copy, Debug, PartialEq, Eq)]
pub enum Decider {
    Cut(NodeId),
    Redirection(NodeId),
    Records(NodeId),
    Nothing,
}

/// What decides at a name at or below the origin. It takes no memory.
pub fn deciding(tree: &Tree<'_>, name: &Name) -> Decider
    requires { is_prefix tree.now.zone.origin name.now ≡ true }
    ensures node { IsOfTree tree.now result }
    ensures decides { deciding tree.now.zone name.now ≡ deciding_by tree.now result }
{
    decider_along(tree, name, false)
}

/// What decides at a name at or below the origin with any open tail below it. It takes no memory.
pub fn open_deciding(tree: &Tree<'_>, known: &Name) -> Decider
    requires { is_prefix tree.now.zone.origin known.now ≡ true }
    ensures node { IsOfTree tree.now result }
    ensures decides { (tail : Labels) → IsOpenTail tree.now.zone known.now tail → deciding tree.now.zone (known.now ++ tail) ≡ deciding_by tree.now result }
{
    decider_along(tree, known, true)
}

/// What decides along the labels of a name, for itself or for an open tail below it.
fn decider_along(tree: &Tree<'_>, name: &Name, open_below: bool) -> Decider
    requires { is_prefix tree.now.zone.origin name.now ≡ true }
    ensures node { IsOfTree tree.now result }
    ensures decides { (below : Labels) → IsTailIf tree.now.zone name.now open_below below → deciding tree.now.zone (name.now ++ below) ≡ deciding_by tree.now result }
{
    let preceding = tree.preceding(name);
    match decider_above(tree, name, &preceding, open_below) {
        Some(decider) => decider,
        None => decider_below(tree, name, &preceding, open_below),
    }
}

/// The zone cut or the owner of a DNAME record that decides along the labels of a name, by the existing name that precedes
/// it.
fn decider_above(
    tree: &Tree<'_>,
    name: &Name,
    preceding: &Preceding,
    open_below: bool,
) -> Option<Decider>
    requires inside { is_prefix tree.now.zone.origin name.now ≡ true }
    requires preceding { IsPreceding tree.now name.now preceding.now }
    ensures node { IfSome result (IsOfTree tree.now) }
    ensures some { IfSome result (λ decider. (below : Labels) → IsTailIf tree.now.zone name.now open_below below → deciding tree.now.zone (name.now ++ below) ≡ deciding_by tree.now decider) }
    ensures none { IfNone result ((below : Labels) → IsTailIf tree.now.zone name.now open_below below → Undecided tree.now.zone (name.now ++ below) (take preceding.now.shared name.now)) }
{
    let first = tree.first_decider(preceding.node);
    let count = tree.name(first).len() as usize;
    if count > preceding.shared {
        return None;
    }
    let types = tree.types(first);
    if is_cut(tree.zone(), tree.name(first), types) {
        return Some(Decider::Cut(first));
    }
    if redirects(types, count, name.len() as usize, open_below) {
        return Some(Decider::Redirection(first));
    }
    None
}

/// Whether a name that owns these types redirects another with more labels, or with labels below it.
fn redirects(types: TypeSet, count: usize, labels: usize, open_below: bool) -> bool
    ensures { result ≡ ((open_below || nat_lt count labels) && has_bit types rr_type.Dname) }
{
    (open_below || count < labels) && types.has(RrType::Dname)
}

/// What decides at a name where no prefix of it does, by the existing name that precedes it.
fn decider_below(tree: &Tree<'_>, name: &Name, preceding: &Preceding, open_below: bool) -> Decider
    requires preceding { IsPreceding tree.now name.now preceding.now }
    requires undecided { (below : Labels) → IsTailIf tree.now.zone name.now open_below below → Undecided tree.now.zone (name.now ++ below) (take preceding.now.shared name.now) }
    ensures node { IsOfTree tree.now result }
    ensures decides { (below : Labels) → IsTailIf tree.now.zone name.now open_below below → deciding tree.now.zone (name.now ++ below) ≡ deciding_by tree.now result }
{
    if preceding.shared == name.len() as usize {
        at_its_end(tree, preceding.node, open_below)
    } else {
        by_source(source_behind(tree, name, preceding))
    }
}

/// What decides where nothing does along the labels of an existing name: its own records, or for a tail below it its
/// source of synthesis.
fn at_its_end(tree: &Tree<'_>, name: NodeId, open_below: bool) -> Decider
    requires { IsNode tree.now name }
    ensures node { IsOfTree tree.now result }
    ensures decides { undecided tree.now.zone (name_of tree.now name) open_below ≡ deciding_by tree.now result }
{
    if open_below {
        by_source(source_below(tree, name))
    } else {
        Decider::Records(name)
    }
}

/// What decides at a name that doesn't exist, with this source of synthesis.
fn by_source(source: Option<NodeId>) -> Decider
    ensures { result ≡ by_source source }
{
    match source {
        Some(source) => Decider::Records(source),
        None => Decider::Nothing,
    }
}
