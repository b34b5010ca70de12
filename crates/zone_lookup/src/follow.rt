//! Which name servers may be followed.

ghost use Rattle.std.specs.Prelude.{◌≡◌, ◌&&◌, ◌||◌, not, true};
ghost use Rattle.dns_data.specs.Name.{is_prefix};
ghost use Rattle.dns_data.specs.declared.rr_type.RrType.TheVariants as types;
ghost use Rattle.net_model.specs.Learnt.{gives_address};
ghost use Rattle.net_model.specs.Nearest.{is_top};
ghost use Rattle.net_model.specs.Step.{has_glue, may_follow};
ghost use Rattle.net_model.specs.Zone.{has_address};
ghost use Rattle.zone_lookup.specs.LentCut.{cut_of};
ghost use Rattle.zone_lookup.specs.Resting.{records_leaf};
ghost use Rattle.zone_tree.specs.Tree.{IsNode, name_of};

use crate::hosts::Hosts;
use crate::lent_cut::LentCut;
use dns_data::{Name, RrType};
use net_model::{Cut, is_among, may_follow};
use zone_tree::{NodeId, Tree};

impl<'a> Hosts<'a> {
    /// Whether the address of the cut's name server is known: it is a top server, it has glue in that referral, or it is
    /// among the followed ones. It passes over the top servers and the followed ones, and over no records where the zone
    /// cut is at or below the referring zone's origin (RFC 1034 section 4.2.1).
    pub fn may_follow(&self, cut: &Cut, followed: &[Name]) -> bool
        ensures { result ≡ may_follow self.now cut.now followed.now }
    {
        if !cut.zone.is_prefix_of(&cut.cut) {
            return may_follow(self.config(), cut, followed);
        }
        self.is_known(LentCut::of(cut)) || is_among(followed, &cut.ns)
    }

    /// Whether the address of the cut's name server is known whatever is learnt: it is a top server, or it has glue in that
    /// referral.
    pub(crate) fn is_known(&self, cut: LentCut<'_>) -> bool
        requires { is_prefix cut.zone.now cut.cut.now ≡ true }
        ensures { result ≡ (is_top self.now cut.entry.ns.now || has_glue self.now (cut_of cut.entry)) }
    {
        is_among(self.config().tops(), cut.ns) || self.has_glue(cut)
    }

    /// Whether the name server has glue in the referral: it is at or below the zone cut, and the referring zone holds an
    /// address of it.
    pub(crate) fn has_glue(&self, cut: LentCut<'_>) -> bool
        requires { is_prefix cut.zone.now cut.cut.now ≡ true }
        ensures { result ≡ has_glue self.now (cut_of cut.entry) }
    {
        if !cut.cut.is_prefix_of(cut.ns) {
            return false;
        }
        match self.held_zone(cut.server, cut.zone) {
            Some(tree) => has_address(tree, cut.ns),
            None => false,
        }
    }
}

/// Whether the zone holds an address of the name server of a zone cut, which is at or below the zone's origin. The
/// names that stand next behind the cut's are looked at first.
pub fn has_glue_below(tree: &Tree<'_>, cut: NodeId, ns: &Name) -> bool
    requires node { IsNode tree.now cut }
    requires inside { is_prefix tree.now.zone.origin ns.now ≡ true }
    ensures { result ≡ has_address tree.now.zone ns.now }
{
    match tree.node_near(cut, &ns.labels()) {
        Some(node) => owns_address(tree, node),
        None => false,
    }
}

/// Whether the name server of a zone cut is at or below it, and the zone holds no address of it.
pub(crate) fn lacks_glue(tree: &Tree<'_>, cut: NodeId, ns: &Name) -> bool
    requires node { IsNode tree.now cut }
    requires inside { is_prefix tree.now.zone.origin (name_of tree.now cut) ≡ true }
    ensures { result ≡ (is_prefix (name_of tree.now cut) ns.now && not (has_address tree.now.zone ns.now)) }
{
    if !tree.name(cut).is_prefix_of(ns) {
        return false;
    }
    !has_glue_below(tree, cut, ns)
}

/// Whether the name, which is at or below the origin, owns an address record.
pub(crate) fn has_address(tree: &Tree<'_>, name: &Name) -> bool
    requires { is_prefix tree.now.zone.origin name.now ≡ true }
    ensures { result ≡ has_address tree.now.zone name.now }
{
    match tree.node_at(name) {
        Some(node) => owns_address(tree, node),
        None => false,
    }
}

/// Whether a node's name owns an address record, so that a walk with the record's type ends in it.
pub(crate) fn owns_address(tree: &Tree<'_>, node: NodeId) -> bool
    requires { IsNode tree.now node }
    ensures owns { result ≡ has_address tree.now.zone (name_of tree.now node) }
    ensures gives { result ≡ (gives_address (records_leaf tree.now node types.A) || gives_address (records_leaf tree.now node types.Aaaa)) }
{
    let types = tree.types(node);
    types.has(RrType::A) || types.has(RrType::Aaaa)
}
