//! Trees of zones.

ghost use Rattle.std.specs.Prelude.{◌≡◌, ◌↔◌, ◌++◌, ◌∷◌, ◌≤◌, [], length, map, true, false, Contains, AllPairs, IsNone, IfNone, IfSome, IfOk};
ghost use Rattle.std.specs.Option.{option_map};
ghost use Rattle.std.specs.declared.cmp.Ordering.TheVariants.{Less};
ghost use Rattle.dns_data.specs.Name.{Labels, name_cmp, is_prefix};
ghost use Rattle.dns_data.specs.TypeSet.{has_bit};
ghost use Rattle.dns_data.specs.declared.rr_type.RrType.{RrType};
ghost use Rattle.dns_data.specs.declared.rr_type.RrType.TheVariants as rr_type;
ghost use Rattle.net_model.specs.Lookup.{first_name};
ghost use Rattle.net_model.specs.Order.{in_order};
ghost use Rattle.net_model.specs.Zone.{exists_in, owns, data_at, data_cmp, targets_at, ns_names, addresses};
ghost use Rattle.zone_tree.specs.FirstDecider.{first_decider};
ghost use Rattle.zone_tree.specs.Preceding.{IsPreceding};
ghost use Rattle.zone_tree.specs.Records.{data_of, TellsData};
ghost use Rattle.zone_tree.specs.Tree.{IsNode, name_of};

use crate::first_deciders::first_deciders;
use crate::names::existing_names;
use crate::node::NodeId;
use crate::order::merged;
use crate::owned_data::{Owned, OwnedData};
use crate::owners::records_by_name;
use crate::preceding::Preceding;
use crate::records::target_of;
use crate::runs::runs_in_order;
use dns_data::{Label, Labels, List, Name, NoMemory, Rdata, RrType, TypeSet};
use name_table::NameTable;
use net_model::Zone;
use std::alloc::Global;
use std::marker::Model;
use std::sync::Arc;

/// The existing names of a zone, in order, each with what it owns and with the first name from the origin down to it that
/// decides at those below it (RFC 1034 section 4.2, RFC 4592 section 2.2.2).
#[derive(Debug, Drop)]
pub struct Tree<'a> {
    zone: &'a Zone,
    nodes: Arc<Nodes<'a>>,
}

/// What the nodes of a tree stand for. Several trees of one zone have it in one place of memory.
#[derive(Debug, Drop)]
struct Nodes<'a> {
    names: NameTable,
    records: OwnedData<'a>,
    first_deciders: Vec<NodeId>,
}

impl<'a> Model for Tree<'a> {
    ghost use Rattle.zone_tree.specs.Tree.{ZoneTree};

    ghost Value = { ZoneTree };

    ghost use Rattle.std.specs.Arc.{arc_value};

    ghost view = { λ tree. record { zone = tree.zone.now; names = (arc_value tree.nodes).names } };

    ghost use Rattle.zone_tree.specs.FirstDecider.{AreFirstDeciders};
    ghost use Rattle.zone_tree.specs.Records.{IsTree};

    ghost invariant = { λ tree. IsTree tree.zone.now (arc_value tree.nodes).names (arc_value tree.nodes).records
        × AreFirstDeciders tree.zone.now (arc_value tree.nodes).names (arc_value tree.nodes).first_deciders.items };
}

impl<'a> Tree<'a> {
    /// The tree of a zone.
    pub fn build(alloc: Global, zone: &'a Zone) -> Result<Tree<'a>, NoMemory>
        ensures { IfOk result (λ tree. tree.zone ≡ zone.now) }
    {
        let sorted = runs_in_order(alloc, zone)?;
        let runs = sorted.as_slice();
        let names = existing_names(alloc, zone, runs)?;
        let records = records_by_name(alloc, names.as_slice(), runs)?;
        let first_deciders = first_deciders(alloc, zone, names.as_slice(), &records)?;
        let table = NameTable::of(alloc, names)?;
        let nodes = Arc::new(
            alloc,
            Nodes {
                names: table,
                records,
                first_deciders,
            },
        )?;
        Ok(Tree { zone, nodes })
    }

    /// The same tree once more. What it keeps of its zone stands in one place of memory with this one.
    pub fn again(&self) -> Result<Tree<'a>, NoMemory>
        ensures { IfOk result (λ tree. tree ≡ self.now) }
    {
        let nodes = Arc::try_clone(&self.nodes)?;
        Ok(Tree {
            zone: self.zone,
            nodes,
        })
    }

    /// The zone. Of its existing names, and of them alone, the tree has each once.
    pub fn zone(&self) -> &'a Zone
        ensures zone { result.now ≡ self.now.zone }
        ensures names { (name : Labels) → Contains self.now.names name ↔ (exists_in self.now.zone name ≡ true) }
        ensures once { AllPairs (λ a b. name_cmp a b ≡ Less) self.now.names }
    {
        self.zone
    }

    /// The existing names of the zone, in order.
    pub fn names(&self) -> &[Name]
        ensures { result.now ≡ self.now.names }
    {
        self.nodes.names.names()
    }

    /// The node of the origin.
    pub fn apex(&self) -> NodeId
        ensures node { IsNode self.now result }
        ensures name { name_of self.now result ≡ self.now.zone.origin }
    {
        // The names are read, so that it is known here that there is one.
        let _ = self.nodes.names.names();
        NodeId::at(0)
    }

    /// The name that a node stands for.
    pub fn name(&self, node: NodeId) -> &Name
        requires { IsNode self.now node }
        ensures { result.now ≡ name_of self.now node }
    {
        &self.nodes.names.names()[node.place()]
    }

    /// The node of a name, or `None` where the name doesn't exist in the zone.
    pub fn node_at(&self, name: &Name) -> Option<NodeId>
        ensures node { IfSome result (IsNode self.now) }
        ensures name { IfSome result (λ node. name_of self.now node ≡ name.now) }
        ensures none { IsNone result ↔ (exists_in self.now.zone name.now ≡ false) }
    {
        self.node_of(&name.labels())
    }

    /// The node of the existing name at a place, in order and counted from 0, or `None` behind the last one.
    pub fn node_in(&self, place: usize) -> Option<NodeId>
        ensures some { IfSome result (λ node. (node ≡ place) × IsNode self.now node) }
        ensures none { IfNone result (length self.now.names ≤ place) }
    {
        if place < self.nodes.names.names().len() {
            Some(NodeId::at(place))
        } else {
            None
        }
    }

    /// The node of the name with these labels, or `None` where that name doesn't exist in the zone.
    pub(crate) fn node_of(&self, labels: &Labels<'_>) -> Option<NodeId>
        ensures node { IfSome result (IsNode self.now) }
        ensures name { IfSome result (λ node. name_of self.now node ≡ labels.now) }
        ensures none { IsNone result ↔ (exists_in self.now.zone labels.now ≡ false) }
    {
        let place = self.nodes.names.place_of(labels)?;
        Some(NodeId::at(place))
    }

    /// The node of the name with these labels, or `None` where that name doesn't exist in the zone. The next few names
    /// behind the node's are looked at first: a name below another mostly stands there.
    pub fn node_near(&self, node: NodeId, labels: &Labels<'_>) -> Option<NodeId>
        requires { IsNode self.now node }
        ensures node { IfSome result (IsNode self.now) }
        ensures name { IfSome result (λ near. name_of self.now near ≡ labels.now) }
        ensures none { IsNone result ↔ (exists_in self.now.zone labels.now ≡ false) }
    {
        match self.nodes.names.place_behind(node.place(), labels) {
            Some(place) => Some(NodeId::at(place)),
            None => self.node_of(labels),
        }
    }

    /// The node of the last existing name that doesn't stand behind a name at or below the origin, and with how many labels
    /// both begin: those of the name's closest encloser.
    pub(crate) fn preceding(&self, name: &Name) -> Preceding
        requires { is_prefix self.now.zone.origin name.now ≡ true }
        ensures { IsPreceding self.now name.now result }
    {
        let labels = name.labels();
        let table = &self.nodes.names;
        let place = table.last_up_to(&labels);
        let names = table.names();
        Preceding {
            node: NodeId::at(place),
            shared: names[place].labels().common_len(&labels) as usize,
        }
    }

    /// The node of the first name from the origin down to a node's that decides at those below it, or that of the origin
    /// where none does.
    pub(crate) fn first_decider(&self, node: NodeId) -> NodeId
        requires { IsNode self.now node }
        ensures node { IsNode self.now result }
        ensures name { name_of self.now result ≡ first_decider self.now.zone (name_of self.now node) }
    {
        self.nodes.first_deciders[node.place()]
    }

    /// The node of the name with this label directly below a node's name, or `None` where that name doesn't exist in
    /// the zone.
    pub fn child(&self, node: NodeId, label: &Label) -> Option<NodeId>
        requires { IsNode self.now node }
        ensures node { IfSome result (IsNode self.now) }
        ensures name { IfSome result (λ child. name_of self.now child ≡ name_of self.now node ++ label.now ∷ []) }
        ensures none { IsNone result ↔ (exists_in self.now.zone (name_of self.now node ++ label.now ∷ []) ≡ false) }
    {
        self.child_with(node, label.items())
    }

    /// The node of the name with the label of these octets directly below a node's name, or `None` where that name doesn't
    /// exist in the zone.
    pub(crate) fn child_with(&self, node: NodeId, label: &[u8]) -> Option<NodeId>
        requires { IsNode self.now node }
        ensures node { IfSome result (IsNode self.now) }
        ensures name { IfSome result (λ child. name_of self.now child ≡ name_of self.now node ++ label.now ∷ []) }
        ensures none { IsNone result ↔ (exists_in self.now.zone (name_of self.now node ++ label.now ∷ []) ≡ false) }
    {
        let place = self.nodes.names.child(node.place(), label)?;
        Some(NodeId::at(place))
    }

    /// The types of which a node's name owns records.
    pub fn types(&self, node: NodeId) -> TypeSet
        requires { IsNode self.now node }
        ensures { (rtype : RrType) → has_bit result rtype ≡ owns self.now.zone (name_of self.now node) rtype }
    {
        self.records(node).types()
    }

    /// The data of a type that a node's name owns, in the order of their texts, each once.
    pub fn set(&self, node: NodeId, t: RrType) -> &[Rdata]
        requires { IsNode self.now node }
        ensures { result.now ≡ in_order data_cmp (data_at self.now.zone (name_of self.now node) t) }
    {
        self.records(node).set(t)
    }

    /// The addresses of both types that a node's name owns, in the order of their texts, each once.
    pub fn addresses(&self, alloc: Global, node: NodeId) -> Result<List<Rdata>, NoMemory>
        requires { IsNode self.now node }
        ensures { IfOk result (λ all. all ≡ addresses self.now.zone (name_of self.now node)) }
    {
        merged(
            alloc,
            self.set(node, RrType::A),
            self.set(node, RrType::Aaaa),
        )
    }

    /// The target of the CNAME record that a node's name owns, the first in file order.
    pub fn alias(&self, node: NodeId) -> Option<&'a Name>
        requires { IsNode self.now node }
        ensures { option_map (λ target. target.now) result ≡ first_name (targets_at self.now.zone (name_of self.now node) rr_type.Cname) }
    {
        target_of(self.records(node).first(RrType::Cname)?)
    }

    /// The target of the DNAME record that a node's name owns, the first in file order.
    pub fn redirection(&self, node: NodeId) -> Option<&'a Name>
        requires { IsNode self.now node }
        ensures { option_map (λ target. target.now) result ≡ first_name (targets_at self.now.zone (name_of self.now node) rr_type.Dname) }
    {
        target_of(self.records(node).first(RrType::Dname)?)
    }

    /// The names of the name servers that a node's name owns, in the order of names.
    pub fn name_servers(&self, node: NodeId) -> &[&'a Name]
        requires { IsNode self.now node }
        ensures { map (λ server. server.now) result.now ≡ ns_names self.now.zone (name_of self.now node) }
    {
        self.records(node).servers()
    }

    /// What tells of all data of a node's name.
    fn records(&self, node: NodeId) -> Owned<'_, 'a>
        requires { IsNode self.now node }
        ensures { TellsData (data_of self.now.zone.rrs (name_of self.now node)) result }
    {
        self.nodes.records.at(node.place())
    }
}
