//! What servers answer to a query.

ghost use Rattle.std.specs.Prelude.{◌≡◌, ◌||◌, true, not, is_some, Some, None, IfSome, option_map};
ghost use Rattle.dns_data.specs.TypeSet.{has_bit};
ghost use Rattle.dns_data.specs.declared.rr_type.RrType.{RrType as RrTypeValue};
ghost use Rattle.graph_form.specs.FirstPath.{answer_eq};
ghost use Rattle.net_model.specs.Zone.{owns};
ghost use Rattle.straight_walks.specs.Answers.{IsLast, alias_answering, answering_by, last_owner, outcome_with, owner_leaf, owner_with, sorted_data, zone_owner};
ghost use Rattle.straight_walks.specs.Ends.{outcomes_alike};
ghost use Rattle.zone_tree.specs.Tree.{IsNode, name_of};

use dns_data::{Rdata, RrType, TypeSet};
use std::marker::Model;
use zone_tree::{NodeId, Tree};

/// An owner in a zone, whose data the zone answers, or none: it answers that there is no such name then. Contracts see
/// the zone and the owner's name.
#[derive(Drop)]
struct Owner<'h, 'a> {
    tree: &'h Tree<'a>,
    owner: Option<NodeId>,
}

impl<'h, 'a> Model for Owner<'h, 'a> {
    ghost use Rattle.std.specs.Prelude.{IfSome};
    ghost use Rattle.straight_walks.specs.Answers.{ZoneOwner, zone_owner};
    ghost use Rattle.zone_tree.specs.Tree.{IsNode};

    ghost Value = { ZoneOwner };

    ghost view = { λ at. zone_owner at.tree.now at.owner };

    ghost invariant = { λ at. IfSome at.owner (IsNode at.tree.now) };
}

impl<'h, 'a> Owner<'h, 'a> {
    /// The owner of this node.
    fn of_node(tree: &'h Tree<'a>, owner: NodeId) -> Owner<'h, 'a>
        requires { IsNode tree.now owner }
        ensures { result ≡ zone_owner tree.now (Some owner) }
    {
        Owner {
            tree,
            owner: Some(owner),
        }
    }

    /// No owner in the zone.
    fn of_nothing(tree: &'h Tree<'a>) -> Owner<'h, 'a>
        ensures { result ≡ zone_owner tree.now None }
    {
        Owner { tree, owner: None }
    }

    /// The last owner to which aliases lead.
    fn of_last(last: &LastOwner<'h, 'a>) -> Owner<'h, 'a>
        requires { IsLast last.now }
        ensures { result ≡ last_owner last.now }
    {
        Owner {
            tree: last.tree,
            owner: last.owner,
        }
    }

    /// Whether both zones answer the same with each type.
    fn is_same(&self, other: &Owner<'_, '_>) -> bool
        ensures { result ≡ true → (rtype : RrTypeValue) → owner_leaf self.now rtype ≡ owner_leaf other.now rtype }
    {
        match (self.owner, other.owner) {
            (Some(owner), Some(others)) => same_data(self.tree, owner, other.tree, others),
            (None, None) => true,
            _ => false,
        }
    }

    /// Whether both zones answer the same with the type.
    fn is_same_with(&self, other: &Owner<'_, '_>, rtype: RrType) -> bool
        ensures { result ≡ answer_eq (owner_leaf self.now rtype) (owner_leaf other.now rtype) }
    {
        match (self.data(rtype), other.data(rtype)) {
            (Some(found), Some(others)) => found == others,
            (None, None) => true,
            _ => false,
        }
    }

    /// The data of the type, or `None` where there is no such name.
    fn data(&self, rtype: RrType) -> Option<&[Rdata]>
        ensures { option_map (λ found. found.now) result ≡ option_map (λ owner. sorted_data self.now.zone owner rtype) self.now.owner }
    {
        match self.owner {
            Some(owner) => Some(self.tree.set(owner, rtype)),
            None => None,
        }
    }
}

/// Whether both nodes' names own the same data. Those of types of which neither owns any aren't looked for.
fn same_data(one: &Tree<'_>, owner: NodeId, other: &Tree<'_>, others: NodeId) -> bool
    requires owner { IsNode one.now owner }
    requires others { IsNode other.now others }
    ensures { result ≡ true → (rtype : RrTypeValue) → sorted_data one.now.zone (name_of one.now owner) rtype ≡ sorted_data other.now.zone (name_of other.now others) rtype }
{
    let types = one.types(owner).union(other.types(others));
    for rtype in RrType::ALL.iter() {
        if !same_of_type(one, owner, other, others, types, *rtype) {
            return false;
        }
    }
    true
}

/// Whether both nodes' names own the same data of a type, where these are the types of which either owns any.
fn same_of_type(
    one: &Tree<'_>,
    owner: NodeId,
    other: &Tree<'_>,
    others: NodeId,
    types: TypeSet,
    rtype: RrType,
) -> bool
    requires owner { IsNode one.now owner }
    requires others { IsNode other.now others }
    requires types { (t : RrTypeValue) → has_bit types t ≡ (owns one.now.zone (name_of one.now owner) t || owns other.now.zone (name_of other.now others) t) }
    ensures { result ≡ true → sorted_data one.now.zone (name_of one.now owner) rtype ≡ sorted_data other.now.zone (name_of other.now others) rtype }
{
    if !types.has(rtype) {
        return true;
    }
    one.set(owner, rtype) == other.set(others, rtype)
}

/// The last owner to which aliases lead in a zone, or none where the zone has no such name.
#[derive(Clone, Copy)]
pub(crate) struct LastOwner<'h, 'a> {
    pub tree: &'h Tree<'a>,
    pub owner: Option<NodeId>,
}

/// Whether both last owners' zones answer the same with each type, or walks fail at both.
fn same_last(one: &Option<Owner<'_, '_>>, other: &Option<Owner<'_, '_>>) -> bool
    ensures { result ≡ true → (rtype : RrTypeValue)
        → option_map (λ at. owner_leaf at rtype) one.now ≡ option_map (λ at. owner_leaf at rtype) other.now }
{
    match (one, other) {
        (Some(one), Some(other)) => one.is_same(other),
        (None, None) => true,
        _ => false,
    }
}

/// What a server answers to a query with each type: the data of an owner, or that there is no such name. Where the name
/// is an alias its own data are answered with type CNAME, and with each other type those to which its aliases lead; if
/// walks fail there, none is. Contracts see the zones and the owners' names.
#[derive(Drop)]
pub struct ZoneAnswer<'h, 'a> {
    own: Owner<'h, 'a>,
    last: Option<Owner<'h, 'a>>,
}

impl<'h, 'a> Model for ZoneAnswer<'h, 'a> {
    ghost use Rattle.straight_walks.specs.Answers.{AnswerOwners};

    ghost Value = { AnswerOwners };

    ghost view = { λ answer. record { own = answer.own; last = answer.last } };
}

impl<'h, 'a> ZoneAnswer<'h, 'a> {
    /// That the zone has the data of this owner.
    pub(crate) fn of_owner(tree: &'h Tree<'a>, owner: NodeId) -> ZoneAnswer<'h, 'a>
        requires { IsNode tree.now owner }
        ensures { result ≡ answering_by tree.now (Some owner) }
    {
        ZoneAnswer {
            own: Owner::of_node(tree, owner),
            last: Some(Owner::of_node(tree, owner)),
        }
    }

    /// That this owner's name is an alias, and that aliases lead from it to the last owner, or without one to failure.
    pub(crate) fn of_alias(
        tree: &'h Tree<'a>,
        owner: NodeId,
        last: &Option<LastOwner<'h, 'a>>,
    ) -> ZoneAnswer<'h, 'a>
        requires node { IsNode tree.now owner }
        requires last { IfSome last.now IsLast }
        ensures { result ≡ alias_answering tree.now owner (option_map last_owner last.now) }
    {
        match last {
            Some(last) => ZoneAnswer {
                own: Owner::of_node(tree, owner),
                last: Some(Owner::of_last(last)),
            },
            None => ZoneAnswer {
                own: Owner::of_node(tree, owner),
                last: None,
            },
        }
    }

    /// That there is no such name in the zone.
    pub(crate) fn of_nothing(tree: &'h Tree<'a>) -> ZoneAnswer<'h, 'a>
        ensures { result ≡ answering_by tree.now None }
    {
        ZoneAnswer {
            own: Owner::of_nothing(tree),
            last: Some(Owner::of_nothing(tree)),
        }
    }

    /// Whether both servers are seen to answer the same with each type.
    pub(crate) fn is_same(&self, other: &ZoneAnswer<'_, '_>) -> bool
        ensures { result ≡ true → (rtype : RrTypeValue) → outcome_with self.now rtype ≡ outcome_with other.now rtype }
    {
        self.is_same_with(other, RrType::Cname) && same_last(&self.last, &other.last)
    }

    /// Whether both servers answer the same with the type, or walks fail at both.
    pub(crate) fn is_same_with(&self, other: &ZoneAnswer<'_, '_>, rtype: RrType) -> bool
        ensures { result ≡ outcomes_alike (outcome_with self.now rtype) (outcome_with other.now rtype) }
    {
        match (self.owner_with(rtype), other.owner_with(rtype)) {
            (Some(one), Some(other)) => one.is_same_with(other, rtype),
            (None, None) => true,
            _ => false,
        }
    }

    /// Whether walks with the type fail.
    pub(crate) fn fails_with(&self, rtype: RrType) -> bool
        ensures { result ≡ not (is_some (outcome_with self.now rtype)) }
    {
        self.owner_with(rtype).is_none()
    }

    /// The owner whose data are answered with the type, or `None` where walks fail.
    fn owner_with(&self, rtype: RrType) -> Option<&Owner<'h, 'a>>
        ensures { option_map (λ owner. owner.now) result ≡ owner_with self.now rtype }
    {
        if rtype.number() == RrType::Cname.number() {
            Some(&self.own)
        } else {
            self.last.as_ref()
        }
    }
}
