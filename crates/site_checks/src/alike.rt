//! Types that go the same way everywhere in a graph.

ghost use Rattle.std.specs.Prelude.{◌≡◌, ◌++◌, true, map, OnOk};
ghost use Rattle.std.specs.List.{find};
ghost use Rattle.std.specs.Option.{option_copied};
ghost use Rattle.dns_data.specs.TypeSet.{has_bit};
ghost use Rattle.dns_data.specs.declared.rr_type.RrType.{RrType as TypeOf};
ghost use Rattle.graph_form.specs.Graph.{branches_of};
ghost use Rattle.site_checks.specs.AlikeEnds.{GoAlike, retyped};

use crate::views::TypedEnd;
use dns_data::{List, NoMemory, RrType, TypeSet};
use graph_form::{Arm, Graph, Node};
use std::alloc::Global;

/// The ends of all paths with each of these types: each once and where it comes first, told with one of the types.
#[derive(Drop)]
pub(crate) struct AlikeEnds {
    pub types: TypeSet,
    pub ends: List<TypedEnd>,
}

/// The first ones that are told of the type, or `None`.
pub(crate) fn of_type(known: &[AlikeEnds], rtype: RrType) -> Option<&AlikeEnds>
    ensures { option_copied result ≡ find (λ alike. has_bit alike.types rtype) known.now }
{
    known.iter().find(|alike| alike.types.has(rtype))
}

/// Puts ends behind the others, with the type.
pub(crate) fn put_again(
    alloc: Global,
    found: &[TypedEnd],
    rtype: RrType,
    ends: &mut List<TypedEnd>,
) -> Result<(), NoMemory>
    ensures { OnOk result (ends.new ≡ ends.old ++ map (retyped rtype) found.now) }
{
    for end in found {
        ends.push(TypedEnd {
            rtype,
            server: end.server.copy(alloc)?,
            leaf: end.leaf.copy(alloc)?,
        })?;
    }
    Ok(())
}

/// Types that go the same way as this one at each node of the graph, itself among them.
pub(crate) fn types_as(graph: &Graph, rtype: RrType) -> TypeSet
    ensures { (other : TypeOf) → has_bit result other ≡ true → GoAlike graph.now rtype other }
{
    let mut alike = TypeSet::all();
    for at in 0..graph.nodes() {
        alike = alike_at(graph.node(at), rtype, alike);
    }
    alike
}

/// Those of the types that go the same way as this one at the node.
fn alike_at(node: &Node, rtype: RrType, types: TypeSet) -> TypeSet
    ensures { (other : TypeOf) → has_bit result other ≡ true → (has_bit types other ≡ true) × (branches_of node.now rtype ≡ branches_of node.now other) }
{
    let mut alike = types;
    for arm in node.arms.items() {
        alike = alike_in(arm, rtype, alike);
    }
    alike
}

/// Those of the types that the arm has, if it has this one; else those that it hasn't.
fn alike_in(arm: &Arm, rtype: RrType, types: TypeSet) -> TypeSet
    ensures { (other : TypeOf) → has_bit result other ≡ true → (has_bit types other ≡ true) × (has_bit arm.now.types rtype ≡ has_bit arm.now.types other) }
{
    let others = types.minus(arm.types);
    if arm.types.has(rtype) {
        types.minus(others)
    } else {
        others
    }
}
