//! With which types the paths of a graph come to its nodes while only some servers are followed.

ghost use Rattle.std.specs.Prelude.{◌≡◌, ◌<◌, ◌&&◌, ℕ, List, true, false, length, IfOk};
ghost use Rattle.dns_data.specs.TypeSet.{has_bit};
ghost use Rattle.dns_data.specs.declared.rr_type.RrType.{RrType};
ghost use Rattle.interp_graph.specs.Restricted.{AreClosed, AreReached, AreSound, ArmLeads, BranchLeads, ForOne, Gains, has_type, many_types, shut_of};

use crate::limits::Limits;
use dns_data::{NoMemory, TypeSet};
use graph_form::{Arm, Branch, Graph};
use std::alloc::Global;

/// The types of each node so far, and whether a node gained one in this pass.
#[derive(Drop)]
pub(crate) struct Reaching {
    pub sets: Vec<TypeSet>,
    pub more: bool,
}

/// For each node of a graph the types with which a path comes to it from a start. The nodes are passed over until none
/// gains a type.
pub(crate) fn types_reached(
    alloc: Global,
    limits: &Limits<'_, '_>,
    graph: &Graph,
) -> Result<Vec<TypeSet>, NoMemory>
    ensures { IfOk result (λ sets. AreReached (shut_of limits.now) graph.now.nodes graph.now.starts sets.items) }
{
    let sets = vec![in alloc; TypeSet::empty(); graph.nodes() as usize]?;
    let mut reaching = Reaching { sets, more: false };
    reaching.begin(graph.starts());
    while reaching.pass(limits, graph) {}
    Ok(reaching.sets)
}

impl Reaching {
    /// Gives all types to the nodes with these numbers.
    fn begin(&mut self, starts: &[u32])
        ensures { Gains (ForOne (λ start at rtype. at ≡ start) starts.now) self.old self.new }
    {
        for at in starts {
            self.gain(*at, TypeSet::all());
        }
    }

    /// Gives each node the types with which an arm of another leads to it; tells whether one gained a type.
    fn pass(&mut self, limits: &Limits<'_, '_>, graph: &Graph) -> bool
        requires { length self.old.sets.items ≡ length graph.now.nodes }
        ensures many { length self.new.sets.items ≡ length graph.now.nodes }
        ensures keeps { (at : ℕ) (rtype : RrType) → has_type self.old.sets.items at rtype ≡ true → has_type self.new.sets.items at rtype ≡ true }
        ensures sound { (starts : List ℕ) → AreSound (shut_of limits.now) graph.now.nodes starts self.old.sets.items
            → AreSound (shut_of limits.now) graph.now.nodes starts self.new.sets.items }
        ensures closed { result ≡ false → AreClosed (shut_of limits.now) graph.now.nodes self.new.sets.items }
        ensures fewer { result ≡ true → many_types self.old.sets.items < many_types self.new.sets.items }
    {
        self.more = false;
        for at in 0..graph.nodes() {
            let types = self.sets[at as usize];
            self.lead(limits, graph.node(at).arms.items(), types);
        }
        self.more
    }

    /// Gives those of the types that arms have to the nodes to which they lead.
    fn lead(&mut self, limits: &Limits<'_, '_>, arms: &[Arm], types: TypeSet)
        ensures { Gains (ForOne (ArmLeads (shut_of limits.now) types) arms.now) self.old self.new }
    {
        for arm in arms {
            self.lead_by(limits, arm.branches.items(), common(types, arm.types));
        }
    }

    /// Gives the types to the nodes to which branches lead.
    fn lead_by(&mut self, limits: &Limits<'_, '_>, branches: &[Branch], types: TypeSet)
        ensures { Gains (ForOne (BranchLeads (shut_of limits.now) types) branches.now) self.old self.new }
    {
        if types.first().is_none() {
            return;
        }
        for branch in branches {
            self.lead_on(limits, branch, types);
        }
    }

    /// Gives the types to the node to which the branch leads, if it doesn't end. It isn't asked whether the hop's name
    /// server may be followed where the node has the types already.
    fn lead_on(&mut self, limits: &Limits<'_, '_>, branch: &Branch, types: TypeSet)
        ensures { Gains (BranchLeads (shut_of limits.now) types branch.now) self.old self.new }
    {
        if let Branch::Go { hop, to } = branch {
            if self.lacks(*to, types) && limits.unknown(hop.get()).is_none() {
                self.gain(*to, types);
            }
        }
    }

    /// Whether the node, if there is one with this number, lacks one of the types.
    fn lacks(&self, at: u32, types: TypeSet) -> bool
        ensures all { result ≡ false → (rtype : RrType) → has_bit types rtype ≡ true → at < length self.now.sets.items → has_type self.now.sets.items at rtype ≡ true }
        ensures some { result ≡ true → (rtype : RrType) × (has_bit types rtype ≡ true) × (at < length self.now.sets.items) × (has_type self.now.sets.items at rtype ≡ false) }
    {
        if at as usize >= self.sets.len() {
            return false;
        }
        types.minus(self.sets[at as usize]).first().is_some()
    }

    /// Gives the types to the node, if there is one with this number.
    fn gain(&mut self, at: u32, types: TypeSet)
        ensures { Gains (λ other rtype. (other ≡ at) × (has_bit types rtype ≡ true)) self.old self.new }
    {
        if self.lacks(at, types) {
            let had = self.sets[at as usize];
            self.sets[at as usize] = had.union(types);
            self.more = true;
        }
    }
}

/// The types that both sets have.
pub(crate) fn common(some: TypeSet, others: TypeSet) -> TypeSet
    ensures { (rtype : RrType) → has_bit result rtype ≡ (has_bit some rtype && has_bit others rtype) }
{
    some.minus(some.minus(others))
}
