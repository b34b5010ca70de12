//! Names of the class tree, as the items of a work.

ghost use Rattle.std.specs.Prelude.{◌≡◌, true, map, All, IfOk};
ghost use Rattle.query_classes.specs.TreeNames.{AreBaseNamesOf, IsLiveIn, HoldsBelow, IsTreeName};
ghost use Rattle.query_classes.specs.Children.{AreChildren};

use crate::live_name::LiveName;
use crate::on_ground::OnGround;
use dns_data::{List, Name, NoMemory};
use label_graph::LabelGraph;
use std::alloc::Global;
use std::cmp::Ordering;
use std::marker::{Model, PhantomData};

/// A name of the class tree of a ground with its live set, so that it isn't walked to again, and with a mark, where what
/// may hold of names holds of each name at or below it. Contracts see the name, and names are ordered as `Name` orders
/// them.
#[derive(Drop)]
pub struct TreeName<G: OnGround> {
    found: LiveName,
    all_hold: bool,
    of: PhantomData<G>,
}

impl<G: OnGround> Model for TreeName<G> {
    ghost use Rattle.query_classes.specs.TreeNames.{IsTreeName};
    ghost use Rattle.dns_data.specs.Name.{Labels};

    ghost Value = { Labels };

    ghost view = { λ item. item.found.name };

    ghost invariant = { λ item. IsTreeName G.ground G.holds item.all_hold item.found };
}

impl<G: OnGround> TreeName<G> {
    /// The name with its live set, found from the root down, without the mark.
    pub fn of_name(alloc: Global, graph: &LabelGraph, name: &Name) -> Result<TreeName<G>, NoMemory>
        requires { AreBaseNamesOf G.ground graph.now }
        ensures { IfOk result (λ item. item ≡ name.now) }
    {
        let found = LiveName::of(alloc, graph, name)?;
        Ok(TreeName::of(found, false))
    }

    /// The item of a name with its live set, and with the mark where that is said.
    fn of(found: LiveName, all_hold: bool) -> TreeName<G>
        requires { IsTreeName G.ground G.holds all_hold found }
        ensures { result ≡ found.name }
    {
        TreeName {
            found,
            all_hold,
            of: PhantomData,
        }
    }

    /// The name with its live set.
    pub fn live_name(&self) -> &LiveName
        ensures name { result.now.name ≡ self.now }
        ensures live { IsLiveIn G.ground result.now.name result.now.live }
    {
        &self.found
    }

    /// Whether it has the mark: what may hold of names holds of each name at or below it.
    pub fn holds_below(&self) -> bool
        ensures { result ≡ true → HoldsBelow G.holds self.now }
    {
        self.all_hold
    }

    /// The names of the class tree one label below, in order, all with the mark where that is said.
    pub fn children(
        &self,
        alloc: Global,
        graph: &LabelGraph,
        all_hold: bool,
    ) -> Result<List<TreeName<G>>, NoMemory>
        requires base { AreBaseNamesOf G.ground graph.now }
        requires hold { all_hold ≡ true → HoldsBelow G.holds self.now }
        ensures { IfOk result (AreChildren G.ground self.now) }
    {
        let found = self.found.children(alloc, graph)?;
        items_of(alloc, found, all_hold)
    }

    /// An equal item, with the mark where this one has it.
    pub fn copy(&self, alloc: Global) -> Result<TreeName<G>, NoMemory>
        ensures { IfOk result (λ copy. copy ≡ self.now) }
    {
        let name = self.found.name.copy(alloc)?;
        let live = self.found.live.copy(alloc)?;
        Ok(TreeName::of(LiveName { name, live }, self.all_hold))
    }

    /// The name alone.
    pub fn into_name(self) -> Name
        ensures { result ≡ self }
    {
        let TreeName { found, .. } = self;
        let LiveName { name, .. } = found;
        name
    }
}

/// Names with their live sets, as items, all with the mark where that is said.
fn items_of<G: OnGround>(
    alloc: Global,
    found: List<LiveName>,
    all_hold: bool,
) -> Result<List<TreeName<G>>, NoMemory>
    requires { All (IsTreeName G.ground G.holds all_hold) found }
    ensures { IfOk result (λ items. items ≡ map (λ one. one.name) found) }
{
    let mut items = Vec::with_capacity(alloc, found.len())?;
    for one in found {
        items.push(TreeName::of(one, all_hold))?;
    }
    Ok(List::from_vec(items))
}

impl<G: OnGround> PartialEq for TreeName<G> {
    ghost use Rattle.std.specs.Cmp.Lexicographic.{nat_list_eq_equiv, lists_equiv};
    ghost use Rattle.std.specs.Cmp.{partial_equiv_from_equiv};
    ghost use Rattle.dns_data.specs.Name.{name_eq};

    ghost eq = { name_eq };

    ghost laws = { partial_equiv_from_equiv (lists_equiv nat_list_eq_equiv) };

    fn eq(&self, other: &TreeName<G>) -> bool {
        self.found.name == other.found.name
    }
}

impl<G: OnGround> Eq for TreeName<G> {
    ghost use Rattle.std.specs.Cmp.Lexicographic.{nat_list_eq_equiv, lists_equiv};

    ghost laws = { lists_equiv nat_list_eq_equiv };
}

impl<G: OnGround> PartialOrd for TreeName<G> {
    ghost use Rattle.std.specs.Prelude.{Some};
    ghost use Rattle.dns_data.specs.Name.{name_cmp};
    ghost use Rattle.dns_data.specs.NameOrder.{names_po};

    ghost partial_cmp = { λ a b. Some (name_cmp a b) };

    ghost laws = { names_po };

    fn partial_cmp(&self, other: &TreeName<G>) -> Option<Ordering> {
        Some(self.cmp(other))
    }
}

impl<G: OnGround> Ord for TreeName<G> {
    ghost use Rattle.std.specs.Prelude.{refl};
    ghost use Rattle.std.specs.Cmp.Lexicographic.{nat_list_cmp_total, lists_total, texts_ties, lists_ties};
    ghost use Rattle.dns_data.specs.Label.{label_cmp};
    ghost use Rattle.dns_data.specs.Name.{name_cmp};

    ghost cmp = { name_cmp };

    ghost total = { lists_total nat_list_cmp_total };

    ghost matches_partial_cmp = { λ _ _. refl };

    ghost matches_eq = { lists_ties label_cmp texts_ties };

    fn cmp(&self, other: &TreeName<G>) -> Ordering {
        self.found.name.compare(&other.found.name)
    }
}
