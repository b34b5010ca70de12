//! The comparison of two configurations: a work whose items are the names of their joint class tree.

ghost use Rattle.std.specs.Prelude.{◌≡◌, ◌∷◌, [], IfOk, IfSome};
ghost use Rattle.query_classes.specs.Children.{IsInTree};
ghost use Rattle.query_classes.specs.TreeNames.{IsLiveIn};
ghost use Rattle.query_verdicts.specs.Passed.{SomeNamePasses};
ghost use Rattle.query_verdicts.specs.Queries.{ServerPasses};
ghost use Rattle.query_verdicts.specs.Subjects.{RepresentsBelow};
ghost use Rattle.dns_data.specs.Name.{AreInOrder};
ghost use Rattle.dns_data.proofs.Names.{same_names};
ghost use Rattle.label_graph.specs.Pairs.{AreSame};
ghost use Rattle.net_model.specs.Reading.{joined_ground};
ghost use Rattle.same_answers.specs.Compared.{joint};
ghost use Rattle.same_answers.specs.Values.{ArePairValues};
ghost use Rattle.same_answers.specs.Verdict.{IsBelowEnd, IsPairEnd, IsPairVerdict, SomeServerPassesInOne};
ghost use Rattle.same_answers.specs.Passed.{SomeClassPassesInOne};

use crate::graph_found::{end_by_graphs, found_in};
use crate::naming::{JointGround, PairNaming};
use crate::straight::straight_end;
use crate::verdict::PairEnd;
use base_names::joint_base_graph;
use dns_data::{Name, NoMemory};
use label_graph::LabelGraph;
use net_model::Config;
use query_classes::{LiveName, TreeName};
use query_verdicts::{NameVerdict, QueryGraphs};
use std::alloc::Global;
use std::marker::{Model, PhantomData};
use verdict_book::{JudgeShare, Judged, Work};

/// The comparison of two configurations. Contracts see the two with the limits of their queries.
#[derive(Drop)]
pub struct Pairing<'a, N: PairNaming> {
    alloc: Global,
    first: QueryGraphs<'a>,
    second: QueryGraphs<'a>,
    names: LabelGraph,
    of: PhantomData<N>,
}

impl<'a, N: PairNaming> Model for Pairing<'a, N> {
    ghost use Rattle.same_answers.specs.Compared.{Compared};
    ghost use Rattle.same_answers.specs.Values.{IsPairing, compared_by};

    ghost Value = { Compared };

    ghost view = { λ pairing. compared_by pairing.first pairing.second };

    ghost invariant = { λ pairing. IsPairing N.compared N.children_of N.verdict_of pairing.first pairing.second pairing.names };
}

impl<'a, N: PairNaming + Send> Work for Pairing<'a, N> {
    type Item = TreeName<JointGround<N>>;

    type Verdict = NameVerdict<PairEnd>;

    ghost first_item = { [] };

    ghost children_of = { N.children_of };

    ghost verdict_of = { N.verdict_of };

    fn first(&self) -> Result<TreeName<JointGround<N>>, NoMemory> {
        TreeName::of_name(self.alloc, &self.names, &Name::root())
    }

    fn judge(
        &self,
        item: &TreeName<JointGround<N>>,
        share: &mut JudgeShare,
    ) -> Result<Judged<TreeName<JointGround<N>>, NameVerdict<PairEnd>>, NoMemory> {
        // The graph is read, so that what the work is made of is known here.
        let _ = &self.names;
        share.raise();
        let verdict = self.judge_name(item.live_name())?;
        let children = item.children(self.alloc, &self.names, false)?;
        Ok(Judged { verdict, children })
    }

    fn copy_item(
        &self,
        item: &TreeName<JointGround<N>>,
    ) -> Result<TreeName<JointGround<N>>, NoMemory> {
        item.copy(self.alloc)
    }

    ghost parents_apart = { N.apart };

    ghost equal_is_same = { same_names };
}

impl<'a, N: PairNaming> Pairing<'a, N> {
    /// The comparison of two configurations, in each of which a query may use this many rewrites, and of each of which no
    /// more pairs of state and type are looked at than the limit. The trees of all zones, the graph of each server's name
    /// and the graph of the base names of both are made here, once.
    pub fn prepare(
        alloc: Global,
        first: &'a Config,
        second: &'a Config,
        rewrites: u32,
        states: u32,
    ) -> Result<Pairing<'a, N>, NoMemory>
        requires first { first.now ≡ N.compared.first }
        requires second { second.now ≡ N.compared.second }
        requires rewrites { rewrites ≡ N.compared.rewrites }
        requires states { states ≡ N.compared.states }
        requires values { ArePairValues N.compared N.children_of N.verdict_of }
        ensures { IfOk result (λ pairing. pairing ≡ N.compared) }
    {
        let of_first = QueryGraphs::prepare(alloc, first, rewrites, states)?;
        let of_second = QueryGraphs::prepare(alloc, second, rewrites, states)?;
        let names = joint_names(alloc, &of_first, &of_second)?;
        Ok(Pairing {
            alloc,
            first: of_first,
            second: of_second,
            names,
            of: PhantomData,
        })
    }

    /// The verdict of a name of the class tree: of the class of the name alone, and of the class below it. The regions
    /// of the second query are searched from those of the first; `usize::MAX` means no hint.
    fn judge_name(&self, name: &LiveName) -> Result<NameVerdict<PairEnd>, NoMemory>
        requires live { IsLiveIn (joint N.compared) name.now.name name.now.live }
        requires in_tree { IsInTree (joint N.compared) name.now.name }
        ensures { IfOk result (IsPairVerdict N.compared name.now.name) }
    {
        let mut near = PairNear {
            first: usize::MAX,
            second: usize::MAX,
        };
        Ok(NameVerdict {
            exact: self.judge_class(&mut near, &name.name)?,
            below: self.judge_below(&mut near, name)?,
        })
    }

    /// The verdict of the class below a name of the class tree, or `None` where it is empty.
    fn judge_below(
        &self,
        near: &mut PairNear,
        above: &LiveName,
    ) -> Result<Option<PairEnd>, NoMemory>
        requires live { IsLiveIn (joint N.compared) above.now.name above.now.live }
        requires in_tree { IsInTree (joint N.compared) above.now.name }
        ensures { IfOk result (IsBelowEnd N.compared above.now.name) }
    {
        match self.representative_below(above)? {
            Some(query) => Ok(Some(self.judge_class(near, &query)?)),
            None => Ok(None),
        }
    }

    /// The verdict of the class that the query represents. Graphs are made where its walks aren't seen to go straight
    /// in both.
    fn judge_class(&self, near: &mut PairNear, query: &Name) -> Result<PairEnd, NoMemory>
        ensures { IfOk result (IsPairEnd N.compared query.now) }
    {
        match self.straight_class(near, query)? {
            Some(end) => Ok(end),
            None => self.class_by_graphs(query),
        }
    }

    /// The verdict of the class that the query represents where its walks are seen to go straight in both, or `None`.
    fn straight_class(&self, near: &mut PairNear, query: &Name) -> Result<Option<PairEnd>, NoMemory>
        ensures { IfOk result (λ found. IfSome found (IsPairEnd N.compared query.now)) }
    {
        let Some(first) = self.first.straight_ends(&mut near.first, query)? else {
            return Ok(None);
        };
        let Some(second) = self.second.straight_ends(&mut near.second, query)? else {
            return Ok(None);
        };
        Ok(Some(straight_end(&first, &second)))
    }

    /// The verdict of the class that the query represents, by the graphs of its walks.
    fn class_by_graphs(&self, query: &Name) -> Result<PairEnd, NoMemory>
        ensures { IfOk result (IsPairEnd N.compared query.now) }
    {
        let first = found_in(&self.first, query)?;
        let second = found_in(&self.second, query)?;
        end_by_graphs(self.alloc, &first, &second)
    }

    /// The representative of the class below a name of the class tree, or `None` where it is empty.
    pub(crate) fn representative_below(&self, above: &LiveName) -> Result<Option<Name>, NoMemory>
        requires live { IsLiveIn (joint N.compared) above.now.name above.now.live }
        requires in_tree { IsInTree (joint N.compared) above.now.name }
        ensures { IfOk result (RepresentsBelow (joint N.compared) above.now.name) }
    {
        above.below(self.alloc, &self.names)
    }

    /// Where no representative reaches more pairs of state and type than are looked at, no server's name does, since it
    /// would be in a class.
    pub(crate) fn servers_are_learnt(&self)
        requires { SomeClassPassesInOne N.compared → ⊥ }
        ensures { SomeServerPassesInOne N.compared → ⊥ }
    {
        servers_have_names(&self.first);
        servers_have_names(&self.second);
    }

    /// The memory from which the comparison takes; the children and the verdicts of its name are those of the joint
    /// class tree.
    pub(crate) fn alloc(&self) -> Global
        ensures { ArePairValues N.compared N.children_of N.verdict_of }
    {
        self.alloc
    }
}

impl<'a, N: PairNaming> Pairing<'a, N> {
    /// The graph of the base names of both configurations.
    pub fn base_names(&self) -> &LabelGraph
        ensures { AreSame result.now (joint N.compared) }
    {
        &self.names
    }
}

/// Places near which the regions of a query are looked for, in the one configuration and in the other.
#[derive(Drop)]
struct PairNear {
    first: usize,
    second: usize,
}

/// A server whose name reaches more pairs of state and type than are looked at has a name of at most 255 octets, as all
/// that are configured.
fn servers_have_names(graphs: &QueryGraphs<'_>)
    ensures { ServerPasses graphs.now → SomeNamePasses graphs.now.config graphs.now.rewrites graphs.now.states }
{
    // The sets are asked for, so that it is known here that a server that passes is a configured one.
    let _ = graphs.sets();
}

/// The graph of the base names of both configurations.
fn joint_names<'q, 'a>(
    alloc: Global,
    first: &'q QueryGraphs<'a>,
    second: &'q QueryGraphs<'a>,
) -> Result<LabelGraph, NoMemory>
    ensures same { IfOk result (λ graph. AreSame graph (joined_ground (first.now.config ∷ second.now.config ∷ []) [])) }
    ensures order { IfOk result (λ graph. AreInOrder graph.names) }
{
    let mut both = Vec::with_capacity(alloc, 2)?;
    both.push(first.hosts())?;
    both.push(second.hosts())?;
    joint_base_graph(alloc, both.as_slice(), &[])
}
