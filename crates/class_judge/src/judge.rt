//! The judge of the class tree of a subject: a work whose items are the names of the tree at or below the subject's name.

ghost use Rattle.std.specs.Prelude.{◌≡◌, ◌<◌, ◌^◌, length, IfOk, IfErr, IfSome, OnOk};
ghost use Rattle.class_judge.specs.Judge.{IsWholeRefusal};
ghost use Rattle.dns_data.proofs.Names.{same_names};
ghost use Rattle.dns_data.specs.Name.{name_cmp};
ghost use Rattle.graph_form.specs.Report.{IsReport};
ghost use Rattle.label_graph.specs.Pairs.{AreSame};
ghost use Rattle.net_model.specs.Reading.{ground_of};
ghost use Rattle.query_classes.specs.TreeNames.{AreBaseNamesOf};
ghost use Rattle.query_classes.proofs.TreeItems as items;
ghost use Rattle.query_verdicts.specs.Carried.{whole_config};
ghost use Rattle.query_verdicts.specs.Kept.{IsKeptReport};
ghost use Rattle.query_verdicts.specs.Passed.{IsReportFault, NonePasses};
ghost use Rattle.query_verdicts.specs.Queries.{queries_of};
ghost use Rattle.query_verdicts.specs.Subjects.{AreOfSubject};
ghost use Rattle.verdict_book.specs.Lists.{IsWholeTree};

use crate::naming::{Naming, OfNaming};
use base_names::base_graph;
use dns_data::{List, Name, NoMemory};
use graph_form::Report;
use label_graph::LabelGraph;
use net_model::Config;
use query_classes::TreeName;
use query_verdicts::{
    FiledVerdict, JudgeFault, Kept, KeptReport, NameJudge, QueryGraphs, SubjectGround,
};
use std::alloc::Global;
use std::marker::Model;
use verdict_book::{Filed, JudgeShare, Judged, Work};

/// A judge of the class tree of a subject, at or below the subject's name. Contracts see the configuration.
#[derive(Drop)]
pub struct Judge<'a, N: Naming> {
    names: NameJudge<'a, OfNaming<N>>,
}

impl<'a, N: Naming> Model for Judge<'a, N> {
    ghost use Rattle.class_judge.specs.Judge.{JudgesSubject};
    ghost use Rattle.net_model.specs.declared.config.Config.{Config};

    ghost Value = { Config };

    ghost view = { λ judge. judge.names.config };

    ghost invariant = { λ judge. JudgesSubject judge.names N.subject N.states };
}

impl<'a, N: Naming + Send> Work for Judge<'a, N> {
    type Item = TreeName<SubjectGround<OfNaming<N>>>;

    type Verdict = FiledVerdict;

    ghost first_item = { N.subject.below };

    ghost children_of = { N.children_of };

    ghost verdict_of = { N.verdict_of };

    fn first(&self) -> Result<TreeName<SubjectGround<OfNaming<N>>>, NoMemory> {
        self.names.first()
    }

    fn judge(
        &self,
        item: &TreeName<SubjectGround<OfNaming<N>>>,
        share: &mut JudgeShare,
    ) -> Result<Judged<TreeName<SubjectGround<OfNaming<N>>>, FiledVerdict>, NoMemory> {
        share.raise();
        let mut near = share.hint();
        let judged = self.names.judge(&mut near, item);
        share.leave(near);
        judged
    }

    fn copy_item(
        &self,
        item: &TreeName<SubjectGround<OfNaming<N>>>,
    ) -> Result<TreeName<SubjectGround<OfNaming<N>>>, NoMemory> {
        self.names.copy_item(item)
    }

    fn may_be_shared(verdict: &FiledVerdict) -> bool {
        verdict.may_be_shared()
    }

    fn shared(verdict: &FiledVerdict, other: &FiledVerdict) -> Option<FiledVerdict>
        ensures { IfSome result (λ same. same ≡ verdict.now) }
    {
        verdict.shared(other)
    }

    ghost parents_apart = { items.parents_apart N.subject.ground N.subject.below N.children_of N.values.children };

    ghost equal_is_same = { same_names };
}

impl<'a, N: Naming> Judge<'a, N> {
    /// The judge of the class tree of a configuration, whose queries may use this many rewrites, and of each of which
    /// no more pairs of state and type are looked at than the limit. The trees of all zones, the graph of each server's
    /// name and the regions of names are made here, once.
    pub fn prepare(
        alloc: Global,
        config: &'a Config,
        rewrites: u32,
        states: u32,
    ) -> Result<Judge<'a, N>, NoMemory>
        requires subject { whole_config config.now rewrites ≡ N.subject }
        requires states { states ≡ N.states }
        ensures config { IfOk result (λ judge. judge ≡ config.now) }
    {
        let graphs = QueryGraphs::prepare(alloc, config, rewrites, states)?;
        let base = base_graph(alloc, graphs.hosts())?;
        Ok(Judge::new(alloc, graphs, base, None, Name::root()))
    }

    /// The judge with the graphs of the configuration's queries, the graph of the base names of the subject's ground,
    /// that of the configuration's own base names where the ground may have others, and the subject's name.
    pub fn new(
        alloc: Global,
        graphs: QueryGraphs<'a>,
        names: LabelGraph,
        own: Option<LabelGraph>,
        first: Name,
    ) -> Judge<'a, N>
        requires { AreOfSubject N.subject N.states graphs names own first }
        ensures { result ≡ graphs.entry.config }
    {
        let names = NameJudge::new(alloc, graphs, names, own, first);
        Judge { names }
    }

    /// The graphs of the configuration's queries, and the graph of the configuration's own base names: for another judge.
    pub fn into_graphs(self) -> (QueryGraphs<'a>, LabelGraph)
        ensures queries { result.0 ≡ queries_of N.subject N.states }
        ensures base { AreBaseNamesOf (ground_of N.subject.config) result.1 }
    {
        self.names.into_graphs()
    }

    /// The queries of the configuration, with what is learnt of it: for whoever shows their graphs beside the report.
    pub fn queries(&self) -> &QueryGraphs<'a>
        ensures { result.now ≡ queries_of N.subject N.states }
    {
        self.names.queries()
    }

    /// The graph of the names that the subject tells apart.
    pub fn base_names(&self) -> &LabelGraph
        ensures { AreSame result.now N.subject.ground }
    {
        self.names.base_names()
    }

    /// The report of the subject, from the verdicts of all names of its class tree, as any work over its items files
    /// them: the faults that some query at or below its name shows, each with its first query and type, and the first
    /// walk or pair of walks. Where the representative of some class there reaches more pairs of state and type than
    /// are looked at, it is `StatesPassed` with the first such one; else, where the name of some configured server
    /// does, with the first such name, which is never so for a whole configuration.
    pub fn report<W: Work<Item = TreeName<SubjectGround<OfNaming<N>>>, Verdict = FiledVerdict>>(
        &self,
        filed: List<Filed<W>>,
    ) -> Result<Report, JudgeFault>
        requires whole { IsWholeTree name_cmp N.subject.below N.children_of N.verdict_of filed }
        requires few { length filed < 2 ^ 31 }
        ensures report { IfOk result (IsReport N.subject) }
        ensures none_passes { OnOk result (NonePasses N.subject N.states) }
        ensures fault { IfErr result (IsReportFault N.subject N.states) }
        ensures whole_fault { whole_config N.subject.config N.subject.rewrites ≡ N.subject → IfErr result (IsWholeRefusal N.subject N.states) }
    {
        self.names.report(filed)
    }

    /// What is kept of the entries of that report, with its three numbers: no more than one entry has its walks at any
    /// time. An error comes as with `report`.
    pub fn kept_report<
        K: Kept + Drop,
        W: Work<Item = TreeName<SubjectGround<OfNaming<N>>>, Verdict = FiledVerdict>,
    >(&self, filed: List<Filed<W>>) -> Result<KeptReport<K>, JudgeFault>
        requires whole { IsWholeTree name_cmp N.subject.below N.children_of N.verdict_of filed }
        requires few { length filed < 2 ^ 31 }
        ensures report { IfOk result (IsKeptReport N.subject K.kept_of) }
        ensures none_passes { OnOk result (NonePasses N.subject N.states) }
        ensures fault { IfErr result (IsReportFault N.subject N.states) }
        ensures whole_fault { whole_config N.subject.config N.subject.rewrites ≡ N.subject → IfErr result (IsWholeRefusal N.subject N.states) }
    {
        self.names.kept_report::<K, W>(filed)
    }
}
