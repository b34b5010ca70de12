//! The judge of a scope: a work whose items are the names of the class tree at or below a name.

ghost use Rattle.std.specs.Prelude.{◌≡◌, ◌<◌, ◌^◌, length, IfOk, IfErr, IfSome, OnOk};
ghost use Rattle.dns_data.proofs.Names.{same_names};
ghost use Rattle.dns_data.specs.Name.{name_cmp};
ghost use Rattle.graph_form.specs.Report.{IsReport};
ghost use Rattle.job_scope.specs.Scoped.{IsScopeOf, scoped};
ghost use Rattle.query_classes.proofs.TreeItems as items;
ghost use Rattle.query_verdicts.specs.Passed.{NonePasses, IsReportFault};
ghost use Rattle.verdict_book.specs.Lists.{IsWholeTree};

use crate::scope_graphs::ScopeGraphs;
use class_judge::{Judge, Naming, OfNaming};
use dns_data::{List, Name, NoMemory};
use graph_form::Report;
use net_model::Config;
use query_classes::TreeName;
use query_verdicts::{FiledVerdict, JudgeFault, SubjectGround};
use std::alloc::Global;
use std::marker::Model;
use verdict_book::{Filed, JudgeShare, Judged, Work};

/// A judge of the scope of a name in a configuration: of the names at or below it that the configuration's base names
/// and the prefixes of the name tell apart. Contracts see the configuration.
#[derive(Drop)]
pub struct ScopeJudge<'a, N: Naming> {
    judge: Judge<'a, N>,
}

impl<'a, N: Naming> Model for ScopeJudge<'a, N> {
    ghost use Rattle.job_scope.specs.Scoped.{IsScopeOf};
    ghost use Rattle.net_model.specs.declared.config.Config.{Config};

    ghost Value = { Config };

    ghost view = { λ scope. scope.judge };

    ghost invariant = { λ scope. IsScopeOf scope.judge N.subject };
}

impl<'a, N: Naming + Send> Work for ScopeJudge<'a, N> {
    type Item = TreeName<SubjectGround<OfNaming<N>>>;

    type Verdict = FiledVerdict;

    ghost first_item = { N.subject.below };

    ghost children_of = { N.children_of };

    ghost verdict_of = { N.verdict_of };

    fn first(&self) -> Result<TreeName<SubjectGround<OfNaming<N>>>, NoMemory> {
        self.judge.first()
    }

    fn judge(
        &self,
        item: &TreeName<SubjectGround<OfNaming<N>>>,
        share: &mut JudgeShare,
    ) -> Result<Judged<TreeName<SubjectGround<OfNaming<N>>>, FiledVerdict>, NoMemory> {
        self.judge.judge(item, share)
    }

    fn copy_item(
        &self,
        item: &TreeName<SubjectGround<OfNaming<N>>>,
    ) -> Result<TreeName<SubjectGround<OfNaming<N>>>, NoMemory> {
        self.judge.copy_item(item)
    }

    fn may_be_shared(verdict: &FiledVerdict) -> bool {
        verdict.may_be_shared()
    }

    fn shared(verdict: &FiledVerdict, other: &FiledVerdict) -> Option<FiledVerdict>
        ensures { IfSome result (λ same. same ≡ verdict.now) }
    {
        verdict.shared(other)
    }

    ghost parents_apart = { items.parents_apart N.subject.ground N.subject.below N.children_of N.values.children };

    ghost equal_is_same = { same_names };
}

impl<'a, N: Naming> ScopeJudge<'a, N> {
    /// The judge of the scope of a name in a configuration, whose queries may use this many rewrites, and of each of
    /// which no more pairs of state and type are looked at than the limit. The name may be one that no record names. The
    /// trees of all zones, the graph of each server's name, the regions of names and the graphs of base names are made
    /// here, once.
    pub fn prepare(
        alloc: Global,
        config: &'a Config,
        rewrites: u32,
        states: u32,
        scope: &Name,
    ) -> Result<ScopeJudge<'a, N>, NoMemory>
        requires subject { scoped config.now rewrites scope.now ≡ N.subject }
        requires states { states ≡ N.states }
        ensures config { IfOk result (λ judge. judge ≡ config.now) }
    {
        let graphs = ScopeGraphs::prepare(alloc, config, rewrites, states)?;
        let judge = graphs.into_judge(alloc, scope)?;
        Ok(ScopeJudge { judge })
    }

    /// The judge of the scope's class tree.
    pub fn as_judge(&self) -> &Judge<'a, N>
        ensures { result.now ≡ self.now }
    {
        &self.judge
    }
}

impl<'a, N: Naming + Send> ScopeJudge<'a, N> {
    /// The report of the scope, from the verdicts of all its names: the faults that some query at or below the scope's
    /// name shows, each with its first query and type, and the first walk or pair of walks. If the representative of
    /// some class at or below that name reaches more pairs of state and type than are looked at, it is `StatesPassed`
    /// with the first such one; if none does, but the name of some configured server, with the first such server's
    /// name.
    pub fn report(&self, filed: List<Filed<ScopeJudge<'a, N>>>) -> Result<Report, JudgeFault>
        requires whole { IsWholeTree name_cmp N.subject.below N.children_of N.verdict_of filed }
        requires few { length filed < 2 ^ 31 }
        ensures scope { IsScopeOf self.now N.subject }
        ensures report { IfOk result (IsReport N.subject) }
        ensures none_passes { OnOk result (NonePasses N.subject N.states) }
        ensures fault { IfErr result (IsReportFault N.subject N.states) }
    {
        self.judge.report(filed)
    }
}
