//! The judge of the names of a class tree.

ghost use Rattle.std.specs.Prelude.{◌≡◌, ◌++◌, [], true, IfOk, IfSome, IsErrOf, MatchOption};
ghost use Rattle.dns_data.specs.Name.{Labels};
ghost use Rattle.net_model.specs.Tails.{IsUnnamedTail};
ghost use Rattle.net_model.specs.declared.class.Class.TheVariants.{Below};
ghost use Rattle.net_model.specs.Reading.{ground_of};
ghost use Rattle.query_verdicts.specs.OnlyWalk.{IsOnlyOfLeast};
ghost use Rattle.query_verdicts.specs.Passed.{IsFirstServerPassed};
ghost use Rattle.query_verdicts.specs.Queries.{AreStraightEnds, IsLeastGraph, IsJudgedBy, StandsFor, queries_of};
ghost use Rattle.query_verdicts.specs.Subjects.{AreOfSubject, IsCovering, RepresentsBelow};
ghost use Rattle.query_verdicts.specs.Verdict.{IsBelowVerdict, IsClassVerdict, IsNameVerdict, IsQuiet, PassesStates, SomeServerPasses};
ghost use Rattle.query_verdicts.specs.declared.verdict.ClassVerdict.TheVariants.{Faults};
ghost use Rattle.straight_walks.specs.Straight.{faults_by_ends};
ghost use Rattle.query_classes.specs.Children.{AreChildren, IsInTree};
ghost use Rattle.query_classes.specs.Members.{RepresentsClass};
ghost use Rattle.query_classes.specs.TreeNames.{AreBaseNamesOf, IsLiveIn, HoldsBelow};

use crate::graphs::QueryGraphs;
use crate::own_class::OwnClass;
use crate::subject::{OnSubject, SubjectGround};
use crate::verdict::{ClassVerdict, FiledVerdict, NameVerdict};
use dns_data::{List, Name, NoMemory, RrType};
use graph_form::Graph;
use interp_graph::GraphFault;
use label_graph::LabelGraph;
use net_model::{Class, Walk};
use query_classes::{LiveName, TreeName};
use std::alloc::Global;
use std::marker::{Model, PhantomData};
use straight_walks::StraightEnds;
use verdict_book::Judged;

/// What judges the names of a subject's class tree at or below the subject's name, and makes the subject's report of their
/// verdicts. Contracts see the queries of the configuration with their limits.
#[derive(Drop)]
pub struct NameJudge<'a, S: OnSubject> {
    alloc: Global,
    graphs: QueryGraphs<'a>,
    names: LabelGraph,
    own: Option<LabelGraph>,
    first: Name,
    of: PhantomData<S>,
}

impl<'a, S: OnSubject> Model for NameJudge<'a, S> {
    ghost use Rattle.query_verdicts.specs.Queries.{LimitedQueries};
    ghost use Rattle.query_verdicts.specs.Subjects.{AreOfSubject};

    ghost Value = { LimitedQueries };

    ghost view = { λ judge. judge.graphs };

    ghost invariant = { λ judge. AreOfSubject S.subject S.states judge.graphs judge.names judge.own judge.first };
}

impl<'a, S: OnSubject> NameJudge<'a, S> {
    /// The judge with the graphs of the configuration's queries, the graph of the base names of the subject's ground,
    /// that of the configuration's own base names where the ground may have others, and the subject's name.
    pub fn new(
        alloc: Global,
        graphs: QueryGraphs<'a>,
        names: LabelGraph,
        own: Option<LabelGraph>,
        first: Name,
    ) -> NameJudge<'a, S>
        requires { AreOfSubject S.subject S.states graphs names own first }
        ensures { result ≡ graphs.entry }
    {
        NameJudge {
            alloc,
            graphs,
            names,
            own,
            first,
            of: PhantomData,
        }
    }

    /// The graphs of the configuration's queries, and the graph of the configuration's own base names: for another judge.
    pub fn into_graphs(self) -> (QueryGraphs<'a>, LabelGraph)
        ensures queries { result.0 ≡ queries_of S.subject S.states }
        ensures base { AreBaseNamesOf (ground_of S.subject.config) result.1 }
    {
        let NameJudge {
            graphs,
            names,
            own,
            ..
        } = self;
        match own {
            Some(own) => (graphs, own),
            None => (graphs, names),
        }
    }

    /// The name at or below which names are judged.
    pub fn first(&self) -> Result<TreeName<SubjectGround<S>>, NoMemory>
        ensures { IfOk result (λ item. item ≡ S.subject.below) }
    {
        TreeName::of_name(self.alloc, &self.names, &self.first)
    }

    /// The verdict of a name of the class tree, to be filed, and the names of the tree one label below it, in order. No
    /// name below it is searched for where it is known that none shows a fault. The name's region is looked for near a
    /// place first, whatever that is, and the place is left near which that of the next name may be looked for.
    pub fn judge(
        &self,
        near: &mut usize,
        item: &TreeName<SubjectGround<S>>,
    ) -> Result<Judged<TreeName<SubjectGround<S>>, FiledVerdict>, NoMemory>
        requires { IsInTree S.subject.ground item.now }
        ensures verdict { IfOk result (λ judged. IsNameVerdict S.subject S.states item.now judged.verdict) }
        ensures children { IfOk result (λ judged. AreChildren S.subject.ground item.now judged.children) }
    {
        if item.holds_below() {
            let verdict = self.quiet_name(item.live_name())?;
            self.with_children(item, verdict, true)
        } else {
            self.judge_searched(near, item)
        }
    }

    /// An equal item.
    pub fn copy_item(
        &self,
        item: &TreeName<SubjectGround<S>>,
    ) -> Result<TreeName<SubjectGround<S>>, NoMemory>
        ensures { IfOk result (λ copy. copy ≡ item.now) }
    {
        item.copy(self.alloc)
    }

    /// The verdict of a name of the class tree and the names one label below it. The region of its representative below is
    /// searched from its own.
    fn judge_searched(
        &self,
        near: &mut usize,
        item: &TreeName<SubjectGround<S>>,
    ) -> Result<Judged<TreeName<SubjectGround<S>>, FiledVerdict>, NoMemory>
        requires { IsInTree S.subject.ground item.now }
        ensures verdict { IfOk result (λ judged. IsNameVerdict S.subject S.states item.now judged.verdict) }
        ensures children { IfOk result (λ judged. AreChildren S.subject.ground item.now judged.children) }
    {
        let name = item.live_name();
        let ends = self.straight(near, &name.name)?;
        let all_quiet = self.all_quiet(&ends, *near, &name.name);
        let verdict = self.judge_name(&ends, near, name)?;
        self.with_children(item, verdict, all_quiet)
    }

    /// A name of the class tree with this verdict, to be filed, and the names one label below it: where that is said, no
    /// name at or below the name shows a fault.
    fn with_children(
        &self,
        item: &TreeName<SubjectGround<S>>,
        verdict: NameVerdict<ClassVerdict>,
        all_quiet: bool,
    ) -> Result<Judged<TreeName<SubjectGround<S>>, FiledVerdict>, NoMemory>
        requires verdict { IsNameVerdict S.subject S.states item.now verdict }
        requires quiet { all_quiet ≡ true → HoldsBelow (IsQuiet S.subject S.states) item.now }
        ensures verdict { IfOk result (λ judged. IsNameVerdict S.subject S.states item.now judged.verdict) }
        ensures children { IfOk result (λ judged. AreChildren S.subject.ground item.now judged.children) }
    {
        let children = item.children(self.alloc, &self.names, all_quiet)?;
        let verdict = FiledVerdict::of(self.alloc, verdict)?;
        Ok(Judged { verdict, children })
    }

    /// The verdict of a name of the class tree: of the class of the name alone, and of the class below it. What walks of
    /// the name end in is known where they are seen to go straight. The region of the second query is searched near a
    /// place first.
    fn judge_name(
        &self,
        ends: &Option<StraightEnds<'_, 'a>>,
        near: &mut usize,
        name: &LiveName,
    ) -> Result<NameVerdict<ClassVerdict>, NoMemory>
        requires live { IsLiveIn S.subject.ground name.now.name name.now.live }
        requires in_tree { IsInTree S.subject.ground name.now.name }
        requires ends { IfSome ends.now (AreStraightEnds S.subject.config S.subject.rewrites S.states name.now.name) }
        ensures { IfOk result (IsNameVerdict S.subject S.states name.now.name) }
    {
        match ends {
            Some(ends) => self.straight_name(ends, near, name),
            None => {
                let exact = self.looked_alone(&name.name)?;
                self.with_below(near, name, exact)
            }
        }
    }

    /// The verdict of a name of the class tree whose walks go straight to these ends.
    fn straight_name(
        &self,
        ends: &StraightEnds<'_, 'a>,
        near: &mut usize,
        name: &LiveName,
    ) -> Result<NameVerdict<ClassVerdict>, NoMemory>
        requires live { IsLiveIn S.subject.ground name.now.name name.now.live }
        requires in_tree { IsInTree S.subject.ground name.now.name }
        requires ends { AreStraightEnds S.subject.config S.subject.rewrites S.states name.now.name ends.now }
        ensures { IfOk result (IsNameVerdict S.subject S.states name.now.name) }
    {
        let exact = self.verdict_by_ends(ends, &name.name)?;
        if ends.unnamed_below {
            self.with_same_below(name, exact, ends)
        } else {
            self.with_below(near, name, exact)
        }
    }

    /// The verdict of a name of the class tree, of whose class alone it is this, where the walks of the name with any
    /// unnamed tail show the same faults as those of the name, which go straight to these ends.
    fn with_same_below(
        &self,
        name: &LiveName,
        exact: ClassVerdict,
        ends: &StraightEnds<'_, 'a>,
    ) -> Result<NameVerdict<ClassVerdict>, NoMemory>
        requires live { IsLiveIn S.subject.ground name.now.name name.now.live }
        requires in_tree { IsInTree S.subject.ground name.now.name }
        requires exact { IsClassVerdict S.subject.config S.subject.rewrites S.states name.now.name exact }
        requires below { (tail : Labels) → IsUnnamedTail S.subject.config name.now.name tail
            → IsJudgedBy S.subject.config S.subject.rewrites S.states (faults_by_ends name.now.name ends.now) (name.now.name ++ tail) }
        ensures { IfOk result (IsNameVerdict S.subject S.states name.now.name) }
    {
        let verdict = self.verdict_by_ends(ends, &name.name)?;
        let below = self.below_with(name, verdict)?;
        Ok(NameVerdict { exact, below })
    }

    /// What the walks of a query end in, where they are seen to go straight, or `None`.
    fn straight(
        &self,
        near: &mut usize,
        query: &Name,
    ) -> Result<Option<StraightEnds<'_, 'a>>, NoMemory>
        ensures { IfOk result (λ found. IfSome found (AreStraightEnds S.subject.config S.subject.rewrites S.states query.now)) }
    {
        self.graphs.straight_ends(near, query)
    }

    /// Whether it is known that no name at or below a query shows a fault: its walks go straight to ends that tell none,
    /// which are those of the names below it too, and no origin of a zone stands below it, as seen near a place.
    fn all_quiet(&self, ends: &Option<StraightEnds<'_, 'a>>, near: usize, query: &Name) -> bool
        requires { IfSome ends.now (AreStraightEnds S.subject.config S.subject.rewrites S.states query.now) }
        ensures { result ≡ true → HoldsBelow (IsQuiet S.subject S.states) query.now }
    {
        match ends {
            Some(ends) => {
                if !ends.below {
                    return false;
                }
                if !ends.tell_no_fault() {
                    return false;
                }
                self.graphs.no_origin_below(near, query)
            }
            None => false,
        }
    }

    /// The verdict of a class that shows the faults that the ends tell of a query, and no others.
    fn verdict_by_ends(
        &self,
        ends: &StraightEnds<'_, 'a>,
        query: &Name,
    ) -> Result<ClassVerdict, NoMemory>
        ensures { IfOk result (λ verdict. (name : Labels) → IsJudgedBy S.subject.config S.subject.rewrites S.states (faults_by_ends query.now ends.now) name
            → IsClassVerdict S.subject.config S.subject.rewrites S.states name verdict) }
    {
        let shown = ends.shown(self.alloc, query)?;
        Ok(ClassVerdict::Faults(shown))
    }

    /// The verdict of a class whose representative shows no fault.
    fn no_fault(&self) -> ClassVerdict
        ensures { result ≡ Faults [] }
    {
        ClassVerdict::Faults(List::new(self.alloc))
    }

    /// The verdict of a name of the class tree where neither it nor it with an unnamed tail shows a fault.
    fn quiet_name(&self, name: &LiveName) -> Result<NameVerdict<ClassVerdict>, NoMemory>
        requires live { IsLiveIn S.subject.ground name.now.name name.now.live }
        requires in_tree { IsInTree S.subject.ground name.now.name }
        requires alone { IsQuiet S.subject S.states name.now.name }
        requires below { (tail : Labels) → IsUnnamedTail S.subject.config name.now.name tail → IsQuiet S.subject S.states (name.now.name ++ tail) }
        ensures { IfOk result (IsNameVerdict S.subject S.states name.now.name) }
    {
        let below = self.below_with(name, self.no_fault())?;
        Ok(NameVerdict {
            exact: self.no_fault(),
            below,
        })
    }

    /// The verdict of the class below a name of the class tree, or `None` where it is empty, where this is the verdict of
    /// the name with each unnamed tail.
    fn below_with(
        &self,
        above: &LiveName,
        verdict: ClassVerdict,
    ) -> Result<Option<ClassVerdict>, NoMemory>
        requires live { IsLiveIn S.subject.ground above.now.name above.now.live }
        requires in_tree { IsInTree S.subject.ground above.now.name }
        requires below { (tail : Labels) → IsUnnamedTail S.subject.config above.now.name tail
            → IsClassVerdict S.subject.config S.subject.rewrites S.states (above.now.name ++ tail) verdict }
        ensures { IfOk result (IsBelowVerdict S.subject S.states above.now.name) }
    {
        if above.has_below(self.alloc, &self.names)? {
            Ok(Some(verdict))
        } else {
            Ok(None)
        }
    }

    /// The verdict of a name of the class tree, of whose class alone it is this.
    fn with_below(
        &self,
        near: &mut usize,
        name: &LiveName,
        exact: ClassVerdict,
    ) -> Result<NameVerdict<ClassVerdict>, NoMemory>
        requires live { IsLiveIn S.subject.ground name.now.name name.now.live }
        requires in_tree { IsInTree S.subject.ground name.now.name }
        requires exact { IsClassVerdict S.subject.config S.subject.rewrites S.states name.now.name exact }
        ensures { IfOk result (IsNameVerdict S.subject S.states name.now.name) }
    {
        let below = self.judge_below(near, name)?;
        Ok(NameVerdict { exact, below })
    }

    /// The verdict of the class below a name of the class tree, or `None` where it is empty.
    fn judge_below(
        &self,
        near: &mut usize,
        above: &LiveName,
    ) -> Result<Option<ClassVerdict>, NoMemory>
        requires live { IsLiveIn S.subject.ground above.now.name above.now.live }
        requires in_tree { IsInTree S.subject.ground above.now.name }
        ensures { IfOk result (IsBelowVerdict S.subject S.states above.now.name) }
    {
        match self.below_live(above)? {
            Some(query) => {
                let verdict = self.class_below(near, &above.name, &query)?;
                Ok(Some(verdict))
            }
            None => Ok(None),
        }
    }

    /// The verdict of the class below a name, which the query represents.
    fn class_below(
        &self,
        near: &mut usize,
        above: &Name,
        query: &Name,
    ) -> Result<ClassVerdict, NoMemory>
        requires { RepresentsClass S.subject.ground (Below above.now) query.now }
        ensures { IfOk result (IsClassVerdict S.subject.config S.subject.rewrites S.states query.now) }
    {
        match self.straight(near, query)? {
            Some(ends) => self.verdict_by_ends(&ends, query),
            None => {
                let class = Class::Below(above.copy(self.alloc)?);
                self.looked_class(&class, query)
            }
        }
    }

    /// The verdict of the class of a name of the class tree alone, by a graph of its walks.
    fn looked_alone(&self, name: &Name) -> Result<ClassVerdict, NoMemory>
        requires { IsInTree S.subject.ground name.now }
        ensures { IfOk result (IsClassVerdict S.subject.config S.subject.rewrites S.states name.now) }
    {
        let class = Class::Exact(name.copy(self.alloc)?);
        self.looked_class(&class, name)
    }

    /// The verdict of the class that the query represents, by a graph of the query's walks.
    fn looked_class(&self, class: &Class, query: &Name) -> Result<ClassVerdict, NoMemory>
        requires { StandsFor S.subject.ground class.now query.now }
        ensures { IfOk result (IsClassVerdict S.subject.config S.subject.rewrites S.states query.now) }
    {
        match &self.own {
            Some(names) => self.graphs.verdict(&OwnClass::Asked(names), query),
            None => self.graphs.verdict(&OwnClass::Represents(class), query),
        }
    }

    /// The representative of the class below a name of the class tree that has its live set, or `None` where it is empty.
    fn below_live(&self, above: &LiveName) -> Result<Option<Name>, NoMemory>
        requires live { IsLiveIn S.subject.ground above.now.name above.now.live }
        requires in_tree { IsInTree S.subject.ground above.now.name }
        ensures { IfOk result (RepresentsBelow S.subject.ground above.now.name) }
    {
        above.below(self.alloc, &self.names)
    }

    /// The representative of the class below a name of the class tree, or `None` where it is empty.
    pub(crate) fn representative_below(&self, above: &Name) -> Result<Option<Name>, NoMemory>
        requires { IsInTree S.subject.ground above.now }
        ensures { IfOk result (RepresentsBelow S.subject.ground above.now) }
    {
        let live = LiveName::of(self.alloc, &self.names, above)?;
        live.below(self.alloc, &self.names)
    }

    /// The graph of the walks of a query while the servers of the least set are followed, or `None` where the name of some
    /// server reaches too many pairs of state and type.
    pub(crate) fn graph(&self, query: &Name) -> Result<Option<Graph>, GraphFault>
        ensures graph { IfOk result (λ found. MatchOption found (SomeServerPasses S.subject.config S.subject.rewrites S.states)
            (IsLeastGraph S.subject.config S.subject.rewrites query.now)) }
        ensures passed { IsErrOf result GraphFault.StatesPassed → PassesStates S.subject.config S.subject.rewrites S.states query.now }
    {
        self.graphs.graph(query)
    }

    /// The walk of a query with a type while the servers of the least set are followed, where it is seen without a graph
    /// that there is no other.
    pub(crate) fn only_walk(&self, query: &Name, rtype: RrType) -> Result<Option<Walk>, NoMemory>
        ensures { IfOk result (λ found. IfSome found (IsOnlyOfLeast S.subject.config S.subject.rewrites query.now rtype)) }
    {
        self.graphs.only_walk(query, rtype)
    }

    /// The first server whose name reaches too many pairs of state and type, or `None` where none does.
    pub(crate) fn server_passed(&self) -> Result<Option<Name>, NoMemory>
        ensures { IfOk result (λ found. MatchOption found (SomeServerPasses S.subject.config S.subject.rewrites S.states → ⊥)
            (IsFirstServerPassed S.subject.config S.subject.rewrites S.states)) }
    {
        match self.graphs.sets() {
            Ok(_) => Ok(None),
            Err(server) => Ok(Some(server.copy(self.alloc)?)),
        }
    }

    /// The graphs of the configuration's queries.
    pub fn queries(&self) -> &QueryGraphs<'a>
        ensures { result.now ≡ self.now }
    {
        &self.graphs
    }

    /// The graph of the base names of the subject's ground.
    pub fn base_names(&self) -> &LabelGraph
        ensures { AreBaseNamesOf S.subject.ground result.now }
    {
        &self.names
    }

    /// The memory from which the judge takes.
    pub(crate) fn alloc(&self) -> Global {
        self.alloc
    }

    /// How many rewrites a query may use; the subject's ground covers its configuration.
    pub(crate) fn rewrites(&self) -> u32
        ensures rewrites { result ≡ S.subject.rewrites }
        ensures covering { IsCovering S.subject }
    {
        self.graphs.rewrites()
    }
}
