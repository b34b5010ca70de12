//! The report of a subject, from the verdicts of the names of its class tree: how many names and classes these have, and
//! an entry for each fault, with the first class that shows it and the first walks of that class's representative.

ghost use Rattle.std.specs.Prelude.{◌≡◌, ◌++◌, ◌∷◌, [], ◌≤◌, ◌<◌, ◌^◌, All, length, IfOk, IfErr, IfSome, IsPermutation, OnOk, Some, slice_get};
ghost use Rattle.std.specs.List.Sorted.{IsSortedBy};
ghost use Rattle.query_verdicts.specs.Entries.{IsEntryOf, IsRightFound, IsWalked, entry_of_parts};
ghost use Rattle.query_verdicts.specs.Kept.{AreKept, AreKeptOf, IsKeptReport, PutsKept, is_kept_before};
ghost use Rattle.query_verdicts.specs.Passed.{NonePasses, IsReportFault};
ghost use Rattle.query_verdicts.specs.Rows.{AreRows};
ghost use Rattle.query_verdicts.specs.Queries.{IsLeastGraph};
ghost use Rattle.query_verdicts.specs.TreeVerdicts.{below_count};
ghost use Rattle.query_verdicts.specs.Verdict.{PassesStates};
ghost use Rattle.dns_data.specs.Name.{Labels};
ghost use Rattle.graph_form.specs.Report.{IsClass, IsReport, repeats};
ghost use Rattle.net_model.specs.Class.{IsRepresentative};
ghost use Rattle.net_model.specs.declared.walk.Walk.{Walk as WalkValue};

use crate::first_classes::{ClassFault, first_classes};
use crate::kept::{Kept, KeptReport};
use crate::name_judge::NameJudge;
use crate::passed::first_passed;
use crate::subject::{OnSubject, SubjectGround};
use crate::verdict::FiledVerdict;
use dns_data::{List, Name, NoMemory};
use graph_form::{Graph, Report, ReportEntry, repeats, trails};
use interp_graph::GraphFault;
use net_model::{Class, Walk};
use query_classes::TreeName;
use std::alloc::Global;
use thiserror::Error;
use verdict_book::{Filed, Work};

/// Why the verdicts of names aren't put together, to a report or to a comparison.
#[derive(Debug, Drop, Error)]
pub enum JudgeFault {
    /// This name reaches more pairs of state and type than are looked at. It is the first representative of a class that
    /// does, in one of the configurations where two are compared. For a report, where no representative does, it is the
    /// first name of a configured server that does.
    #[error("more states than are looked at")]
    StatesPassed(Name),
    /// Memory ran out.
    #[error("no memory")]
    NoMemory,
}

impl From<NoMemory> for JudgeFault {
    ghost from_gives = { λ _ fault. fault ≡ NoMemory };

    ghost use Rattle.query_verdicts.specs.declared.report.JudgeFault.TheVariants.{NoMemory};

    fn from(_fault: NoMemory) -> JudgeFault {
        JudgeFault::NoMemory
    }
}

impl<'a, S: OnSubject> NameJudge<'a, S> {
    /// The report of the subject, from the verdicts of all names of its class tree: the faults that some query at or
    /// below the subject's name shows, each with its first query and type, and the first walk or pair of walks. Where
    /// the representative of some class reaches more pairs of state and type than are looked at, it is `StatesPassed`
    /// with the first such one; else, where the name of some configured server does, with the first such name.
    pub fn report<W: Work<Item = TreeName<SubjectGround<S>>, Verdict = FiledVerdict>>(
        &self,
        filed: List<Filed<W>>,
    ) -> Result<Report, JudgeFault>
        requires rows { AreRows S.subject S.states filed }
        requires few { length filed < 2 ^ 31 }
        ensures report { IfOk result (IsReport S.subject) }
        ensures none_passes { OnOk result (NonePasses S.subject S.states) }
        ensures fault { IfErr result (IsReportFault S.subject S.states) }
    {
        let made = self.kept_report::<ReportEntry, W>(filed)?;
        Ok(Report {
            classes: made.classes,
            names: made.names,
            rewrites: made.rewrites,
            entries: made.kept,
        })
    }

    /// What is kept of the entries of that report, with its three numbers. An entry's walks are made when it is, and go
    /// when what is kept of it is made, so that no more than one entry has its walks. An error comes as with `report`.
    pub fn kept_report<
        K: Kept + Drop,
        W: Work<Item = TreeName<SubjectGround<S>>, Verdict = FiledVerdict>,
    >(&self, filed: List<Filed<W>>) -> Result<KeptReport<K>, JudgeFault>
        requires rows { AreRows S.subject S.states filed }
        requires few { length filed < 2 ^ 31 }
        ensures report { IfOk result (IsKeptReport S.subject K.kept_of) }
        ensures none_passes { OnOk result (NonePasses S.subject S.states) }
        ensures fault { IfErr result (IsReportFault S.subject S.states) }
    {
        if let Some(query) = first_passed(self, filed.items())? {
            return Err(JudgeFault::StatesPassed(query));
        }
        match self.server_passed()? {
            Some(server) => Err(JudgeFault::StatesPassed(server)),
            None => Ok(report_with(self, filed)?),
        }
    }
}

/// What is kept of the report from the names of the class tree with their verdicts, where neither a class nor a server's
/// name passes the limit.
fn report_with<
    S: OnSubject,
    K: Kept + Drop,
    W: Work<Item = TreeName<SubjectGround<S>>, Verdict = FiledVerdict>,
>(judge: &NameJudge<'_, S>, filed: List<Filed<W>>) -> Result<KeptReport<K>, NoMemory>
    requires rows { AreRows S.subject S.states filed }
    requires none_passes { NonePasses S.subject S.states }
    requires few { length filed < 2 ^ 31 }
    ensures { IfOk result (IsKeptReport S.subject K.kept_of) }
{
    let names = filed.len();
    let below = below_count(filed.items());
    let kept = kept_of_all(judge, filed)?;
    Ok(KeptReport {
        classes: (names + below) as u32,
        names: names as u32,
        rewrites: judge.rewrites(),
        kept,
    })
}

/// How many of the classes below the names aren't empty.
fn below_count<S: OnSubject, W: Work<Item = TreeName<SubjectGround<S>>, Verdict = FiledVerdict>>(
    filed: &[Filed<W>],
) -> usize
    ensures value { result ≡ below_count filed.now }
    ensures within { result ≤ length filed.now }
{
    let mut count = 0;
    for one in filed {
        if one.verdict.has_below() {
            count += 1;
        }
    }
    count
}

/// What is kept of the entries of the faults that the classes of the names show, in fault order, where no class passes the
/// limit.
fn kept_of_all<
    S: OnSubject,
    K: Kept + Drop,
    W: Work<Item = TreeName<SubjectGround<S>>, Verdict = FiledVerdict>,
>(judge: &NameJudge<'_, S>, filed: List<Filed<W>>) -> Result<List<K>, NoMemory>
    requires rows { AreRows S.subject S.states filed }
    requires none_passes { NonePasses S.subject S.states }
    ensures { IfOk result (AreKept S.subject K.kept_of) }
{
    let firsts = first_classes(judge.alloc(), filed)?;
    let by_class = in_class_order(firsts)?;
    let made = kept_by_class(judge, by_class)?;
    // Named, since the proof speaks of the list that comes where memory suffices.
    let kept = in_fault_order(made)?;
    Ok(kept)
}

/// The faults, those of one class one after the other.
fn in_class_order(found: List<ClassFault>) -> Result<List<ClassFault>, NoMemory>
    ensures { IfOk result (IsPermutation found) }
{
    let mut sorted = found.into_vec();
    sorted.sort_by(|a, b| a.class.compare(&b.class))?;
    Ok(List::from_vec(sorted))
}

/// A class with its representative, and the graph of that one's walks while the servers of the least set are followed.
#[derive(Drop)]
struct Walked {
    class: Class,
    query: Name,
    graph: Graph,
}

/// What is kept of the entries of faults with their classes, one for each. A graph is made where the class is another than
/// that of the fault before: once for each class, if the faults of one class stand together.
fn kept_by_class<S: OnSubject, K: Kept + Drop>(
    judge: &NameJudge<'_, S>,
    found: List<ClassFault>,
) -> Result<List<K>, NoMemory>
    requires none_passes { NonePasses S.subject S.states }
    requires right { All (IsRightFound S.subject) found }
    ensures { IfOk result (AreKeptOf S.subject K.kept_of found) }
{
    let mut kept = List::new(judge.alloc());
    let mut last = None;
    for one in found {
        let walked = put_kept(judge, last, one, &mut kept)?;
        last = walked;
    }
    Ok(kept)
}

/// Puts what is kept of the entry of a fault with its class at the end, and gives the walks of a class, for the next one.
/// Where the class's representative has one walk alone with the fault's type, no graph is made.
fn put_kept<S: OnSubject, K: Kept + Drop>(
    judge: &NameJudge<'_, S>,
    last: Option<Walked>,
    found: ClassFault,
    kept: &mut List<K>,
) -> Result<Option<Walked>, NoMemory>
    requires none_passes { NonePasses S.subject S.states }
    requires last { IfSome last (IsWalked S.subject) }
    requires right { IsRightFound S.subject found }
    ensures walked { IfOk result (λ walked. IfSome walked (IsWalked S.subject)) }
    ensures put { OnOk result (PutsKept S.subject K.kept_of found kept.old kept.new) }
{
    match parts_alone(judge, &found)? {
        Some(parts) => {
            let entry = entry_of_parts(found, parts);
            put_entry(judge, entry, kept)?;
            Ok(last)
        }
        None => {
            let walked = put_walked(judge, last, found, kept)?;
            Ok(Some(walked))
        }
    }
}

/// Puts what is kept of the entry at the end.
fn put_entry<S: OnSubject, K: Kept + Drop>(
    judge: &NameJudge<'_, S>,
    entry: ReportEntry,
    kept: &mut List<K>,
) -> Result<(), NoMemory>
    ensures { OnOk result (kept.new ≡ kept.old ++ K.kept_of entry ∷ []) }
{
    let one = K::of_entry(judge.alloc(), entry)?;
    kept.push(one)
}

/// What the entry of a fault has beside it, where the representative of the class that shows it has one walk alone with the
/// fault's type, and that is seen without a graph.
fn parts_alone<S: OnSubject>(
    judge: &NameJudge<'_, S>,
    found: &ClassFault,
) -> Result<Option<EntryParts>, NoMemory>
    requires right { IsRightFound S.subject found.now }
    ensures { IfOk result (λ parts. IfSome parts (λ of. IsEntryOf S.subject found.now (entry_of_parts found.now of))) }
{
    let query = query_of(judge, &found.class)?;
    match judge.only_walk(&query, found.seen.rtype)? {
        Some(walk) => {
            let repeats = repeats(judge.alloc(), &walk)?;
            let mut walks = List::new(judge.alloc());
            walks.push(walk)?;
            Ok(Some(EntryParts {
                query,
                repeats,
                walks,
            }))
        }
        None => Ok(None),
    }
}

/// Puts what is kept of the entry of a fault with its class at the end, by a graph of the walks of that class, and gives
/// these, for the next one.
fn put_walked<S: OnSubject, K: Kept + Drop>(
    judge: &NameJudge<'_, S>,
    last: Option<Walked>,
    found: ClassFault,
    kept: &mut List<K>,
) -> Result<Walked, NoMemory>
    requires none_passes { NonePasses S.subject S.states }
    requires last { IfSome last (IsWalked S.subject) }
    requires right { IsRightFound S.subject found }
    ensures walked { IfOk result (IsWalked S.subject) }
    ensures put { OnOk result (PutsKept S.subject K.kept_of found kept.old kept.new) }
{
    let walked = walked_for(judge, last, &found)?;
    let entry = entry_of(judge, &walked, found)?;
    put_entry(judge, entry, kept)?;
    Ok(walked)
}

/// The walks of the representative of the class of a fault: the last ones, where these are of this class, or else new ones.
fn walked_for<S: OnSubject>(
    judge: &NameJudge<'_, S>,
    last: Option<Walked>,
    found: &ClassFault,
) -> Result<Walked, NoMemory>
    requires none_passes { NonePasses S.subject S.states }
    requires last { IfSome last (IsWalked S.subject) }
    requires right { IsRightFound S.subject found.now }
    ensures walked { IfOk result (IsWalked S.subject) }
    ensures class { IfOk result (λ walked. walked.class ≡ found.now.class) }
{
    match last {
        Some(walked) => {
            if walked.class.compare(&found.class).is_eq() {
                Ok(walked)
            } else {
                // The one graph goes before the next is made.
                drop(walked);
                walked_of(judge, &found.class)
            }
        }
        None => walked_of(judge, &found.class),
    }
}

/// The walks of the representative of a class.
fn walked_of<S: OnSubject>(judge: &NameJudge<'_, S>, class: &Class) -> Result<Walked, NoMemory>
    requires none_passes { NonePasses S.subject S.states }
    requires is_class { IsClass S.subject class.now }
    requires some { (query : Labels) × IsRepresentative S.subject.ground class.now query }
    ensures walked { IfOk result (IsWalked S.subject) }
    ensures class { IfOk result (λ walked. walked.class ≡ class.now) }
{
    let query = query_of(judge, class)?;
    let graph = least_graph(judge, &query)?;
    let class = class.copy(judge.alloc())?;
    Ok(Walked {
        class,
        query,
        graph,
    })
}

/// The representative of a class of the tree that isn't empty.
fn query_of<S: OnSubject>(judge: &NameJudge<'_, S>, class: &Class) -> Result<Name, NoMemory>
    requires is_class { IsClass S.subject class.now }
    requires some { (query : Labels) × IsRepresentative S.subject.ground class.now query }
    ensures { IfOk result (IsRepresentative S.subject.ground class.now) }
{
    match class {
        Class::Exact(name) => Ok(name.copy(judge.alloc())?),
        Class::Below(above) => match judge.representative_below(above)? {
            Some(query) => Ok(query),
            None => unreachable!(),
        },
    }
}

/// The graph of the walks of a query while the servers of the least set are followed. Where the name of no server
/// passes the limit there is that set.
fn least_graph<S: OnSubject>(judge: &NameJudge<'_, S>, query: &Name) -> Result<Graph, NoMemory>
    requires none_passes { NonePasses S.subject S.states }
    requires few { PassesStates S.subject.config S.subject.rewrites S.states query.now → ⊥ }
    ensures { IfOk result (IsLeastGraph S.subject.config S.subject.rewrites query.now) }
{
    match judge.graph(query) {
        Ok(Some(graph)) => Ok(graph),
        Ok(None) => unreachable!(),
        Err(GraphFault::StatesPassed) => unreachable!(),
        Err(GraphFault::NoMemory) => Err(NoMemory),
    }
}

/// The entry of a fault, from the walks of the class that shows it.
fn entry_of<S: OnSubject>(
    judge: &NameJudge<'_, S>,
    walked: &Walked,
    found: ClassFault,
) -> Result<ReportEntry, NoMemory>
    requires walked { IsWalked S.subject walked.now }
    requires class { walked.now.class ≡ found.class }
    requires right { IsRightFound S.subject found }
    ensures { IfOk result (IsEntryOf S.subject found) }
{
    let parts = parts_of(judge, walked, &found)?;
    Ok(entry_of_parts(found, parts))
}

/// What an entry has beside its fault.
#[derive(Drop)]
struct EntryParts {
    query: Name,
    repeats: bool,
    walks: List<Walk>,
}

/// What the entry of a fault has beside it, from the walks of the class that shows it.
fn parts_of<S: OnSubject>(
    judge: &NameJudge<'_, S>,
    walked: &Walked,
    found: &ClassFault,
) -> Result<EntryParts, NoMemory>
    requires walked { IsWalked S.subject walked.now }
    requires class { walked.now.class ≡ found.now.class }
    requires right { IsRightFound S.subject found.now }
    ensures { IfOk result (λ parts. IsEntryOf S.subject found.now (entry_of_parts found.now parts)) }
{
    let query = walked.query.copy(judge.alloc())?;
    let walks = trails(judge.alloc(), &walked.graph, &found.seen)?;
    let repeats = repeated(judge.alloc(), walks.items())?;
    Ok(EntryParts {
        query,
        repeats,
        walks,
    })
}

/// The entry of a fault with these parts.
fn entry_of_parts(found: ClassFault, parts: EntryParts) -> ReportEntry
    ensures { result ≡ entry_of_parts found parts }
{
    ReportEntry {
        seen: found.seen,
        query: parts.query,
        repeats: parts.repeats,
        walks: parts.walks,
    }
}

/// Whether the first of the walks comes to a server twice with one name.
fn repeated(alloc: Global, walks: &[Walk]) -> Result<bool, NoMemory>
    ensures { IfOk result (λ answer. (first : WalkValue) → slice_get walks.now 0 ≡ Some first → answer ≡ repeats first.states) }
{
    match walks.first() {
        Some(first) => repeats(alloc, first),
        None => Ok(false),
    }
}

/// What is kept of entries, in fault order.
fn in_fault_order<K: Kept + Drop>(kept: List<K>) -> Result<List<K>, NoMemory>
    ensures same { IfOk result (IsPermutation kept) }
    ensures sorted { IfOk result (IsSortedBy (is_kept_before K.fault_of)) }
{
    let mut sorted = kept.into_vec();
    sorted.sort_by(|a, b| a.its_fault().compare(b.its_fault()))?;
    Ok(List::from_vec(sorted))
}
