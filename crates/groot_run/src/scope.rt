//! The report on the queries at or below a name, and what the checks that an operator brings find in their classes.

ghost use Rattle.std.specs.Prelude.{◌≡◌, ◌⊎◌, ◌<◌, ◌≤◌, [], map, IfOk, IfErr};
ghost use Rattle.std.specs.List.{flat_map};
ghost use Rattle.graph_form.specs.declared.report.Report.{Report};
ghost use Rattle.groot_run.specs.KeptText.{kept_text};
ghost use Rattle.net_model.specs.Tree.{IsInPart};
ghost use Rattle.query_classes.specs.ClassList.{AreListed, classes_of_rows};
ghost use Rattle.query_verdicts.specs.Kept.{IsKeptReport, KeepsReport};
ghost use Rattle.query_verdicts.specs.Passed.{NonePasses};
ghost use Rattle.query_verdicts.specs.Queries.{most_states};
ghost use Rattle.query_verdicts.specs.Subjects.{IsCovering};
ghost use Rattle.report_json.specs.Sites.{scope_text};
ghost use Rattle.run_endings.specs.Endings.{no_memory};
ghost use Rattle.site_checks.specs.Views as views;
ghost use Rattle.report_run.specs.Counted.{EndsPast};
ghost use Rattle.groot_line.specs.Program.{largest_names};
ghost use Rattle.groot_run.specs.Outcome.{Scopes, scope_of};
ghost use Rattle.groot_run.specs.ShownClasses.{sites_of};
ghost use Rattle.groot_run.specs.ScopeTexts.{EndsByText, TellsScope, TellsText};

use crate::classes::rows_at;
use crate::kept_text::{EntryText, has_entries, numbers_of, status_when, texts_of};
use crate::shown::{ShownChecks, Watchers, findings};
use crate::site::show_rows;
use class_judge::{Judge, Naming};
use dns_data::{List, Name, NoMemory, Octets};
use groot_line::{USUAL_REWRITES, USUAL_WORKERS};
use io_edges::Gate;
use job_scope::ScopeJudge;
use net_model::Config;
use query_classes::ClassRow;
use query_verdicts::{KeptReport, MOST_STATES};
use report_json::scope_pieces;
use report_run::{CheckLimits, report_by_judge};
use run_endings::Ending;
use std::alloc::Global;
use std::marker::Brand;
use std::mem::forget;
use std::sync::Wait;
use std::thread::Threads;

/// The text of scopes, in pieces, and whether one of them has a fault.
#[derive(Drop)]
pub(crate) struct ScopeText {
    pub faulty: bool,
    pub pieces: List<Octets>,
}

/// The scope of a name in a configuration: the report on the queries at or below the name, and what the checks find in
/// their classes; unless the scope has more than so many names, or else a representative in it or the name of a server
/// reaches too many pairs of state and type.
pub(crate) fn scope<W: Watchers, G: Gate + Sync, R: Threads + Wait + Sync>(
    rt: &R,
    alloc: Global,
    config: &Config,
    scope: &Name,
    names: u32,
    gate: &G,
    sites: &mut ShownChecks<W>,
) -> Ending
    requires some { 0 < names }
    requires few { names ≤ largest_names }
    ensures { Scopes names scope.now (sites_of (λ b. name b) (λ b. held b) (λ b. step b) (W.sites sites.old.own) sites.old.brought.items) config.now result
        ⊎ (result ≡ no_memory) }
{
    // The labels are read, so that the length of the name is known here.
    let _ = scope.labels();
    ended(judged::<Brand, W, G, R>(rt, alloc, config, scope, names, gate, sites))
}

/// How a run ends by the text of scopes.
pub(crate) fn ended(text: Result<ScopeText, Ending>) -> Ending
    ensures { EndsByText text result }
{
    match text {
        Ok(text) => Ending::in_pieces(status_when(text.faulty), Ok(text.pieces)),
        Err(ending) => ending,
    }
}

/// The text of the scope of a name, by the judge of this name.
fn judged<N: Naming + Send + Sync, W: Watchers, G: Gate + Sync, R: Threads + Wait + Sync>(
    rt: &R,
    alloc: Global,
    config: &Config,
    scope: &Name,
    names: u32,
    gate: &G,
    sites: &mut ShownChecks<W>,
) -> Result<ScopeText, Ending>
    requires name { (scope_of config.now scope.now ≡ N.subject) × (most_states ≡ N.states) }
    requires covering { IsCovering N.subject }
    requires some { 0 < names }
    requires few { names ≤ largest_names }
    ensures { TellsScope names N.subject (sites_of (λ b. name b) (λ b. held b) (λ b. step b) (W.sites sites.old.own) sites.old.brought.items) result }
{
    match ScopeJudge::<N>::prepare(alloc, config, USUAL_REWRITES, MOST_STATES, scope) {
        Ok(judge) => {
            let text = text_by_judge(rt, alloc, judge.as_judge(), scope, names, gate, sites);
            // The run ends so, and the trees of all zones with it: none is taken apart.
            forget(judge);
            text
        }
        Err(NoMemory) => Err(Ending::no_memory()),
    }
}

/// The text of the scope of a name, by its judge. The names of the scope are counted before one is judged, since DNAME
/// records may multiply them.
pub(crate) fn text_by_judge<
    N: Naming + Send + Sync,
    W: Watchers,
    G: Gate + Sync,
    R: Threads + Wait + Sync,
>(
    rt: &R,
    alloc: Global,
    judge: &Judge<'_, N>,
    scope: &Name,
    names: u32,
    gate: &G,
    sites: &mut ShownChecks<W>,
) -> Result<ScopeText, Ending>
    requires name { (scope.now ≡ N.subject.below) × (most_states ≡ N.states) }
    requires covering { IsCovering N.subject }
    requires some { 0 < names }
    requires few { names ≤ largest_names }
    ensures { TellsScope names N.subject (sites_of (λ b. name b) (λ b. held b) (λ b. step b) (W.sites sites.old.own) sites.old.brought.items) result }
{
    let limits = CheckLimits {
        workers: USUAL_WORKERS,
        classes: names,
        rewrites: USUAL_REWRITES,
    };
    match rows_of(alloc, judge, scope, names) {
        Ok(rows) => match report_by_judge::<N, EntryText, G, R>(rt, alloc, judge, limits, gate) {
            Ok(report) => shown(alloc, judge, scope, rows.items(), report, sites),
            Err(ending) => Err(ending),
        },
        Err(ending) => Err(ending),
    }
}

/// The text of a scope whose report and whose names' rows these are: the checks are shown the views of the classes, in
/// class order.
fn shown<N: Naming, W: Watchers>(
    alloc: Global,
    judge: &Judge<'_, N>,
    scope: &Name,
    rows: &[ClassRow],
    report: KeptReport<EntryText>,
    sites: &mut ShownChecks<W>,
) -> Result<ScopeText, Ending>
    requires name { (scope.now ≡ N.subject.below) × (most_states ≡ N.states) }
    requires listed { AreListed N.subject.ground N.subject.below (classes_of_rows rows.now) }
    requires none_passes { NonePasses N.subject most_states }
    requires report { IsKeptReport N.subject kept_text report }
    ensures { TellsText N.subject (sites_of (λ b. name b) (λ b. held b) (λ b. step b) (W.sites sites.old.own) sites.old.brought.items) result }
{
    match show_rows(alloc, judge.queries(), rows, sites) {
        Ok(()) => {
            let faulty = has_entries(report.kept.items());
            match text_of(alloc, report, scope, sites) {
                Ok(pieces) => Ok(ScopeText { faulty, pieces }),
                Err(NoMemory) => Err(Ending::no_memory()),
            }
        }
        Err(ending) => Err(ending),
    }
}

/// The rows of the class tree at or below the name of a scope, or how a run ends since it has more names there than the
/// limit.
fn rows_of<N: Naming>(
    alloc: Global,
    judge: &Judge<'_, N>,
    name: &Name,
    names: u32,
) -> Result<List<ClassRow>, Ending>
    requires { name.now ≡ N.subject.below }
    ensures listed { IfOk result (λ rows. AreListed N.subject.ground N.subject.below (classes_of_rows rows)) }
    ensures err { IfErr result (EndsPast (IsInPart N.subject.ground N.subject.below) names) }
{
    rows_at(alloc, judge.base_names(), name, names)
}

/// The text of a scope, in pieces.
fn text_of<W: Watchers>(
    alloc: Global,
    report: KeptReport<EntryText>,
    scope: &Name,
    sites: &ShownChecks<W>,
) -> Result<List<Octets>, NoMemory>
    ensures { IfOk result (λ pieces. (whole : Report) → KeepsReport kept_text report whole
        → flat_map (λ piece. piece) pieces ≡ scope_text whole scope.now (map (views.site_findings []) (sites_of (λ b. name b) (λ b. held b) (λ b. step b) (W.sites sites.now.own) sites.now.brought.items))) }
{
    let numbers = numbers_of(&report);
    let found = findings(alloc, sites)?;
    let texts = texts_of(alloc, report.kept)?;
    scope_pieces(alloc, numbers, texts, scope, found.items())
}
