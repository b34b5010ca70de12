//! What the check of a configuration gives.

ghost use Rattle.std.specs.Prelude.{◌≡◌, ◌⊎◌, IfOk};
ghost use Rattle.std.specs.List.{flat_map};
ghost use Rattle.graph_form.specs.declared.report.Report.{Report};
ghost use Rattle.groot_run.specs.KeptText.{kept_text};
ghost use Rattle.query_verdicts.specs.Kept.{KeepsReport};
ghost use Rattle.report_json.specs.Report.{report_text};
ghost use Rattle.report_run.specs.Judged.{AreLimits};
ghost use Rattle.run_endings.specs.Endings.{no_memory};
ghost use Rattle.groot_run.specs.Outcome.{Checks, reported};

use crate::kept_text::{EntryText, numbers_of, status_of, texts_of};
use dns_data::{List, NoMemory, Octets};
use io_edges::Gate;
use net_model::Config;
use query_verdicts::KeptReport;
use report_json::report_pieces;
use report_run::{CheckLimits, report_of};
use run_endings::Ending;
use std::alloc::Global;
use std::sync::Wait;
use std::thread::Threads;

/// The check of a configuration: its report, unless its class tree has too many names or else a representative reaches too
/// many pairs of state and type.
pub(crate) fn check<G: Gate + Sync, R: Threads + Wait + Sync>(
    rt: &R,
    alloc: Global,
    config: &Config,
    limits: CheckLimits,
    gate: &G,
) -> Ending
    requires { AreLimits limits }
    ensures { Checks limits.classes limits.rewrites config.now result ⊎ (result ≡ no_memory) }
{
    match report_of::<EntryText, G, R>(rt, alloc, config, limits, gate) {
        Ok(report) => written(alloc, report),
        Err(ending) => ending,
    }
}

/// How a run ends with the report of which the texts of the entries are kept.
fn written(alloc: Global, report: KeptReport<EntryText>) -> Ending
    ensures { (whole : Report) → KeepsReport kept_text report whole → (result ≡ reported whole) ⊎ (result ≡ no_memory) }
{
    let status = status_of(report.kept.items());
    Ending::in_pieces(status, pieces_of(alloc, report))
}

/// The text of the report, in pieces.
fn pieces_of(alloc: Global, report: KeptReport<EntryText>) -> Result<List<Octets>, NoMemory>
    ensures { IfOk result (λ pieces. (whole : Report) → KeepsReport kept_text report whole
        → flat_map (λ piece. piece) pieces ≡ report_text whole) }
{
    let numbers = numbers_of(&report);
    let texts = texts_of(alloc, report.kept)?;
    report_pieces(alloc, numbers, texts)
}
