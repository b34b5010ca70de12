//! The top call.

ghost use Rattle.std.specs.Prelude.{◌≡◌, ◌⊎◌, map, Some};
ghost use Rattle.report_run.specs.Judged.{AreLimits};
ghost use Rattle.run_endings.specs.Endings.{no_memory};
ghost use Rattle.run_endings.specs.Runs.{files_of, output_of};
ghost use Rattle.parts_run.specs.Answered.{IsNotRead};
ghost use Rattle.parts_run.specs.Runs.{EndsAsAsked, JobEnds, MergesParts, ReportsParts, RunsAsAsked};
ghost use Rattle.parts_run.specs.declared.words.PartsJob.TheVariants.{Merge, Part};

use crate::fault::ReadFault;
use crate::merge::{merged_ending, refused};
use crate::part::{PartJob, part};
use crate::reading::read_reports;
use crate::words::{PartsJob, read_words, usage_line};
use dns_data::{NoMemory, Text};
use io_edges::{Files, Gate, Sink};
use report_run::CheckLimits;
use run_endings::{Ending, Status, write_ending};
use std::alloc::Global;
use std::sync::Wait;
use std::thread::Threads;

/// Does what the words after the program's name ask for, writes its text on out, and tells on err how it ended. A part is
/// judged by as many workers as the words say; each asks the gate once for each name that it takes.
pub fn groot_parts<F: Files, O: Sink, E: Sink, G: Gate + Sync, R: Threads + Wait + Sync>(
    rt: &R,
    alloc: Global,
    words: &[&str],
    files: &mut F,
    out: &mut O,
    err: &mut E,
    gate: &G,
) -> Status
    // If each file that `merge` names holds what is written of a part of a configuration, out gets exactly the text of
    // the report of the whole, and the status is 1 exactly if it has an entry; or the reports don't stand in order, and
    // are refused; or memory ran out.
    ensures merge { MergesParts (map (λ word. word.now) words.now)
        (files_of F.told F.faults files.old files.new) (output_of O.taken O.passed O.faults out.old out.new) result }

    // If the files of `part` read, out gets exactly the text of the report of the part that has the names in its file: what
    // `merge` asks of a report; or the names make no part, a budget is passed, or memory ran out.
    ensures part { ReportsParts (map (λ word. word.now) words.now)
        (files_of F.told F.faults files.old files.new) (output_of O.taken O.passed O.faults out.old out.new) result }

    // Where nothing failed, the run is an outcome of the words' job, and out passed on exactly its text; else the run says
    // why.
    ensures run { RunsAsAsked (map (λ word. word.now) words.now)
        (files_of F.told F.faults files.old files.new) (output_of O.taken O.passed O.faults out.old out.new) (output_of E.taken E.passed E.faults err.old err.new) result }
{
    write_ending(out, err, run_words(rt, alloc, words, files, gate))
}

/// Does what the words after the program's name ask for, up to the writing: the status with which the run ends, the
/// text for out and the line for err.
fn run_words<F: Files, G: Gate + Sync, R: Threads + Wait + Sync>(
    rt: &R,
    alloc: Global,
    words: &[&str],
    files: &mut F,
    gate: &G,
) -> Ending
    // Where no read failed, it is an outcome of the words' job; else the ending says why.
    ensures run { EndsAsAsked (map (λ word. word.now) words.now) (files_of F.told F.faults files.old files.new) result }
{
    match read_words(alloc, words) {
        Ok(Some(PartsJob::Merge { files: names })) => of_reports(alloc, files, names.items()),
        Ok(
            Some(
                PartsJob::Part {
                    meta,
                    names,
                    limits,
                },
            ),
        ) => of_part(rt, alloc, files, &meta, &names, limits, gate),
        Ok(None) => Ending::usage(usage_line()),
        Err(NoMemory) => Ending::no_memory(),
    }
}

/// What the part gives that has the names in a file, of the configuration of a metadata file.
fn of_part<F: Files, G: Gate + Sync, R: Threads + Wait + Sync>(
    rt: &R,
    alloc: Global,
    files: &mut F,
    meta: &Text,
    names: &Text,
    limits: CheckLimits,
    gate: &G,
) -> Ending
    requires { AreLimits limits }
    ensures { JobEnds (Some (Part meta.now names.now limits)) (files_of F.told F.faults files.old files.new) result }
{
    let job = PartJob {
        meta: meta.as_str(),
        names: names.as_str(),
        limits,
    };
    part(rt, alloc, files, job, gate)
}

/// What the reports of the files of these names give.
fn of_reports<F: Files>(alloc: Global, files: &mut F, names: &[Text]) -> Ending
    ensures { JobEnds (Some (Merge names.now)) (files_of F.told F.faults files.old files.new) result }
{
    match read_reports(alloc, files, names) {
        Ok(parts) => {
            files.let_go_of_all();
            merged_ending(alloc, names, parts)
        }
        Err(fault) => not_read(alloc, fault),
    }
}

/// What is told of reports that aren't read.
fn not_read(alloc: Global, fault: ReadFault) -> Ending
    ensures { IsNotRead fault result ⊎ (result ≡ no_memory) }
{
    match fault {
        ReadFault::NotReport(file) => refused(alloc, file.as_str(), "not-part-report"),
        // No fault here is of a metadata file.
        ReadFault::Load(fault) => Ending::not_loaded(alloc, "", fault),
    }
}
