//! The top call.

ghost use Rattle.std.specs.Prelude.{[], map};
ghost use Rattle.run_endings.specs.Runs.{files_of, output_of};
ghost use Rattle.groot_run.specs.Runs.{WritesReport, EndsInReport, RunsAsAsked, EndsAsAsked};

use crate::ending::usage;
use crate::job::of_job;
use crate::laws;
use crate::shown::{NoChecks, ShownChecks};
use groot_line::{LineFault, Program, read_words_of};
use io_edges::{Files, Gate, Sink};
use run_endings::{Ending, Status, write_ending};
use site_checks::SiteCheck;
use std::alloc::Global;
use std::sync::Wait;
use std::thread::Threads;

/// Does what the words after the program's name ask of the program, writes its text on out, and tells on err how it ended.
/// A check is judged by as many workers as the words say; each asks the gate once for each name that it takes. The checks
/// that the operator brings are shown the classes where the words say so; whatever they ask for, and however the run ends,
/// they are let go.
pub fn run_program<F: Files, O: Sink, E: Sink, G: Gate + Sync, R: Threads + Wait + Sync>(
    rt: &R,
    alloc: Global,
    program: Program,
    words: &[&str],
    files: &mut F,
    out: &mut O,
    err: &mut E,
    gate: &G,
    sites: Vec<Box<dyn SiteCheck>>,
) -> Status
    // For files that read: each query name is in exactly one class and walks as its class's representative; and out took
    // and passed on exactly the text of their report. So it is for every number of workers and every schedule, if the call
    // returns.
    ensures headline { WritesReport program (map (λ word. word.now) words.now)
        (files_of F.told F.faults files.old files.new) (output_of O.taken O.passed O.faults out.old out.new) result }

    // Where nothing failed, the run is the outcome of the words' job, and out passed on exactly its text; else the run says
    // why.
    ensures run { RunsAsAsked program (map (λ word. word.now) words.now) (map (λ b. record { name = name b; held = held b; step = step b }) sites.items)
        (files_of F.told F.faults files.old files.new) (output_of O.taken O.passed O.faults out.old out.new) (output_of E.taken E.passed E.faults err.old err.new) result }
{
    laws::query_classes();
    let ending = run_words(rt, alloc, program, words, files, gate, sites);
    write_ending(out, err, ending)
}

/// Does what `run_program` does for `groot`.
pub fn groot_with_sites<F: Files, O: Sink, E: Sink, G: Gate + Sync, R: Threads + Wait + Sync>(
    rt: &R,
    alloc: Global,
    words: &[&str],
    files: &mut F,
    out: &mut O,
    err: &mut E,
    gate: &G,
    sites: Vec<Box<dyn SiteCheck>>,
) -> Status
    // For files that read: each query name is in exactly one class and walks as its class's representative; and out took
    // and passed on exactly the text of their report. So it is for every number of workers and every schedule, if the call
    // returns.
    ensures headline { WritesReport Program.Groot (map (λ word. word.now) words.now)
        (files_of F.told F.faults files.old files.new) (output_of O.taken O.passed O.faults out.old out.new) result }

    // Where nothing failed, the run is the outcome of the words' job, and out passed on exactly its text; else the run says
    // why.
    ensures run { RunsAsAsked Program.Groot (map (λ word. word.now) words.now) (map (λ b. record { name = name b; held = held b; step = step b }) sites.items)
        (files_of F.told F.faults files.old files.new) (output_of O.taken O.passed O.faults out.old out.new) (output_of E.taken E.passed E.faults err.old err.new) result }
{
    run_program(
        rt,
        alloc,
        Program::Groot,
        words,
        files,
        out,
        err,
        gate,
        sites,
    )
}

/// Does what `groot_with_sites` does for an operator who brings no check.
pub fn groot<F: Files, O: Sink, E: Sink, G: Gate + Sync, R: Threads + Wait + Sync>(
    rt: &R,
    alloc: Global,
    words: &[&str],
    files: &mut F,
    out: &mut O,
    err: &mut E,
    gate: &G,
) -> Status
    // For files that read: each query name is in exactly one class and walks as its class's representative; and out took
    // and passed on exactly the text of their report. So it is for every number of workers and every schedule, if the call
    // returns.
    ensures headline { WritesReport Program.Groot (map (λ word. word.now) words.now)
        (files_of F.told F.faults files.old files.new) (output_of O.taken O.passed O.faults out.old out.new) result }

    // Where nothing failed, the run is the outcome of the words' job, and out passed on exactly its text; else the run says
    // why.
    ensures run { RunsAsAsked Program.Groot (map (λ word. word.now) words.now) []
        (files_of F.told F.faults files.old files.new) (output_of O.taken O.passed O.faults out.old out.new) (output_of E.taken E.passed E.faults err.old err.new) result }
{
    let none = Vec::new(alloc);
    groot_with_sites(rt, alloc, words, files, out, err, gate, none)
}

/// Does what the words after the program's name ask of the program, up to the writing: the status with which the run ends,
/// the text for out and the line for err. The checks that the operator brings are let go.
pub fn run_words<F: Files, G: Gate + Sync, R: Threads + Wait + Sync>(
    rt: &R,
    alloc: Global,
    program: Program,
    words: &[&str],
    files: &mut F,
    gate: &G,
    sites: Vec<Box<dyn SiteCheck>>,
) -> Ending
    // For files that read, by the octets that were read of them, the run ends in the report of their configuration.
    ensures headline { EndsInReport program (map (λ word. word.now) words.now) (files_of F.told F.faults files.old files.new) result }

    // Where no read failed, it is the outcome of the words' job; else the ending says why.
    ensures run { EndsAsAsked program (map (λ word. word.now) words.now) (map (λ b. record { name = name b; held = held b; step = step b }) sites.items)
        (files_of F.told F.faults files.old files.new) result }
{
    let mut sites = ShownChecks {
        own: NoChecks,
        brought: sites,
    };
    match read_words_of(alloc, program, words) {
        Ok(job) => of_job(rt, alloc, program, files, &job, gate, &mut sites),
        Err(LineFault::Usage) => usage(program),
        Err(LineFault::NoMemory) => Ending::no_memory(),
    }
}
