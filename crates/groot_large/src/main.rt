//! The program for more than `groot` takes: the top call with the largest limits, over the disk, the standard streams and
//! the words of the command line.
#![tactic(auto)]

ghost use Rattle.std.specs.Prelude.{map};
ghost use Rattle.std.specs.String.{string_bytes};
ghost use Rattle.run_endings.specs.Runs.{files_of, output_of};
ghost use Rattle.groot_run.specs.Runs.{RunsAsAsked};

use dns_data::NoMemory;
use groot_run::{Program, Status, run_program};
use io_edges::{DiskFiles, Files, FreeGate, OutSink, Sink, borrowed_words, command_words};
use run_endings::tell_no_memory;
use site_checks::{AOnly, Answering, SiteCheck};
use std::alloc::Global;
use std::process::ExitCode;
use std::sync::Wait;
use std::thread::Threads;

fn main(rt: HostRuntime) -> ExitCode {
    let alloc = rt.alloc();
    let mut err = OutSink::new(rt.stderr());
    let mut sites: Vec<Box<dyn SiteCheck>> = Vec::new(alloc);
    let Ok(a_only) = Box::new(alloc, AOnly::new(alloc)) else {
        return no_memory(&mut err);
    };
    let Ok(answering) = Box::new(alloc, Answering::new(alloc)) else {
        return no_memory(&mut err);
    };
    let Ok(()) = sites.push(a_only) else {
        return no_memory(&mut err);
    };
    let Ok(()) = sites.push(answering) else {
        return no_memory(&mut err);
    };
    let mut files = DiskFiles::new(&rt);
    let mut out = OutSink::new(rt.stdout());
    let status = match command_words(&rt) {
        Ok(words) => run(
            &rt,
            alloc,
            words.as_slice(),
            &mut files,
            &mut out,
            &mut err,
            sites,
        ),
        Err(NoMemory) => tell_no_memory(&mut err),
    };
    ExitCode::from(status.number())
}

/// Memory ran out before the run.
fn no_memory<E: Sink>(err: &mut E) -> ExitCode {
    ExitCode::from(tell_no_memory(err).number())
}

/// Runs the top call with these words and checks: it is a run of the job that the words ask of `groot-large`, of which the
/// output passes on exactly the text where nothing fails.
fn run<F: Files, O: Sink, E: Sink, R: Threads + Wait + Sync>(
    rt: &R,
    alloc: Global,
    words: &[String],
    files: &mut F,
    out: &mut O,
    err: &mut E,
    sites: Vec<Box<dyn SiteCheck>>,
) -> Status
    ensures { RunsAsAsked Program.GrootLarge (map string_bytes words.now) (map (λ b. record { name = name b; held = held b; step = step b }) sites.items)
        (files_of F.told F.faults files.old files.new) (output_of O.taken O.passed O.faults out.old out.new) (output_of E.taken E.passed E.faults err.old err.new) result }
{
    match borrowed_words(alloc, words) {
        Ok(words) => {
            let words = words.as_slice();
            let program = Program::GrootLarge;
            run_program(rt, alloc, program, words, files, out, err, &FreeGate, sites)
        }
        Err(NoMemory) => tell_no_memory(err),
    }
}
