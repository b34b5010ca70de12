//! The program: the top call over the disk, the standard streams and the words of the command line.
#![tactic(auto)]

ghost use Rattle.std.specs.Prelude.{map};
ghost use Rattle.std.specs.String.{string_bytes};
ghost use Rattle.run_endings.specs.Runs.{files_of, output_of};
ghost use Rattle.parts_run.specs.Runs.{RunsAsAsked};

use dns_data::NoMemory;
use io_edges::{DiskFiles, Files, FreeGate, OutSink, Sink, borrowed_words, command_words};
use parts_run::groot_parts;
use run_endings::{Status, tell_no_memory};
use std::alloc::Global;
use std::process::ExitCode;
use std::sync::Wait;
use std::thread::Threads;

fn main(rt: HostRuntime) -> ExitCode {
    let mut files = DiskFiles::new(&rt);
    let mut out = OutSink::new(rt.stdout());
    let mut err = OutSink::new(rt.stderr());
    let status = match command_words(&rt) {
        Ok(words) => run(
            &rt,
            rt.alloc(),
            words.as_slice(),
            &mut files,
            &mut out,
            &mut err,
        ),
        Err(NoMemory) => tell_no_memory(&mut err),
    };
    ExitCode::from(status.number())
}

/// Runs the top call with these words: it is a run of their job, of which the output passes on exactly the text where
/// nothing fails.
fn run<F: Files, O: Sink, E: Sink, R: Threads + Wait + Sync>(
    rt: &R,
    alloc: Global,
    words: &[String],
    files: &mut F,
    out: &mut O,
    err: &mut E,
) -> Status
    ensures { RunsAsAsked (map string_bytes words.now)
        (files_of F.told F.faults files.old files.new) (output_of O.taken O.passed O.faults out.old out.new) (output_of E.taken E.passed E.faults err.old err.new) result }
{
    match borrowed_words(alloc, words) {
        Ok(words) => groot_parts(rt, alloc, words.as_slice(), files, out, err, &FreeGate),
        Err(NoMemory) => tell_no_memory(err),
    }
}
