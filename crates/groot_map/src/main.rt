//! The program: the top call over the disk, the standard streams and the words of the command line.
#![tactic(auto)]

ghost use Rattle.std.specs.Prelude.{map};
ghost use Rattle.std.specs.String.{string_bytes};
ghost use Rattle.run_endings.specs.Runs.{files_of, output_of};
ghost use Rattle.map_run.specs.Runs.{RunsAsAsked};

use dns_data::NoMemory;
use io_edges::{DiskFiles, Files, OutSink, Sink, borrowed_words, command_words};
use map_run::groot_map;
use run_endings::{Status, tell_no_memory};
use std::alloc::Global;
use std::process::ExitCode;

fn main(rt: HostRuntime) -> ExitCode {
    let mut files = DiskFiles::new(&rt);
    let mut out = OutSink::new(rt.stdout());
    let mut err = OutSink::new(rt.stderr());
    let status = match command_words(&rt) {
        Ok(words) => run(rt.alloc(), words.as_slice(), &mut files, &mut out, &mut err),
        Err(NoMemory) => tell_no_memory(&mut err),
    };
    ExitCode::from(status.number())
}

/// Runs the top call with these words: it is a run of their job, of which the output passes on exactly the text where
/// nothing fails.
fn run<F: Files, O: Sink, E: Sink>(
    alloc: Global,
    words: &[String],
    files: &mut F,
    out: &mut O,
    err: &mut E,
) -> Status
    ensures { RunsAsAsked (map string_bytes words.now)
        (files_of F.told F.faults files.old files.new) (output_of O.taken O.passed O.faults out.old out.new) (output_of E.taken E.passed E.faults err.old err.new) result }
{
    match borrowed_words(alloc, words) {
        Ok(words) => groot_map(alloc, words.as_slice(), files, out, err),
        Err(NoMemory) => tell_no_memory(err),
    }
}
