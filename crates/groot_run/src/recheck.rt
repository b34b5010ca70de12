//! Whether the entries of a report are right.

ghost use Rattle.std.specs.Prelude.{◌≡◌, ◌⊎◌, ◌++◌, codes, decimal, IfOk};
ghost use Rattle.io_edges.specs.Files.{StaysTold, TellsAll};
ghost use Rattle.config_load.specs.Load.{ComesToFile, OpensNoOther};
ghost use Rattle.config_load.specs.Reading.{both, file_octets};
ghost use Rattle.run_endings.specs.Ends.{EndsOrFails};
ghost use Rattle.run_endings.specs.Endings.{OfReading, no_memory};
ghost use Rattle.groot_run.specs.Outcome.{IsRechecked, Rechecks};
ghost use Rattle.groot_run.specs.Programs.{conf_of, limits_of};

use crate::counts::put_count;
use crate::ending::{not_report, too_many_to_check};
use crate::load::{configuration, limits_of};
use config_load::read_file;
use dns_data::{NoMemory, Octets};
use groot_line::Program;
use io_edges::Files;
use net_model::Config;
use report_check::{CheckFault, Checked, check_report};
use run_endings::{Ending, Status};
use std::alloc::Global;

/// Whether the entries of the report in a file are right, by the walks of the configuration of a metadata file. The
/// report is read behind the configuration.
pub(crate) fn recheck<F: Files>(
    alloc: Global,
    program: Program,
    files: &mut F,
    meta: &str,
    report: &str,
) -> Ending
    ensures cause { EndsOrFails (OfReading meta.now (Rechecks program (F.told files.new) report.now) (conf_of program meta.now (F.told files.new)) result)
        (ComesToFile (both (conf_of program meta.now) (file_octets (limits_of program) report.now)) (F.told files.new)) (F.faults files.old) (F.faults files.new) result }
    ensures from_the_start { TellsAll (F.told files.old) → F.told files.new ≡ F.told files.old }
    ensures opens { OpensNoOther (both (conf_of program meta.now) (file_octets (limits_of program) report.now)) (F.told files.old) (F.told files.new) }
{
    match configuration(alloc, program, files, meta) {
        Ok(config) => of_config(alloc, program, files, &config, report),
        Err(ending) => ending,
    }
}

/// Whether the entries of the report in a file are right, by the walks of the configuration.
fn of_config<F: Files>(
    alloc: Global,
    program: Program,
    files: &mut F,
    config: &Config,
    report: &str,
) -> Ending
    ensures cause { EndsOrFails (OfReading report.now (IsRechecked report.now config.now) (file_octets (limits_of program) report.now (F.told files.new)) result)
        (ComesToFile (file_octets (limits_of program) report.now) (F.told files.new)) (F.faults files.old) (F.faults files.new) result }
    ensures stays { StaysTold (F.told files.old) (F.told files.new) }
    ensures from_the_start { TellsAll (F.told files.old) → F.told files.new ≡ F.told files.old }
    ensures opens { OpensNoOther (file_octets (limits_of program) report.now) (F.told files.old) (F.told files.new) }
{
    match read_file(alloc, limits_of(program), files, report) {
        Ok(octets) => {
            files.let_go_of_all();
            of_octets(alloc, config, report, octets.items())
        }
        Err(fault) => Ending::not_loaded(alloc, report, fault),
    }
}

/// Whether the entries of a report with these octets are right.
fn of_octets(alloc: Global, config: &Config, report: &str, octets: &[u8]) -> Ending
    ensures { IsRechecked report.now config.now octets.now result ⊎ (result ≡ no_memory) }
{
    match check_report(alloc, config, octets) {
        Ok(Checked::Right { entries }) => Ending::written(
            Status::Clean,
            right_line(alloc, entries),
        ),
        Ok(Checked::Wrong { entry }) => Ending::written(Status::Faults, wrong_line(alloc, entry)),
        Err(CheckFault::NotReport) => not_report(alloc, report),
        Err(CheckFault::Walks { entry }) => too_many_to_check(alloc, entry),
        Err(CheckFault::NoMemory) => Ending::no_memory(),
    }
}

/// The line that says that this many entries are right.
fn right_line(alloc: Global, entries: u64) -> Result<Octets, NoMemory>
    ensures { IfOk result (λ line. line ≡ codes "recheck: entries " ++ (decimal entries ++ codes ", right\n")) }
{
    let mut line = Octets::new();
    put_count(alloc, &mut line, b"recheck: entries ", entries)?;
    line.extend_from_slice(alloc, b", right\n")?;
    Ok(line)
}

/// The line that says that the entry with this number is wrong.
fn wrong_line(alloc: Global, entry: u64) -> Result<Octets, NoMemory>
    ensures { IfOk result (λ line. line ≡ codes "recheck: entry " ++ (decimal entry ++ codes " wrong\n")) }
{
    let mut line = Octets::new();
    put_count(alloc, &mut line, b"recheck: entry ", entry)?;
    line.extend_from_slice(alloc, b" wrong\n")?;
    Ok(line)
}
