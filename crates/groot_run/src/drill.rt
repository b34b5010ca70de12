//! What a drill gives.

ghost use Rattle.std.specs.Prelude.{◌≡◌, ◌⊎◌, ◌<◌, ◌≤◌, ◌+◌, codes, length, min, IfOk};
ghost use Rattle.graph_form.specs.declared.report.Report.{Report};
ghost use Rattle.groot_run.specs.DrillLine.{drill_line, record_count, zone_records};
ghost use Rattle.run_endings.specs.Endings.{OfReading, no_memory};
ghost use Rattle.groot_line.specs.Program.{largest_names, usual_names};
ghost use Rattle.groot_run.specs.Outcome.{Drills, drilled};
ghost use Rattle.groot_run.specs.Programs.{conf_of};
ghost use Rattle.io_edges.specs.Counts.{last_count};
ghost use Rattle.zone_maker.specs.Source.{drill_told};

use crate::counts::put_count;
use crate::kept_text::status_of;
use crate::load::configuration;
use dns_data::{NoMemory, Octets};
use groot_line::{Program, USUAL_REWRITES};
use io_edges::Gate;
use net_model::{Config, Fault, Server, Zone};
use query_verdicts::KeptReport;
use report_run::{CheckLimits, report_of};
use run_endings::Ending;
use std::alloc::Global;
use std::sync::Wait;
use std::thread::Threads;
use zone_maker::DrillFiles;

/// A drill of this many zones: its files are made and read as any others, and the line tells what the check of them
/// counts. Its limits are those of a check whose words say none.
pub(crate) fn drill<G: Gate + Sync, R: Threads + Wait + Sync>(
    rt: &R,
    alloc: Global,
    program: Program,
    zones: u32,
    workers: u32,
    gate: &G,
) -> Ending
    requires some { 1 ≤ zones }
    requires few { zones ≤ 5000 }
    requires workers { 1 ≤ workers }
    ensures { OfReading (codes "meta.json") (Drills (usual_names program) zones) (conf_of program (codes "meta.json") (drill_told zones)) result ⊎ (result ≡ no_memory) }
{
    match DrillFiles::make(alloc, zones) {
        Ok(mut files) => match configuration(alloc, program, &mut files, "meta.json") {
            Ok(config) => {
                let names = program.usual_names();
                of_config(rt, alloc, &config, zones, names, workers, gate)
            }
            Err(ending) => ending,
        },
        Err(NoMemory) => Ending::no_memory(),
    }
}

/// What a drill gives of the configuration of its files, whose class tree may have so many names.
fn of_config<G: Gate + Sync, R: Threads + Wait + Sync>(
    rt: &R,
    alloc: Global,
    config: &Config,
    zones: u32,
    names: u32,
    workers: u32,
    gate: &G,
) -> Ending
    requires workers { 1 ≤ workers }
    requires some { 0 < names }
    requires few { names ≤ largest_names }
    ensures { Drills names zones config.now result ⊎ (result ≡ no_memory) }
{
    let limits = CheckLimits {
        workers,
        classes: names,
        rewrites: USUAL_REWRITES,
    };
    match report_of::<Fault, G, R>(rt, alloc, config, limits, gate) {
        Ok(report) => drilled(alloc, zones, config, &report),
        Err(ending) => ending,
    }
}

/// The end of a drill with this report.
fn drilled(alloc: Global, zones: u32, config: &Config, report: &KeptReport<Fault>) -> Ending
    ensures { (whole : Report) → report.now.names ≡ whole.names → length report.now.kept ≡ length whole.entries →
        (result ≡ drilled zones config.now whole) ⊎ (result ≡ no_memory) }
{
    let faults = report.kept.len() as u64;
    let line = line_of(alloc, zones, records(config), report.names, faults);
    Ending::written(status_of(report.kept.items()), line)
}

/// The line of a drill.
fn line_of(
    alloc: Global,
    zones: u32,
    records: u64,
    names: u32,
    faults: u64,
) -> Result<Octets, NoMemory>
    ensures { IfOk result (λ line. line ≡ drill_line zones records names faults) }
{
    let mut line = Octets::new();
    put_count(alloc, &mut line, b"drill ", u64::from(zones))?;
    put_count(alloc, &mut line, b": files ", u64::from(zones) + 1)?;
    put_count(alloc, &mut line, b", records ", records)?;
    put_count(alloc, &mut line, b", names ", u64::from(names))?;
    put_count(alloc, &mut line, b", faults ", faults)?;
    line.push(alloc, b'\n')?;
    Ok(line)
}

/// How many records a configuration has; where there are more than a count tells, the last count.
fn records(config: &Config) -> u64
    ensures { result ≡ min (record_count config.now.servers) last_count }
{
    let mut count = 0;
    for server in config.servers() {
        count = server_records(server, count);
    }
    count
}

/// A count with those of a server.
fn server_records(server: &Server, before: u64) -> u64
    ensures { result ≡ min (before + zone_records server.now.zones) last_count }
{
    let mut count = before;
    for zone in server.zones.items() {
        count = count.saturating_add(zone_size(zone));
    }
    count
}

/// How many records a zone has.
fn zone_size(zone: &Zone) -> u64
    ensures { result ≡ length zone.now.rrs }
{
    zone.rrs.items().len() as u64
}
