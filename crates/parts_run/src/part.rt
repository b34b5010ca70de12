//! What is told of a part of a configuration.

ghost use Rattle.std.specs.Prelude.{◌≡◌, ◌⊎◌, ◌+◌, ◌++◌, ◌<◌, ◌^◌, codes, length, IfOk};
ghost use Rattle.dns_data.specs.Spelling.{name_text};
ghost use Rattle.io_edges.specs.Counts.{NoneFell};
ghost use Rattle.io_edges.specs.Files.{StaysTold, TellsAll};
ghost use Rattle.config_load.specs.Load.{OpensNoOther};
ghost use Rattle.report_run.specs.Judged.{AreLimits};
ghost use Rattle.run_endings.specs.Ends.{EndsOver};
ghost use Rattle.run_endings.specs.Endings.{no_memory};
ghost use Rattle.part_checks.specs.Taking.{IsTakenWhole};
ghost use Rattle.part_names.specs.PartNames.{names_in};
ghost use Rattle.parts_run.specs.PartTold.{IsBroken, TellsPart, TellsRead, bad_line, behind_names, config_for, part_files, rule_code};

use crate::merge::refused;
use config_load::{Limits, load_taken, read_file};
use dns_data::{List, Name, NoMemory, Text};
use io_edges::{Files, Gate};
use net_model::Config;
use part_checks::{PartFault, PartRule, PartTaker};
use part_names::{NamesFault, PartNames, read_part_names};
use part_run::write_part;
use report_run::CheckLimits;
use run_endings::{Ending, Status, refusal_line};
use std::alloc::Global;
use std::mem::forget;
use std::sync::Wait;
use std::thread::Threads;

/// A job for the report of a part: the names of the metadata file of a configuration, the whole, and of the file that tells
/// the names of the part, and the limits of the check.
#[derive(Clone, Copy, Debug)]
pub(crate) struct PartJob<'a> {
    pub meta: &'a str,
    pub names: &'a str,
    pub limits: CheckLimits,
}

/// The report of the part that has the names in a file, of the configuration of a metadata file. The names are read before
/// the configuration, of which no more is kept than what the part holds, but for the zone that is read.
pub(crate) fn part<F: Files, G: Gate + Sync, R: Threads + Wait + Sync>(
    rt: &R,
    alloc: Global,
    files: &mut F,
    job: PartJob<'_>,
    gate: &G,
) -> Ending
    requires { AreLimits job.limits }
    ensures cause { EndsOver job.entry.meta.now (part_files job.entry.meta.now job.entry.names.now) (TellsRead job.entry.limits job.entry.names.now)
        (F.told files.new) (F.faults files.old) (F.faults files.new) result }
    ensures from_the_start { TellsAll (F.told files.old) → F.told files.new ≡ F.told files.old }
    ensures opens { OpensNoOther (part_files job.entry.meta.now job.entry.names.now) (F.told files.old) (F.told files.new) }
{
    match read_file(alloc, Limits::largest(), files, job.names) {
        Ok(octets) => of_octets(rt, alloc, files, job, octets, gate),
        // No fault here is of the metadata: a file that is too long is told by its own name.
        Err(fault) => Ending::not_loaded(alloc, job.meta, fault),
    }
}

/// The report of the part whose names a file with these octets tells.
fn of_octets<F: Files, G: Gate + Sync, R: Threads + Wait + Sync>(
    rt: &R,
    alloc: Global,
    files: &mut F,
    job: PartJob<'_>,
    octets: List<u8>,
    gate: &G,
) -> Ending
    requires limits { AreLimits job.limits }
    requires few { length octets + 1 < 2 ^ 32 }
    ensures cause { EndsOver job.entry.meta.now (behind_names job.entry.meta.now (names_in octets)) (TellsRead job.entry.limits job.entry.names.now)
        (F.told files.new) (F.faults files.old) (F.faults files.new) result }
    ensures stays { StaysTold (F.told files.old) (F.told files.new) }
    ensures opens { OpensNoOther (behind_names job.entry.meta.now (names_in octets)) (F.told files.old) (F.told files.new) }
    ensures never_fall { NoneFell (F.faults files.old) (F.faults files.new) }
{
    match read_part_names(alloc, octets.items()) {
        Ok(names) => {
            // The file was read: its octets go before the configuration comes.
            drop(octets);
            of_names(rt, alloc, files, job, &names, gate)
        }
        Err(NamesFault::Line(line)) => bad_line(alloc, job.names, line),
        Err(NamesFault::NoMemory) => Ending::no_memory(),
    }
}

/// The report of the part that has these names.
fn of_names<F: Files, G: Gate + Sync, R: Threads + Wait + Sync>(
    rt: &R,
    alloc: Global,
    files: &mut F,
    job: PartJob<'_>,
    names: &PartNames,
    gate: &G,
) -> Ending
    requires { AreLimits job.limits }
    ensures cause { EndsOver job.entry.meta.now (config_for names.now job.entry.meta.now)
        (λ config ending. TellsPart job.entry.limits job.entry.names.now config names.now ending) (F.told files.new) (F.faults files.old) (F.faults files.new) result }
    ensures stays { StaysTold (F.told files.old) (F.told files.new) }
    ensures opens { OpensNoOther (config_for names.now job.entry.meta.now) (F.told files.old) (F.told files.new) }
    ensures never_fall { NoneFell (F.faults files.old) (F.faults files.new) }
{
    let Ok(mut taker) = PartTaker::new(alloc, names) else {
        return Ending::no_memory();
    };
    match load_taken(alloc, Limits::largest(), files, job.meta, &mut taker) {
        Ok(taken) => {
            files.let_go_of_all();
            let ending = of_taken(rt, alloc, job, names, &taker, taken, gate);
            // The run ends so, and the sets of its names with it: they aren't taken apart.
            forget(taker);
            ending
        }
        Err(fault) => {
            forget(taker);
            Ending::not_loaded(alloc, job.meta, fault)
        }
    }
}

/// The report of the part that has these names, of a configuration whose zones were taken; or how a run ends since they
/// make no part.
fn of_taken<G: Gate + Sync, R: Threads + Wait + Sync>(
    rt: &R,
    alloc: Global,
    job: PartJob<'_>,
    names: &PartNames,
    taker: &PartTaker<'_>,
    taken: Config,
    gate: &G,
) -> Ending
    requires limits { AreLimits job.limits }
    requires names { taker.now.names ≡ names.now }
    ensures { (whole : Config) → IsTakenWhole taker.now whole taken → TellsPart job.entry.limits job.entry.names.now whole names.now result ⊎ (result ≡ no_memory) }
{
    match taker.part_of(alloc, taken) {
        Ok(left) => {
            let ending = write_part(rt, alloc, names, &left, job.limits, gate);
            // As above: what is left isn't taken apart.
            forget(left);
            ending
        }
        Err(PartFault::Breaks(rule, name)) => broken(alloc, job.names, rule, &name),
        Err(PartFault::NoMemory) => Ending::no_memory(),
    }
}

/// The line of the file with this number tells no name of a part.
fn bad_line(alloc: Global, file: &str, line: u32) -> Ending
    ensures { (result ≡ bad_line file.now line) ⊎ (result ≡ no_memory) }
{
    match refusal_line(alloc, file, line, "bad-line") {
        Ok(told) => Ending::without_output(Status::Refused, told),
        Err(NoMemory) => Ending::no_memory(),
    }
}

/// The names of the file make no part: the rule doesn't hold of this name.
fn broken(alloc: Global, file: &str, rule: PartRule, name: &Name) -> Ending
    ensures { IsBroken file.now rule name.now result ⊎ (result ≡ no_memory) }
{
    match broken_code(alloc, rule, name) {
        Ok(code) => refused(alloc, file, code.as_str()),
        Err(NoMemory) => Ending::no_memory(),
    }
}

/// The code of a rule and the name of which it doesn't hold.
fn broken_code(alloc: Global, rule: PartRule, name: &Name) -> Result<Text, NoMemory>
    ensures { IfOk result (λ code. code ≡ rule_code rule ++ (codes " " ++ name_text name.now)) }
{
    let name = name.to_text(alloc)?;
    let mut code = String::from_str(alloc, rule_code(rule))?;
    code.push_str(" ")?;
    code.push_str(name.as_str())?;
    Ok(Text::from_string(code))
}

/// The word for a rule.
fn rule_code(rule: PartRule) -> &'static str
    ensures { result.now ≡ rule_code rule }
{
    match rule {
        PartRule::Met => "unmet",
        PartRule::Exists => "exists",
        PartRule::Short => "short",
        PartRule::Apart => "apart",
        PartRule::Alias => "alias",
        PartRule::Redirects => "redirection",
        PartRule::Referral => "referral",
        PartRule::Own => "own",
        PartRule::Away => "away",
    }
}
