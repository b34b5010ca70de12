//! What a job gives.

ghost use Rattle.std.specs.Prelude.{◌≡◌, ◌⊎◌, map, Ok};
ghost use Rattle.io_edges.specs.Files.{TellsAll};
ghost use Rattle.groot_line.specs.Job.{AreInRange, IsTaskInRange};
ghost use Rattle.run_endings.specs.Endings.{no_memory};
ghost use Rattle.groot_run.specs.JobEnds.{JobEnds};
ghost use Rattle.groot_run.specs.Outcome.{GivesOf, JobOpensNoOther};

use crate::ask::ask;
use crate::check::check;
use crate::classes::list_classes;
use crate::drill::drill;
use crate::load::last_configuration;
use crate::recheck::recheck;
use crate::same::same;
use crate::scope::scope;
use crate::scopes::scopes;
use crate::shown::{NoChecks, ShownChecks};
use crate::site::site;
use groot_line::{Job, Program, Task};
use io_edges::{Files, Gate};
use net_model::Config;
use report_run::CheckLimits;
use run_endings::Ending;
use std::alloc::Global;
use std::mem::forget;
use std::sync::Wait;
use std::thread::Threads;

/// What a job gives by the program. Each but a drill begins with the configuration of its metadata file. The gate is asked
/// where workers judge, and the checks that the operator brings are shown the classes of `site` and of `scope`.
pub(crate) fn of_job<F: Files, G: Gate + Sync, R: Threads + Wait + Sync>(
    rt: &R,
    alloc: Global,
    program: Program,
    files: &mut F,
    job: &Job,
    gate: &G,
    sites: &mut ShownChecks<NoChecks>,
) -> Ending
    requires { AreInRange program job.now }
    ensures cause { JobEnds program (F.told files.new) (Ok job.now) (map (λ b. record { name = name b; held = held b; step = step b }) sites.old.brought.items)
        (F.faults files.old) (F.faults files.new) result }
    ensures from_the_start { TellsAll (F.told files.old) → F.told files.new ≡ F.told files.old }
    ensures opens { JobOpensNoOther program (F.told files.old) (F.told files.new) (Ok job.now) }
{
    match job {
        Job::OfConfig { meta, task } => match last_configuration(
            alloc,
            program,
            files,
            meta.as_str(),
        ) {
            Ok(config) => {
                let ending = of_task(rt, alloc, program, &config, task, gate, sites);
                // The run ends so, and the records of all zones with it: none is taken apart.
                forget(config);
                ending
            }
            Err(ending) => ending,
        },
        Job::Drill { n, workers } => drill(rt, alloc, program, *n, *workers, gate),
        Job::Recheck { meta, report } => {
            recheck(alloc, program, files, meta.as_str(), report.as_str())
        }
        Job::Same { first, second } => same(
            rt,
            alloc,
            program,
            files,
            first.as_str(),
            second.as_str(),
            gate,
        ),
        Job::Scopes { meta, names } => scopes(
            rt,
            alloc,
            program,
            files,
            meta.as_str(),
            names.as_str(),
            gate,
        ),
    }
}

/// What a task gives of its configuration.
fn of_task<G: Gate + Sync, R: Threads + Wait + Sync>(
    rt: &R,
    alloc: Global,
    program: Program,
    config: &Config,
    task: &Task,
    gate: &G,
    sites: &mut ShownChecks<NoChecks>,
) -> Ending
    requires { IsTaskInRange program task.now }
    ensures { GivesOf program task.now (map (λ b. record { name = name b; held = held b; step = step b }) sites.old.brought.items) config.now result
        ⊎ (result ≡ no_memory) }
{
    match task {
        Task::Check {
            workers,
            classes,
            rewrites,
        } => {
            let limits = CheckLimits {
                workers: *workers,
                classes: *classes,
                rewrites: *rewrites,
            };
            check(rt, alloc, config, limits, gate)
        }
        Task::Ask { name, rtype } => ask(alloc, config, name, *rtype),
        Task::Classes { classes } => list_classes(alloc, config, *classes),
        Task::Site => site(alloc, config, program.usual_names(), sites),
        Task::Scope { name } => scope(rt, alloc, config, name, program.usual_names(), gate, sites),
    }
}
