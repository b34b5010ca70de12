//! A part judged: what is left of a configuration where the names of the part are held.

ghost use Rattle.std.specs.Prelude.{◌≡◌, ◌⊎◌};
ghost use Rattle.net_model.specs.declared.config.Config.{Config as ConfigValue};
ghost use Rattle.query_verdicts.specs.Carried.{whole_config};
ghost use Rattle.query_verdicts.specs.Queries.{most_states};
ghost use Rattle.query_verdicts.specs.Subjects.{IsCovering};
ghost use Rattle.report_run.specs.Judged.{AreLimits};
ghost use Rattle.run_endings.specs.Endings.{no_memory};
ghost use Rattle.part_run.specs.PartReported.{IsPartOf, ReportsPart};

use crate::entry::KeptEntry;
use crate::written::ended;
use class_judge::{Judge, Naming};
use dns_data::NoMemory;
use io_edges::Gate;
use net_model::Config;
use part_names::PartNames;
use query_verdicts::MOST_STATES;
use report_run::{CheckLimits, counted};
use run_endings::Ending;
use std::alloc::Global;
use std::marker::Brand;
use std::mem::forget;
use std::sync::Wait;
use std::thread::Threads;

/// How a run ends that writes the report of a part, where this is left of the whole configuration: with the text of the
/// report, unless the class tree of what is left has too many names or else a representative reaches too many pairs of
/// state and type. It is the same for every number of workers and every schedule.
pub fn write_part<G: Gate + Sync, R: Threads + Wait + Sync>(
    rt: &R,
    alloc: Global,
    names: &PartNames,
    left: &Config,
    limits: CheckLimits,
    gate: &G,
) -> Ending
    requires { AreLimits limits }
    ensures { (whole : ConfigValue) → IsPartOf whole names.now left.now
        → ReportsPart limits.classes limits.rewrites names.now whole result ⊎ (result ≡ no_memory) }
{
    judged::<Brand, G, R>(rt, alloc, names, left, limits, gate)
}

/// What the judge of this name tells of the part.
fn judged<N: Naming + Send + Sync, G: Gate + Sync, R: Threads + Wait + Sync>(
    rt: &R,
    alloc: Global,
    names: &PartNames,
    left: &Config,
    limits: CheckLimits,
    gate: &G,
) -> Ending
    requires limits { AreLimits limits }
    requires name { (whole_config left.now limits.rewrites ≡ N.subject) × (most_states ≡ N.states) }
    requires covering { IsCovering N.subject }
    ensures { (whole : ConfigValue) → IsPartOf whole names.now left.now
        → ReportsPart limits.classes limits.rewrites names.now whole result ⊎ (result ≡ no_memory) }
{
    match Judge::<N>::prepare(alloc, left, limits.rewrites, MOST_STATES) {
        Ok(judge) => {
            let ending = of_judge(rt, alloc, names, left, &judge, limits, gate);
            // The run ends so, and the trees of all zones with it: none is taken apart.
            forget(judge);
            ending
        }
        Err(NoMemory) => Ending::no_memory(),
    }
}

/// What a judge of what is left tells of the part.
fn of_judge<N: Naming + Send + Sync, G: Gate + Sync, R: Threads + Wait + Sync>(
    rt: &R,
    alloc: Global,
    names: &PartNames,
    left: &Config,
    judge: &Judge<'_, N>,
    limits: CheckLimits,
    gate: &G,
) -> Ending
    requires limits { AreLimits limits }
    requires name { (whole_config left.now limits.rewrites ≡ N.subject) × (most_states ≡ N.states) }
    requires covering { IsCovering N.subject }
    ensures { (whole : ConfigValue) → IsPartOf whole names.now left.now
        → ReportsPart limits.classes limits.rewrites names.now whole result ⊎ (result ≡ no_memory) }
{
    match counted::<N, KeptEntry, G, R>(rt, alloc, left, judge, limits, gate) {
        Ok(told) => ended(alloc, names, judge.base_names(), limits.classes, told),
        Err(ending) => ending,
    }
}
