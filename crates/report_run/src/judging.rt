//! The classes of a subject judged, and what is kept of its report.

ghost use Rattle.std.specs.Prelude.{◌≡◌, []};
ghost use Rattle.query_verdicts.specs.Carried.{whole_config};
ghost use Rattle.query_verdicts.specs.Queries.{most_states};
ghost use Rattle.query_verdicts.specs.Subjects.{IsCovering};
ghost use Rattle.report_run.specs.Judged.{AreLimits, IsJudged};

use crate::counting::count_where_many;
use crate::states::too_many_states;
use class_judge::{Judge, JudgeFault, Naming, laws};
use dns_data::NoMemory;
use io_edges::Gate;
use net_model::Config;
use query_verdicts::{Kept, KeptReport, MOST_STATES};
use run_endings::Ending;
use std::alloc::Global;
use std::marker::Brand;
use std::mem::forget;
use std::sync::Wait;
use std::thread::Threads;
use steal_pool::{PoolFault, run_tree};

/// How large a check may be: how many workers judge, how many names the class tree may have, and how many rewrites a query
/// may use.
#[derive(Clone, Copy, Debug)]
pub struct CheckLimits {
    pub workers: u32,
    pub classes: u32,
    pub rewrites: u32,
}

/// What is kept of the report of a configuration; or how a run ends without one, since its class tree has too many names or
/// else a representative reaches too many pairs of state and type. It is the same for every number of workers and every
/// schedule.
pub fn report_of<K: Kept + Drop, G: Gate + Sync, R: Threads + Wait + Sync>(
    rt: &R,
    alloc: Global,
    config: &Config,
    limits: CheckLimits,
    gate: &G,
) -> Result<KeptReport<K>, Ending>
    requires { AreLimits limits }
    ensures { IsJudged limits.classes (whole_config config.now limits.rewrites) K.kept_of result }
{
    judged::<Brand, K, G, R>(rt, alloc, config, limits, gate)
}

/// What the judge of this name tells of the configuration.
fn judged<N: Naming + Send + Sync, K: Kept + Drop, G: Gate + Sync, R: Threads + Wait + Sync>(
    rt: &R,
    alloc: Global,
    config: &Config,
    limits: CheckLimits,
    gate: &G,
) -> Result<KeptReport<K>, Ending>
    requires limits { AreLimits limits }
    requires name { (whole_config config.now limits.rewrites ≡ N.subject) × (most_states ≡ N.states) }
    requires covering { IsCovering N.subject }
    ensures { IsJudged limits.classes N.subject K.kept_of result }
{
    match Judge::<N>::prepare(alloc, config, limits.rewrites, MOST_STATES) {
        Ok(judge) => {
            let answer = counted(rt, alloc, config, &judge, limits, gate);
            // The run ends with this answer, and the trees of all zones with it: none is taken apart.
            forget(judge);
            answer
        }
        Err(NoMemory) => Err(Ending::no_memory()),
    }
}

/// The report of a judge's configuration. Where a DNAME record of it may multiply the names of its class tree, they are
/// counted before one is judged.
pub fn counted<N: Naming + Send + Sync, K: Kept + Drop, G: Gate + Sync, R: Threads + Wait + Sync>(
    rt: &R,
    alloc: Global,
    config: &Config,
    judge: &Judge<'_, N>,
    limits: CheckLimits,
    gate: &G,
) -> Result<KeptReport<K>, Ending>
    requires limits { AreLimits limits }
    requires whole { N.subject.below ≡ [] }
    requires states { most_states ≡ N.states }
    requires covering { IsCovering N.subject }
    ensures { IsJudged limits.classes N.subject K.kept_of result }
{
    match count_where_many(alloc, config, judge.base_names(), limits.classes) {
        Ok(()) => report_by_judge(rt, alloc, judge, limits, gate),
        Err(ending) => Err(ending),
    }
}

/// The report of a judge's subject, once it has judged the names of the class tree at or below the subject's name. It is
/// the same for every number of workers and every schedule.
pub fn report_by_judge<
    N: Naming + Send + Sync,
    K: Kept + Drop,
    G: Gate + Sync,
    R: Threads + Wait + Sync,
>(
    rt: &R,
    alloc: Global,
    judge: &Judge<'_, N>,
    limits: CheckLimits,
    gate: &G,
) -> Result<KeptReport<K>, Ending>
    requires limits { AreLimits limits }
    requires states { most_states ≡ N.states }
    requires covering { IsCovering N.subject }
    ensures { IsJudged limits.classes N.subject K.kept_of result }
{
    laws::part_is_reached();
    match run_tree(rt, alloc, judge, limits.workers, limits.classes, gate) {
        Ok(filed) => match judge.kept_report(filed) {
            Ok(report) => Ok(report),
            Err(JudgeFault::StatesPassed(query)) => Err(too_many_states(alloc, &query)),
            Err(JudgeFault::NoMemory) => Err(Ending::no_memory()),
        },
        Err(PoolFault::TooMany(_)) => Err(Ending::too_many_names(alloc, limits.classes)),
        Err(PoolFault::NoMemory) => Err(Ending::no_memory()),
    }
}
