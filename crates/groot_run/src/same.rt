//! Whether two configurations give the same answers.

ghost use Rattle.std.specs.Prelude.{◌≡◌, ◌⊎◌, ◌<◌, ◌≤◌, ◌++◌, codes, decimal, IfOk};
ghost use Rattle.dns_data.specs.RrType.{word_of};
ghost use Rattle.dns_data.specs.Spelling.{name_text};
ghost use Rattle.io_edges.specs.Files.{StaysTold, TellsAll};
ghost use Rattle.config_load.specs.Load.{ComesToFile, OpensNoOther};
ghost use Rattle.config_load.specs.Reading.{both};
ghost use Rattle.query_verdicts.specs.Queries.{most_states};
ghost use Rattle.same_answers.specs.Values.{ArePairValues};
ghost use Rattle.run_endings.specs.Ends.{EndsOrFails};
ghost use Rattle.run_endings.specs.Endings.{OfReading, no_memory};
ghost use Rattle.groot_line.specs.Program.{largest_names};
ghost use Rattle.groot_run.specs.Outcome.{Compares, ComparesWith, compared_of, same_rewrites, sameness_written};
ghost use Rattle.groot_run.specs.Programs.{conf_of};

use crate::counts::put_count;
use crate::load::{configuration, last_configuration};
use dns_data::{Name, NoMemory, Octets, RrType};
use groot_line::{Program, USUAL_REWRITES, USUAL_WORKERS};
use io_edges::{Files, Gate};
use net_model::Config;
use query_verdicts::MOST_STATES;
use report_run::{count_redirected, either_redirects, too_many_states};
use run_endings::{Ending, Status};
use same_answers::{JudgeFault, PairNaming, Pairing, Sameness, laws};
use std::alloc::Global;
use std::marker::Brand;
use std::sync::Wait;
use std::thread::Threads;
use steal_pool::{PoolFault, run_tree};

/// Whether some query tells the configurations of two metadata files apart. The first one is read whole, and then the
/// second.
pub(crate) fn same<F: Files, G: Gate + Sync, R: Threads + Wait + Sync>(
    rt: &R,
    alloc: Global,
    program: Program,
    files: &mut F,
    first: &str,
    second: &str,
    gate: &G,
) -> Ending
    ensures cause { EndsOrFails (OfReading first.now (ComparesWith program (F.told files.new) second.now) (conf_of program first.now (F.told files.new)) result)
        (ComesToFile (both (conf_of program first.now) (conf_of program second.now)) (F.told files.new)) (F.faults files.old) (F.faults files.new) result }
    ensures from_the_start { TellsAll (F.told files.old) → F.told files.new ≡ F.told files.old }
    ensures opens { OpensNoOther (both (conf_of program first.now) (conf_of program second.now)) (F.told files.old) (F.told files.new) }
{
    match configuration(alloc, program, files, first) {
        Ok(config) => with_second(rt, alloc, program, files, &config, second, gate),
        Err(ending) => ending,
    }
}

/// Whether some query tells the configuration and that of a metadata file apart.
fn with_second<F: Files, G: Gate + Sync, R: Threads + Wait + Sync>(
    rt: &R,
    alloc: Global,
    program: Program,
    files: &mut F,
    first: &Config,
    second: &str,
    gate: &G,
) -> Ending
    ensures cause { EndsOrFails (ComparesWith program (F.told files.new) second.now first.now result)
        (ComesToFile (conf_of program second.now) (F.told files.new)) (F.faults files.old) (F.faults files.new) result }
    ensures stays { StaysTold (F.told files.old) (F.told files.new) }
    ensures from_the_start { TellsAll (F.told files.old) → F.told files.new ≡ F.told files.old }
    ensures opens { OpensNoOther (conf_of program second.now) (F.told files.old) (F.told files.new) }
{
    match last_configuration(alloc, program, files, second) {
        Ok(config) => compared(rt, alloc, first, &config, program.usual_names(), gate),
        Err(ending) => ending,
    }
}

/// Whether some query that both configurations bound has other outcomes in the one than in the other: the first such
/// one, or how many classes and names were looked at; unless the class tree of both has more than so many names, or else a
/// representative reaches too many pairs of state and type in one of them. It is the same for every number of workers
/// and every schedule.
fn compared<G: Gate + Sync, R: Threads + Wait + Sync>(
    rt: &R,
    alloc: Global,
    first: &Config,
    second: &Config,
    names: u32,
    gate: &G,
) -> Ending
    requires some { 0 < names }
    requires few { names ≤ largest_names }
    ensures { Compares names (compared_of first.now second.now) result ⊎ (result ≡ no_memory) }
{
    judged::<Brand, G, R>(rt, alloc, first, second, names, gate)
}

/// What the comparison of this name tells of the configurations.
fn judged<N: PairNaming + Send + Sync, G: Gate + Sync, R: Threads + Wait + Sync>(
    rt: &R,
    alloc: Global,
    first: &Config,
    second: &Config,
    names: u32,
    gate: &G,
) -> Ending
    requires some { 0 < names }
    requires few { names ≤ largest_names }
    requires configs { (first.now ≡ N.compared.first) × (second.now ≡ N.compared.second) }
    requires limits { (same_rewrites ≡ N.compared.rewrites) × (most_states ≡ N.compared.states) }
    requires values { ArePairValues N.compared N.children_of N.verdict_of }
    ensures { Compares names N.compared result ⊎ (result ≡ no_memory) }
{
    match Pairing::<N>::prepare(alloc, first, second, USUAL_REWRITES, MOST_STATES) {
        Ok(pairing) => counted(rt, alloc, first, second, &pairing, names, gate),
        Err(NoMemory) => Ending::no_memory(),
    }
}

/// What a comparison tells of its configurations. Where a DNAME record of one of them may multiply the names of their class
/// tree, they are counted before one is judged.
fn counted<N: PairNaming + Send + Sync, G: Gate + Sync, R: Threads + Wait + Sync>(
    rt: &R,
    alloc: Global,
    first: &Config,
    second: &Config,
    pairing: &Pairing<'_, N>,
    names: u32,
    gate: &G,
) -> Ending
    requires some { 0 < names }
    requires few { names ≤ largest_names }
    requires values { ArePairValues N.compared N.children_of N.verdict_of }
    ensures { Compares names N.compared result ⊎ (result ≡ no_memory) }
{
    match count_redirected(
        alloc,
        either_redirects(first, second),
        pairing.base_names(),
        names,
    ) {
        Ok(()) => by_pairing(rt, alloc, pairing, names, gate),
        Err(ending) => ending,
    }
}

/// How a comparison ends that judges the class tree of its configurations.
fn by_pairing<N: PairNaming + Send + Sync, G: Gate + Sync, R: Threads + Wait + Sync>(
    rt: &R,
    alloc: Global,
    pairing: &Pairing<'_, N>,
    names: u32,
    gate: &G,
) -> Ending
    requires some { 0 < names }
    requires few { names ≤ largest_names }
    requires values { ArePairValues N.compared N.children_of N.verdict_of }
    ensures { Compares names N.compared result ⊎ (result ≡ no_memory) }
{
    laws::tree_is_reached();
    match run_tree(rt, alloc, pairing, USUAL_WORKERS, names, gate) {
        Ok(filed) => match pairing.outcome(filed) {
            Ok(sameness) => ending_of(alloc, &sameness),
            Err(JudgeFault::StatesPassed(query)) => too_many_states(alloc, &query),
            Err(JudgeFault::NoMemory) => Ending::no_memory(),
        },
        Err(PoolFault::TooMany(_)) => Ending::too_many_names(alloc, names),
        Err(PoolFault::NoMemory) => Ending::no_memory(),
    }
}

/// How a comparison ends that gives this answer.
fn ending_of(alloc: Global, sameness: &Sameness) -> Ending
    ensures { (result ≡ sameness_written sameness.now) ⊎ (result ≡ no_memory) }
{
    match sameness {
        Sameness::Same { classes, names } => Ending::written(
            Status::Clean,
            same_line(alloc, *classes, *names),
        ),
        Sameness::Apart { query, rtype } => Ending::written(
            Status::Faults,
            differ_line(alloc, query, *rtype),
        ),
    }
}

/// The line that says that none of this many classes, of this many names, tells the configurations apart.
fn same_line(alloc: Global, classes: u32, names: u32) -> Result<Octets, NoMemory>
    ensures { IfOk result (λ line. line ≡ codes "same: classes " ++ decimal classes ++ codes ", names " ++ decimal names ++ codes "\n") }
{
    let mut line = Octets::new();
    put_count(alloc, &mut line, b"same: classes ", u64::from(classes))?;
    put_count(alloc, &mut line, b", names ", u64::from(names))?;
    line.push(alloc, b'\n')?;
    Ok(line)
}

/// The line that names a query that tells them apart, and the type.
fn differ_line(alloc: Global, query: &Name, rtype: RrType) -> Result<Octets, NoMemory>
    ensures { IfOk result (λ line. line ≡ codes "differ: " ++ name_text query.now ++ codes " " ++ word_of rtype ++ codes "\n") }
{
    let name = query.to_text(alloc)?;
    let mut line = Octets::new();
    line.extend_from_slice(alloc, b"differ: ")?;
    line.extend_from_slice(alloc, name.as_str().as_bytes())?;
    line.extend_from_slice(alloc, b" ")?;
    line.extend_from_slice(alloc, rtype.word().as_bytes())?;
    line.push(alloc, b'\n')?;
    Ok(line)
}
