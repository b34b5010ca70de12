//! The reports on the queries at or below each name of a file.

ghost use Rattle.std.specs.Prelude.{◌≡◌, ◌⊎◌, ◌||◌, ◌++◌, ◌+◌, ◌<◌, ◌≤◌, ◌^◌, length, Ok, Err, IfOk, IfErr};
ghost use Rattle.io_edges.specs.Files.{StaysTold, TellsAll};
ghost use Rattle.config_load.specs.Load.{ComesToFile, OpensNoOther};
ghost use Rattle.config_load.specs.Reading.{both, file_octets};
ghost use Rattle.groot_line.specs.Program.{largest_names};
ghost use Rattle.query_verdicts.specs.Queries.{limited_to, most_states};
ghost use Rattle.query_verdicts.specs.Subjects.{IsCovering};
ghost use Rattle.run_endings.specs.Ends.{EndsOrFails};
ghost use Rattle.run_endings.specs.Endings.{OfReading, no_memory};
ghost use Rattle.groot_run.specs.NameList.{names_of};
ghost use Rattle.groot_run.specs.Outcome as outcome;
ghost use Rattle.groot_run.specs.Outcome.{ScopesNames, ScopesOf, own_sites, scope_of, scope_rewrites};
ghost use Rattle.groot_run.specs.Programs.{conf_of, limits_of};
ghost use Rattle.groot_run.specs.ScopeTexts.{TellsScope, TellsScopes};

use crate::load::{configuration, limits_of};
use crate::name_list::{ListFault, names_of};
use crate::scope::{ScopeText, ended, text_by_judge};
use crate::shown::own_checks;
use class_judge::Naming;
use config_load::read_file;
use dns_data::{List, Name, NoMemory};
use groot_line::{Program, USUAL_REWRITES};
use io_edges::{Files, Gate};
use job_scope::ScopeGraphs;
use net_model::Config;
use query_verdicts::MOST_STATES;
use run_endings::{Ending, Status, refusal_line};
use std::alloc::Global;
use std::marker::Brand;
use std::mem::forget;
use std::sync::Wait;
use std::thread::Threads;

/// The scopes of the names in a file, in the configuration of a metadata file, one behind another. The file is read behind
/// the configuration.
pub(crate) fn scopes<F: Files, G: Gate + Sync, R: Threads + Wait + Sync>(
    rt: &R,
    alloc: Global,
    program: Program,
    files: &mut F,
    meta: &str,
    list: &str,
    gate: &G,
) -> Ending
    ensures cause { EndsOrFails (OfReading meta.now (ScopesOf program (F.told files.new) list.now) (conf_of program meta.now (F.told files.new)) result)
        (ComesToFile (both (conf_of program meta.now) (file_octets (limits_of program) list.now)) (F.told files.new)) (F.faults files.old) (F.faults files.new) result }
    ensures from_the_start { TellsAll (F.told files.old) → F.told files.new ≡ F.told files.old }
    ensures opens { OpensNoOther (both (conf_of program meta.now) (file_octets (limits_of program) list.now)) (F.told files.old) (F.told files.new) }
{
    match configuration(alloc, program, files, meta) {
        Ok(config) => {
            let ending = of_config(rt, alloc, program, files, &config, list, gate);
            // The run ends so, and the records of all zones with it: none is taken apart.
            forget(config);
            ending
        }
        Err(ending) => ending,
    }
}

/// The scopes of the names in a file, in the configuration.
fn of_config<F: Files, G: Gate + Sync, R: Threads + Wait + Sync>(
    rt: &R,
    alloc: Global,
    program: Program,
    files: &mut F,
    config: &Config,
    list: &str,
    gate: &G,
) -> Ending
    ensures cause { EndsOrFails (ScopesOf program (F.told files.new) list.now config.now result)
        (ComesToFile (file_octets (limits_of program) list.now) (F.told files.new)) (F.faults files.old) (F.faults files.new) result }
    ensures stays { StaysTold (F.told files.old) (F.told files.new) }
    ensures from_the_start { TellsAll (F.told files.old) → F.told files.new ≡ F.told files.old }
    ensures opens { OpensNoOther (file_octets (limits_of program) list.now) (F.told files.old) (F.told files.new) }
{
    match read_file(alloc, limits_of(program), files, list) {
        Ok(octets) => {
            files.let_go_of_all();
            let limit = program.usual_names();
            of_octets(rt, alloc, config, list, octets.items(), limit, gate)
        }
        Err(fault) => Ending::not_loaded(alloc, list, fault),
    }
}

/// The scopes of the names in a file with these octets.
fn of_octets<G: Gate + Sync, R: Threads + Wait + Sync>(
    rt: &R,
    alloc: Global,
    config: &Config,
    list: &str,
    octets: &[u8],
    limit: u32,
    gate: &G,
) -> Ending
    requires short { length octets.now + 1 < 2 ^ 32 }
    requires some { 0 < limit }
    requires few { limit ≤ largest_names }
    ensures { ScopesNames limit list.now config.now (names_of octets.now) result ⊎ (result ≡ no_memory) }
{
    match names_of(alloc, octets) {
        Ok(names) => of_names(rt, alloc, config, names.items(), limit, gate),
        Err(ListFault::NotName { line }) => bad_name(alloc, list, line),
        Err(ListFault::NoMemory) => Ending::no_memory(),
    }
}

/// The line of the file with this number is no name.
fn bad_name(alloc: Global, file: &str, line: u32) -> Ending
    ensures { (result ≡ outcome.bad_name file.now line) ⊎ (result ≡ no_memory) }
{
    match refusal_line(alloc, file, line, "bad-name") {
        Ok(said) => Ending::without_output(Status::Refused, said),
        Err(NoMemory) => Ending::no_memory(),
    }
}

/// The scopes of names in the configuration, which is prepared once.
fn of_names<G: Gate + Sync, R: Threads + Wait + Sync>(
    rt: &R,
    alloc: Global,
    config: &Config,
    names: &[Name],
    limit: u32,
    gate: &G,
) -> Ending
    requires some { 0 < limit }
    requires few { limit ≤ largest_names }
    ensures { outcome.ScopesEach limit config.now names.now result ⊎ (result ≡ no_memory) }
{
    match ScopeGraphs::prepare(alloc, config, USUAL_REWRITES, MOST_STATES) {
        Ok(graphs) => ended(each_scope(rt, alloc, graphs, names, limit, gate)),
        Err(NoMemory) => Ending::no_memory(),
    }
}

/// The text of the scopes of names, one after another, with the same graphs.
fn each_scope<G: Gate + Sync, R: Threads + Wait + Sync>(
    rt: &R,
    alloc: Global,
    graphs: ScopeGraphs<'_>,
    names: &[Name],
    limit: u32,
    gate: &G,
) -> Result<ScopeText, Ending>
    requires limits { graphs ≡ limited_to graphs.config scope_rewrites most_states }
    requires some { 0 < limit }
    requires few { limit ≤ largest_names }
    ensures { TellsScopes limit graphs.entry.config names.now result }
{
    let mut graphs = graphs;
    let mut text = ScopeText {
        faulty: false,
        pieces: List::new(alloc),
    };
    for name in names {
        let (more, back) = scope_with(rt, alloc, graphs, name, limit, gate)?;
        graphs = back;
        text = both_texts(text, more)?;
    }
    // The run ends so, and the trees of all zones with it: none is taken apart.
    forget(graphs);
    Ok(text)
}

/// A text, and another behind it.
fn both_texts(first: ScopeText, second: ScopeText) -> Result<ScopeText, NoMemory>
    ensures faulty { IfOk result (λ both. both.faulty ≡ (first.faulty || second.faulty)) }
    ensures pieces { IfOk result (λ both. both.pieces ≡ first.pieces ++ second.pieces) }
{
    let faulty = first.faulty || second.faulty;
    let mut pieces = first.pieces.into_vec();
    pieces.append(&mut second.pieces.into_vec())?;
    Ok(ScopeText {
        faulty,
        pieces: List::from_vec(pieces),
    })
}

/// The text of the scope of a name, and the graphs, for the next name.
fn scope_with<'a, G: Gate + Sync, R: Threads + Wait + Sync>(
    rt: &R,
    alloc: Global,
    graphs: ScopeGraphs<'a>,
    name: &Name,
    limit: u32,
    gate: &G,
) -> Result<(ScopeText, ScopeGraphs<'a>), Ending>
    requires limits { graphs ≡ limited_to graphs.config scope_rewrites most_states }
    requires some { 0 < limit }
    requires few { limit ≤ largest_names }
    ensures text { IfOk result (λ both. TellsScope limit (scope_of graphs.entry.config name.now) own_sites (Ok both.0)) }
    ensures back { IfOk result (λ both. both.1 ≡ graphs.entry) }
    ensures err { IfErr result (λ ending. TellsScope limit (scope_of graphs.entry.config name.now) own_sites (Err ending)) }
{
    // The labels are read, so that the length of the name is known here.
    let _ = name.labels();
    judged_with::<Brand, G, R>(rt, alloc, graphs, name, limit, gate)
}

/// The text of the scope of a name, by the judge of this name, which gives the graphs back.
fn judged_with<'a, N: Naming + Send + Sync, G: Gate + Sync, R: Threads + Wait + Sync>(
    rt: &R,
    alloc: Global,
    graphs: ScopeGraphs<'a>,
    name: &Name,
    limit: u32,
    gate: &G,
) -> Result<(ScopeText, ScopeGraphs<'a>), Ending>
    requires limits { graphs ≡ limited_to graphs.config scope_rewrites most_states }
    requires name { (scope_of graphs.config name.now ≡ N.subject) × (most_states ≡ N.states) }
    requires covering { IsCovering N.subject }
    requires some { 0 < limit }
    requires few { limit ≤ largest_names }
    ensures text { IfOk result (λ both. TellsScope limit N.subject own_sites (Ok both.0)) }
    ensures back { IfOk result (λ both. both.1 ≡ graphs.entry) }
    ensures err { IfErr result (λ ending. TellsScope limit N.subject own_sites (Err ending)) }
{
    let judge = graphs.into_judge::<N>(alloc, name)?;
    let mut own = own_checks(alloc);
    match text_by_judge(rt, alloc, &judge, name, limit, gate, &mut own) {
        Ok(text) => Ok((text, ScopeGraphs::of_judge(judge))),
        Err(ending) => Err(ending),
    }
}
