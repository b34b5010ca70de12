//! Names that are counted before any is judged.

ghost use Rattle.std.specs.Prelude.{◌≡◌, ◌||◌, [], ◌++◌, reverse, IfErr, IsErrOf, OnOk};
ghost use Rattle.net_model.specs.Tree.{HasMoreThan, IsInPart};
ghost use Rattle.report_run.specs.Counted.{EndsPast, config_redirects, is_redirect, server_redirects, zone_redirects};

use crate::bounds::may_pass;
use dns_data::{List, NoMemory, Rdata, Rr};
use label_graph::{LabelGraph, laws};
use net_model::{Config, Server, Zone};
use query_classes::{LiveName, TreeFault};
use run_endings::Ending;
use std::alloc::Global;

/// Counts the names of the class tree of a configuration's graph where its DNAME records may give it more than the limit,
/// so that none is judged where there are: it is `Err` where so many were counted, or where memory ran out. Where the
/// records alone show that there are no more, none is counted.
pub(crate) fn count_where_many(
    alloc: Global,
    config: &Config,
    graph: &LabelGraph,
    limit: u32,
) -> Result<(), Ending>
    ensures { IfErr result (EndsPast (IsInPart graph.now []) limit) }
{
    match may_pass(alloc, config, graph, limit) {
        Ok(may_pass) => count_redirected(alloc, may_pass, graph, limit),
        Err(NoMemory) => Err(Ending::no_memory()),
    }
}

/// Counts the names of the class tree of a graph where DNAME records may multiply them, so that none is judged where there
/// are more than the limit: it is `Err` where so many were counted, or where memory ran out. Without such a record none is
/// counted, since the tree has only names then that the files have.
pub fn count_redirected(
    alloc: Global,
    redirected: bool,
    graph: &LabelGraph,
    limit: u32,
) -> Result<(), Ending>
    ensures { IfErr result (EndsPast (IsInPart graph.now []) limit) }
{
    if !redirected {
        return Ok(());
    }
    count_names(alloc, graph, limit)
}

/// Counts the names of the class tree of a graph: it is `Err` where there are more than the limit.
fn count_names(alloc: Global, graph: &LabelGraph, limit: u32) -> Result<(), Ending>
    ensures { IfErr result (EndsPast (IsInPart graph.now []) limit) }
{
    match count_up_to(alloc, graph, limit) {
        Ok(()) => Ok(()),
        Err(TreeFault::TooMany) => Err(Ending::too_many_names(alloc, limit)),
        Err(TreeFault::NoMemory) => Err(Ending::no_memory()),
    }
}

/// Counts the names of the class tree of a graph: it is `TooMany` where there are more than so many. No name is kept but
/// those that wait beside the way down.
fn count_up_to(alloc: Global, graph: &LabelGraph, most: u32) -> Result<(), TreeFault>
    ensures { IsErrOf result TreeFault.TooMany → HasMoreThan (IsInPart graph.now []) most }
{
    laws::graph_is_closed(graph);
    let mut waiting = Vec::new(alloc);
    waiting.push(LiveName::root(alloc, graph)?)?;
    let mut counted = 0;
    while let Some(next) = waiting.pop() {
        if counted == most {
            return Err(TreeFault::TooMany);
        }
        counted += 1;
        put_last_first(next.children(alloc, graph)?, &mut waiting)?;
    }
    Ok(())
}

/// Puts the names at the end, the last one first.
fn put_last_first(names: List<LiveName>, waiting: &mut Vec<LiveName>) -> Result<(), NoMemory>
    ensures { OnOk result (waiting.new.items ≡ waiting.old.items ++ reverse names) }
{
    let mut names = names.into_vec();
    names.reverse();
    waiting.append(&mut names)?;
    Ok(())
}

/// Whether one of the configurations has a DNAME record.
pub fn either_redirects(first: &Config, second: &Config) -> bool
    ensures { result ≡ (config_redirects first.now || config_redirects second.now) }
{
    config_redirects(first) || config_redirects(second)
}

/// Whether the configuration has a DNAME record.
pub(crate) fn config_redirects(config: &Config) -> bool
    ensures { result ≡ config_redirects config.now }
{
    config
        .servers()
        .iter()
        .any(|server| server_redirects(server))
}

/// Whether the server has a DNAME record.
fn server_redirects(server: &Server) -> bool
    ensures { result ≡ server_redirects server.now }
{
    server.zones.items().iter().any(|zone| zone_redirects(zone))
}

/// Whether the zone has a DNAME record.
fn zone_redirects(zone: &Zone) -> bool
    ensures { result ≡ zone_redirects zone.now }
{
    zone.rrs.items().iter().any(|rr| is_redirect(rr))
}

/// Whether it is a DNAME record.
fn is_redirect(rr: &Rr) -> bool
    ensures { result ≡ is_redirect rr.now }
{
    matches!(rr.rdata, Rdata::Dname(_))
}
