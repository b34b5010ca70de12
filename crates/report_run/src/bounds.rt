//! How many names a class tree has at most, by the records of its configuration.

ghost use Rattle.std.specs.Prelude.{◌≡◌, ◌++◌, OnOk};

use crate::counting::config_redirects;
use dns_data::{List, Name, NoMemory, Rdata};
use label_graph::{LabelGraph, NextName};
use net_model::{Config, Server, Zone};
use query_classes::LiveName;
use std::alloc::Global;

/// Whether the DNAME records of a configuration may give the class tree of its graph more names than the limit. A name of
/// the tree is a base name, or what stands below the target of a DNAME record, put below its owner: so the tree has no more
/// names than there are of both. Nothing rests on the answer but whether the names are counted, so no clause tells it.
pub(crate) fn may_pass(
    alloc: Global,
    config: &Config,
    graph: &LabelGraph,
    limit: u32,
) -> Result<bool, NoMemory> {
    if !config_redirects(config) {
        return Ok(false);
    }
    // The root isn't taken off: where nothing is left for it there may be a name more than the limit.
    let mut left = limit;
    for server in config.servers() {
        left = left_after_server(alloc, server, graph, left)?;
    }
    Ok(left == 0)
}

/// What is left of so many names where those of a server's zones are taken off.
fn left_after_server(
    alloc: Global,
    server: &Server,
    graph: &LabelGraph,
    most: u32,
) -> Result<u32, NoMemory> {
    let mut left = most;
    for zone in server.zones.items() {
        left = left_after_zone(alloc, zone, graph, left)?;
    }
    Ok(left)
}

/// What is left of so many names where those of a zone are taken off: the fronts of its origin and owners, but for those
/// that an owner shares with the one before, and for each DNAME record the names at or below its target. These are counted
/// once for DNAME records of one target that follow each other.
fn left_after_zone(
    alloc: Global,
    zone: &Zone,
    graph: &LabelGraph,
    most: u32,
) -> Result<u32, NoMemory> {
    let mut left = most.saturating_sub(zone.origin.len());
    let mut before = &zone.origin;
    let mut target = &zone.origin;
    let mut below = 0;
    for rr in zone.rrs.items() {
        if left == 0 {
            return Ok(0);
        }
        left = left.saturating_sub(more_fronts(before, &rr.owner));
        before = &rr.owner;
        if let Rdata::Dname(next) = &rr.rdata {
            if below == 0 || *next != *target {
                below = count_below(alloc, graph, next, left)?;
                target = next;
            }
            left = left.saturating_sub(below);
        }
    }
    Ok(left)
}

/// How many fronts of the second name are none of the first.
fn more_fronts(before: &Name, name: &Name) -> u32 {
    name.len() - name.labels().common_len(&before.labels())
}

/// How many names stand at or below the name in the class tree, however many octets they have; or `most`, where there are
/// more.
fn count_below(alloc: Global, graph: &LabelGraph, name: &Name, most: u32) -> Result<u32, NoMemory> {
    let first = LiveName::of(alloc, graph, name)?;
    let mut waiting = graph.next_names(alloc, &first.live)?.into_vec();
    let mut counted = 1;
    while let Some(next) = waiting.pop() {
        if counted >= most {
            return Ok(most);
        }
        counted += 1;
        let below = graph.next_names(alloc, &next.live)?;
        // What holds a label is dropped by a call: dropped where a block ends, it is taken apart there by the kinds of
        // labels.
        drop(next);
        put_last(below, &mut waiting)?;
    }
    Ok(counted)
}

/// Puts the names at the end.
fn put_last(names: List<NextName>, waiting: &mut Vec<NextName>) -> Result<(), NoMemory>
    ensures { OnOk result (waiting.new.items ≡ waiting.old.items ++ names) }
{
    let mut names = names.into_vec();
    waiting.append(&mut names)?;
    Ok(())
}
