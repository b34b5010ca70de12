//! What several tests begin with: files, configurations, names and graphs.

ghost use Rattle.std.specs.Prelude.{IfOk};
ghost use Rattle.graph_form.specs.GraphOf.{IsGraphOf};
ghost use Rattle.net_model.specs.Nearest.{server_names};
ghost use Rattle.net_model.specs.Step.{following};

use config_load::load;
use dns_data::{List, Name, NameFault, NoMemory};
use graph_form::Graph;
use interp_graph::{GraphFault, build};
use io_edges::MemoryFiles;
use name_rules::SymName;
use net_model::{Config, Zone};
use std::alloc::Global;
use std::test::Fail;
use zone_lookup::Hosts;

/// Metadata of the top server `ns.t.` alone, with one zone file.
pub(crate) const ALONE: &str =
    "{\"TopNameServers\":[\"ns.t.\"],\"ZoneFiles\":[{\"FileName\":\"t.zone\",\"NameServer\":\"ns.t.\"}]}";

/// The metadata as `m.json` and zone files, each a name and its text. The reads with these numbers fail, counted from 1.
pub(crate) fn files(
    alloc: Global,
    metadata: &str,
    zones: &[(&str, &str)],
    fails: List<u32>,
) -> Result<MemoryFiles, NoMemory> {
    let mut files = MemoryFiles::new(alloc, fails);
    files.add("m.json", metadata.as_bytes())?;
    for (file, text) in zones {
        files.add(file, text.as_bytes())?;
    }
    Ok(files)
}

/// The configuration that the metadata give with these zone files.
pub(crate) fn loaded(
    alloc: Global,
    metadata: &str,
    zones: &[(&str, &str)],
) -> Result<Config, Fail> {
    let mut files = files(alloc, metadata, zones, List::new(alloc))?;
    Ok(load(alloc, &mut files, "m.json")?)
}

/// The configuration of the top server `ns.t.` alone, with a zone of this text.
pub(crate) fn alone(alloc: Global, zone: &str) -> Result<Config, Fail> {
    loaded(alloc, ALONE, &[("t.zone", zone)])
}

/// The first server's first zone.
pub(crate) fn first_zone(config: &Config) -> Option<&Zone> {
    config.servers().first()?.zones.items().first()
}

/// The name that a text spells.
pub(crate) fn name(alloc: Global, text: &str) -> Result<Name, NameFault> {
    Name::from_text(alloc, text.as_bytes(), &Name::root())
}

/// Whether the text spells the name.
pub(crate) fn spells(alloc: Global, text: &str, spelt: &Name) -> bool {
    match name(alloc, text) {
        Ok(name) => name == *spelt,
        Err(_) => false,
    }
}

/// The graph of a query's walks, while every configured server is followed.
pub(crate) fn graph_of(alloc: Global, hosts: &Hosts<'_>, query: Name) -> Result<Graph, GraphFault>
    ensures { IfOk result (IsGraphOf (following hosts.now 12 (server_names hosts.now)) query) }
{
    graph_within(alloc, hosts, query, 1000)
}

/// Such a graph, with at most this many pairs of state and type.
pub(crate) fn graph_within(
    alloc: Global,
    hosts: &Hosts<'_>,
    query: Name,
    limit: u32,
) -> Result<Graph, GraphFault>
    ensures { IfOk result (IsGraphOf (following hosts.now 12 (server_names hosts.now)) query) }
{
    let asked = SymName {
        known: query,
        tail: None,
    };
    build(alloc, hosts, &asked, 12, limit)
}
