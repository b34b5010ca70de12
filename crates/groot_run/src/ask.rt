//! The walks of a query.

ghost use Rattle.std.specs.Prelude.{◌≡◌, ◌⊎◌};
ghost use Rattle.run_endings.specs.Endings.{no_memory};
ghost use Rattle.groot_run.specs.Outcome.{Asks, IsAnswerWith};

use crate::ending::too_many_walks;
use dns_data::{List, Name, NoMemory, RrType};
use groot_line::USUAL_REWRITES;
use net_model::Config;
use plain_resolver::{LearntFault, MOST_WALKS_FOLLOWED, ResolveFault, learnt_at, resolve_at};
use report_json::ask_text;
use run_endings::{Ending, Status};
use std::alloc::Global;
use zone_lookup::Hosts;

/// How many walks are written at most.
pub(crate) const MOST_WALKS: u32 = 1_000;

/// All walks of the query, unless there are too many; or the first server whose name has too many to learn its address.
pub(crate) fn ask(alloc: Global, config: &Config, name: &Name, rtype: RrType) -> Ending
    ensures { Asks name.now rtype config.now result ⊎ (result ≡ no_memory) }
{
    match Hosts::build(alloc, config) {
        Ok(hosts) => ask_at(alloc, &hosts, name, rtype),
        Err(NoMemory) => Ending::no_memory(),
    }
}

/// All walks of the query in a configuration whose zones' trees are built, unless there are too many; or the first
/// server whose name has too many to learn its address.
fn ask_at(alloc: Global, hosts: &Hosts<'_>, name: &Name, rtype: RrType) -> Ending
    ensures { Asks name.now rtype hosts.now result ⊎ (result ≡ no_memory) }
{
    let none = List::new(alloc);
    match learnt_at(alloc, hosts, USUAL_REWRITES, &none, MOST_WALKS_FOLLOWED) {
        Ok(followed) => answer(alloc, hosts, followed.items(), name, rtype),
        Err(LearntFault::WalksPassed(server)) => {
            Ending::too_many_to_learn(alloc, MOST_WALKS_FOLLOWED, &server)
        }
        Err(LearntFault::NoMemory) => Ending::no_memory(),
    }
}

/// All walks of the query while these servers are followed, unless there are too many.
fn answer(alloc: Global, hosts: &Hosts<'_>, followed: &[Name], name: &Name, rtype: RrType) -> Ending
    ensures { IsAnswerWith hosts.now followed.now name.now rtype result ⊎ (result ≡ no_memory) }
{
    match resolve_at(
        alloc,
        hosts,
        USUAL_REWRITES,
        followed,
        name,
        rtype,
        MOST_WALKS,
    ) {
        Ok(walks) => Ending::written(Status::Clean, ask_text(alloc, name, rtype, walks.items())),
        Err(ResolveFault::WalksPassed) => too_many_walks(alloc),
        Err(ResolveFault::NoMemory) => Ending::no_memory(),
    }
}
