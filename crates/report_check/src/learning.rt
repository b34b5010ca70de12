//! The two sets of learnt addresses.

ghost use Rattle.std.specs.Prelude.{◌≡◌, IfOk, IsErrOf, OnOk};
ghost use Rattle.dns_data.specs.Name.{Labels};
ghost use Rattle.net_model.specs.Nearest.{server_names};
ghost use Rattle.report_check.specs.Checked.{LearningPasses};
ghost use Rattle.report_check.specs.Entries.{HasLearntNames};

use dns_data::{List, Name, NoMemory};
use net_model::{Config, Deps};
use plain_resolver::{LearntFault, MOST_WALKS_FOLLOWED, learnt_at};
use std::alloc::Global;
use zone_lookup::{Hosts, LearntSets};

/// The least and the greatest set of learnt addresses, each found by following walks. It is `WalksPassed` where the
/// name of a server has more than 10,000 walks of type A or of type AAAA in a set from which a round starts; the least
/// set comes first.
pub(crate) fn learnt_sets(
    alloc: Global,
    hosts: &Hosts<'_>,
    rewrites: u32,
) -> Result<LearntSets, LearntFault>
    ensures sets { IfOk result (HasLearntNames hosts.now rewrites) }
    ensures few { OnOk result (LearningPasses hosts.now rewrites → ⊥) }
    ensures passed { (name : Labels) → IsErrOf result (LearntFault.WalksPassed name) → LearningPasses hosts.now rewrites }
{
    let none = List::new(alloc);
    let least = learnt_at(alloc, hosts, rewrites, &none, MOST_WALKS_FOLLOWED)?;
    let all = server_names(alloc, hosts.config())?;
    let greatest = learnt_at(alloc, hosts, rewrites, &all, MOST_WALKS_FOLLOWED)?;
    Ok(LearntSets::build(alloc, Deps { least, greatest })?)
}

/// The names of the configured servers.
fn server_names(alloc: Global, config: &Config) -> Result<List<Name>, NoMemory>
    ensures { IfOk result (λ names. names ≡ server_names config.now) }
{
    let mut names = List::new(alloc);
    for server in config.servers() {
        names.push(server.name.copy(alloc)?)?;
    }
    Ok(names)
}
