//! Searches over the states of walks.

ghost use Rattle.std.specs.Prelude.{◌≡◌, IfOk};
ghost use Rattle.net_model.specs.declared.deps.Deps.{Deps};
ghost use Rattle.straight_walks.specs.Regions.{IsSearchBelow};

use crate::faulty::Faulty;
use crate::queue::{Queued, start_states};
use dns_data::{Name, NoMemory};
use std::alloc::Global;
use zone_lookup::{Hosts, TopServers};

/// A search over the states to which walks for a name come: the queue of them, how many of the first ones it has
/// passed, whether some walk ends there where no zone answers, and the referrals of those passed that show faults. No
/// server answers there: walks end so, or go on to others.
#[derive(Drop)]
pub(crate) struct Search<'a> {
    pub queue: Vec<Queued<'a>>,
    pub passed: usize,
    pub fails: bool,
    pub faulty: Vec<Faulty<'a>>,
}

impl<'a> Search<'a> {
    /// The search that begins at the top servers, for the name and those below it that have no origin between.
    pub(crate) fn at_top(
        alloc: Global,
        hosts: &Hosts<'a>,
        tops: &TopServers<'a>,
        name: &Name,
    ) -> Result<Search<'a>, NoMemory>
        requires { tops.now ≡ hosts.now }
        ensures is { IfOk result (λ searched. (deps : Deps) → IsSearchBelow hosts.now deps name.now searched) }
        ensures first { IfOk result (λ searched. searched.passed ≡ 0) }
    {
        let queue = start_states(alloc, hosts, tops, name)?;
        let fails = queue.len() < tops.count();
        Ok(Search {
            queue,
            passed: 0,
            fails,
            faulty: Vec::new(alloc),
        })
    }
}
