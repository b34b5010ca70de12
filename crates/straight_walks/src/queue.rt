//! A queue of states.

ghost use Rattle.std.specs.Prelude.{◌≡◌, ◌⊎◌, true, map, length, nat_lt, Contains, IfOk, OnOk};
ghost use Rattle.dns_data.specs.Name.{Labels};
ghost use Rattle.net_model.specs.Step.{start};
ghost use Rattle.net_model.specs.declared.config.Config.{Config};
ghost use Rattle.straight_walks.specs.Searching.{BeginsAtTops, Extends, state_at, queued_state};
ghost use Rattle.straight_walks.specs.Straight.{NoOriginBetween};
ghost use Rattle.straight_walks.specs.declared.queue.Queued.{Queued as QueuedValue};

use dns_data::{Name, NoMemory};
use std::alloc::Global;
use std::collections::BTreeSet;
use std::marker::Model;
use zone_lookup::{Hosts, Near, TopServers};

/// So many top servers are all queued, without asking which of them hold a zone.
const FEW_TOPS: usize = 32;

/// So many states are looked through for one, without a set.
const FEW_STATES: usize = 32;

/// A state to which walks for a name come: the server, and how many labels the zone cut has that led there, 0 where
/// none did; with a place near which the zone is looked for in which the server looks the name up.
#[derive(Clone, Copy)]
pub(crate) struct Queued<'a> {
    pub server: &'a Name,
    pub cut: u32,
    pub near: Near,
}

impl<'a> Queued<'a> {
    /// The state at the server, with the place near which the zone stands in which it looks this name up.
    fn for_name(hosts: &Hosts<'_>, name: &Name, server: &'a Name, cut: u32) -> Queued<'a>
        ensures server { result.server.now ≡ server.now }
        ensures cut { result.cut ≡ cut }
    {
        let near = hosts.near_of(server, name);
        Queued { server, cut, near }
    }
}

/// The states in which walks for the name begin, at the top servers: no zone cut leads there. Where there are many top
/// servers those are left out that hold no zone for the name, since walks end there at once. It is the same for each name
/// below that has no origin between.
pub(crate) fn start_states<'a>(
    alloc: Global,
    hosts: &Hosts<'a>,
    tops: &TopServers<'a>,
    name: &Name,
) -> Result<Vec<Queued<'a>>, NoMemory>
    requires { tops.now ≡ hosts.now }
    ensures { IfOk result (λ queue. (query : Labels) → NoOriginBetween hosts.now name.now query
        → BeginsAtTops hosts.now query queue.items (nat_lt (length queue.items) (length hosts.now.tops))) }
{
    if tops.count() <= FEW_TOPS {
        return all_states(alloc, hosts, name);
    }
    let holding = tops.holding(alloc, name)?;
    states_at(alloc, hosts, holding.as_slice(), name)
}

/// The states at all top servers.
fn all_states<'a>(
    alloc: Global,
    hosts: &Hosts<'a>,
    name: &Name,
) -> Result<Vec<Queued<'a>>, NoMemory>
    ensures { IfOk result (λ queue. (query : Labels) → map (queued_state hosts.now query) queue.items ≡ start hosts.now query) }
{
    let config = hosts.config();
    let mut queue = Vec::new(alloc);
    for top in config.tops() {
        queue.push(Queued::for_name(hosts, name, top, 0))?;
    }
    Ok(queue)
}

/// The states at these servers to which no zone cut led.
fn states_at<'a>(
    alloc: Global,
    hosts: &Hosts<'a>,
    servers: &[&'a Name],
    name: &Name,
) -> Result<Vec<Queued<'a>>, NoMemory>
    ensures { IfOk result (λ queue. (query : Labels) → map (queued_state hosts.now query) queue.items ≡ map (λ server. state_at hosts.now query server.now 0) servers.now) }
{
    let mut queue = Vec::new(alloc);
    for server in servers {
        queue.push(Queued::for_name(hosts, name, server, 0))?;
    }
    Ok(queue)
}

/// A queue of states. Those that are put behind the first few are marked, so that each of them is found without a pass
/// over the others. Contracts see the states, in order.
#[derive(Drop)]
pub(crate) struct Queue<'a> {
    states: Vec<Queued<'a>>,
    marks: BTreeSet<(u32, &'a Name)>,
}

impl<'a> Model for Queue<'a> {
    ghost use Rattle.std.specs.Prelude.{List};
    ghost use Rattle.straight_walks.specs.Marks.{AreMarksOf};
    ghost use Rattle.straight_walks.specs.declared.queue.Queued.{Queued};

    ghost Value = { List Queued };

    ghost view = { λ queue. queue.states.items };

    ghost invariant = { λ queue. AreMarksOf queue.states.items queue.marks };
}

impl<'a> Queue<'a> {
    /// The queue of these states.
    pub(crate) fn of(alloc: Global, states: Vec<Queued<'a>>) -> Queue<'a>
        ensures { result ≡ states.entry.items }
    {
        Queue {
            states,
            marks: BTreeSet::new(alloc),
        }
    }

    /// The states.
    pub(crate) fn as_slice(&self) -> &[Queued<'a>]
        ensures { result.now ≡ self.now }
    {
        self.states.as_slice()
    }

    /// How many states there are.
    pub(crate) fn len(&self) -> usize
        ensures { result ≡ length self.now }
    {
        self.states.len()
    }

    /// Puts the state at a server to which a zone cut of this many labels led at the end of the queue, unless it is seen
    /// to be there. Its zone is looked for near that in which the server looks this name up.
    pub(crate) fn put(
        &mut self,
        hosts: &Hosts<'_>,
        name: &Name,
        server: &'a Name,
        cut: u32,
    ) -> Result<(), NoMemory>
        ensures more { OnOk result (Extends self.old self.new) }
        ensures there { OnOk result ((config : Config) (query : Labels) → Contains (map (queued_state config query) self.new) (state_at config query server.now cut)) }
        ensures only { OnOk result ((one : QueuedValue) → Contains self.new one → Contains self.old one ⊎ ((one.server.now ≡ server.now) × (one.cut ≡ cut))) }
    {
        if self.has(server, cut) {
            return Ok(());
        }
        let marked = self.states.len() >= FEW_STATES;
        self.states
            .push(Queued::for_name(hosts, name, server, cut))?;
        if marked {
            self.marks.insert((cut, server))?;
        }
        Ok(())
    }

    /// Whether the state at a server to which a zone cut of this many labels led is seen to be in the queue: among the
    /// first few, or among those that are marked.
    fn has(&self, server: &'a Name, cut: u32) -> bool
        ensures { result ≡ true → (config : Config) (query : Labels) → Contains (map (queued_state config query) self.now) (state_at config query server.now cut) }
    {
        let states = self.states.as_slice();
        is_among(&states[..states.len().min(FEW_STATES)], server, cut)
            || self.marks.contains(&(cut, server))
    }
}

/// Whether the state at a server to which a zone cut of this many labels led is one of these.
fn is_among(states: &[Queued<'_>], server: &Name, cut: u32) -> bool
    ensures { result ≡ true → (config : Config) (query : Labels) → Contains (map (queued_state config query) states.now) (state_at config query server.now cut) }
{
    for one in states {
        if one.cut == cut && one.server == server {
            return true;
        }
    }
    false
}
