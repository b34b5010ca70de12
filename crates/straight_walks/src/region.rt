//! The search for all names whose nearest origin is the same.

ghost use Rattle.std.specs.Prelude.{◌≡◌, ◌++◌, [], true, length, IfOk, IfSome};
ghost use Rattle.zone_lookup.specs.CutTable.{IsTableOf};
ghost use Rattle.straight_walks.specs.Regions.{IsLookedAt, IsSearchBelow};

use crate::asked::Asked;
use crate::faulty::Faulty;
use crate::queue::{Queue, Queued};
use crate::referrals::{Referring, queue_referrals};
use crate::searching::Search;
use crate::straight::MOST;
use dns_data::{Name, NoMemory};
use std::alloc::Global;
use zone_lookup::{CutTable, Hosts, LearntSets, Named, Reply, TopServers, reply_near};

/// An origin of a zone, with the search for each name whose nearest origin it is.
#[derive(Drop)]
pub(crate) struct Region<'a> {
    pub origin: &'a Name,
    pub searched: Search<'a>,
}

impl<'a> Named for Region<'a> {
    ghost name_of = { λ region. region.origin.now };

    fn its_name(&self) -> &Name {
        self.origin
    }
}

/// The search for each name whose nearest origin this is. It has passed all states up to those whose servers answer for the
/// origin; or it begins at the top servers, where walks for the origin aren't seen to go straight.
pub(crate) fn search_below<'a>(
    alloc: Global,
    hosts: &Hosts<'a>,
    sets: &LearntSets,
    table: &CutTable<'a>,
    tops: &TopServers<'a>,
    origin: &Name,
) -> Result<Search<'a>, NoMemory>
    requires table { IsTableOf hosts.now sets.now table.now }
    requires tops { tops.now ≡ hosts.now }
    ensures { IfOk result (IsSearchBelow hosts.now sets.now origin.now) }
{
    match search_of_origin(alloc, hosts, sets, table, tops, origin)? {
        Some(searched) => Ok(searched),
        None => Search::at_top(alloc, hosts, tops, origin),
    }
}

/// The search that has passed all states up to those whose servers answer for the origin, or `None` where walks for the
/// origin aren't seen to go straight, or reach too many states.
fn search_of_origin<'a>(
    alloc: Global,
    hosts: &Hosts<'a>,
    sets: &LearntSets,
    table: &CutTable<'a>,
    tops: &TopServers<'a>,
    origin: &Name,
) -> Result<Option<Search<'a>>, NoMemory>
    requires table { IsTableOf hosts.now sets.now table.now }
    requires tops { tops.now ≡ hosts.now }
    ensures { IfOk result (λ searched. IfSome searched (IsSearchBelow hosts.now sets.now origin.now)) }
{
    let most = MOST;
    let searched = Search::at_top(alloc, hosts, tops, origin)?;
    let mut search = RegionSearch::begun(alloc, searched);
    let asked = Asked {
        hosts,
        sets,
        table,
        name: origin,
        rewrites: 0,
    };
    let mut at = 0;
    while at < search.queue.len() {
        if search.queue.len() > most {
            return Ok(None);
        }
        let one = search.queue.as_slice()[at];
        if !search.look_at(asked, one)? {
            return Ok(None);
        }
        at += 1;
    }
    Ok(Some(search.found(alloc)?))
}

/// A search over the states to which walks for an origin come: the queue of them; those that are passed, and those
/// whose servers answer or redirect the query, of the ones that were looked at; whether some walk ends where no zone
/// answers; and the referrals of those passed that show faults.
#[derive(Drop)]
struct RegionSearch<'a> {
    queue: Queue<'a>,
    passed: Vec<Queued<'a>>,
    answering: Vec<Queued<'a>>,
    fails: bool,
    faulty: Vec<Faulty<'a>>,
}

impl<'a> RegionSearch<'a> {
    /// The search that has begun so, and has looked at no state.
    fn begun(alloc: Global, searched: Search<'a>) -> RegionSearch<'a>
        ensures queue { result.queue ≡ searched.entry.queue.items }
        ensures passed { result.passed.items ≡ [] }
        ensures answering { result.answering.items ≡ [] }
        ensures fails { result.fails ≡ searched.entry.fails }
        ensures faulty { result.faulty ≡ searched.entry.faulty }
    {
        RegionSearch {
            queue: Queue::of(alloc, searched.queue),
            passed: Vec::new(alloc),
            answering: Vec::new(alloc),
            fails: searched.fails,
            faulty: searched.faulty,
        }
    }

    /// Whether walks for the origin go straight from the state. It is put at the end of those that are passed, and the
    /// states to which its server refers the query are queued; or, where its server answers or redirects the query, at
    /// the end of those whose servers do.
    #[tactic(auto, using(crate::proofs::Replies::refers_above, crate::proofs::Replies::refers_inside, crate::proofs::Replies::refers_held))]
    fn look_at(&mut self, asked: Asked<'_, '_, 'a>, one: Queued<'a>) -> Result<bool, NoMemory>
        requires { IsTableOf asked.hosts.now asked.sets.now asked.table.now }
        ensures { IfOk result (λ straight. straight ≡ true → IsLookedAt asked.entry.hosts.now asked.entry.sets.now asked.entry.name.now one.entry self.old self.new) }
    {
        match reply_near(asked.hosts, one.near, one.server, asked.name) {
            Reply::Outside => {
                self.fails = true;
                self.passed.push(one)?;
                Ok(true)
            }
            Reply::Records(..) | Reply::Alias(..) | Reply::Redirects(..) | Reply::Nothing(..) => {
                self.answering.push(one)?;
                Ok(true)
            }
            Reply::Refers(tree, cut) => {
                let from = Referring {
                    server: one.server,
                    near: one.near,
                    tree,
                    cut,
                };
                if !queue_referrals(
                    asked,
                    from,
                    &mut self.queue,
                    &mut self.fails,
                    &mut self.faulty,
                )? {
                    return Ok(false);
                }
                self.passed.push(one)?;
                Ok(true)
            }
        }
    }

    /// The search that has passed the states that are passed, and not those whose servers answer.
    fn found(&self, alloc: Global) -> Result<Search<'a>, NoMemory>
        ensures queue { IfOk result (λ searched. searched.queue.items ≡ self.now.passed.items ++ self.now.answering.items) }
        ensures passed { IfOk result (λ searched. searched.passed ≡ length self.now.passed.items) }
        ensures fails { IfOk result (λ searched. searched.fails ≡ self.now.fails) }
        ensures faulty { IfOk result (λ searched. searched.faulty.items ≡ self.now.faulty.items) }
    {
        let mut queue = Vec::from_slice(alloc, self.passed.as_slice())?;
        queue.extend_from_slice(self.answering.as_slice())?;
        Ok(Search {
            queue,
            passed: self.passed.len(),
            fails: self.fails,
            faulty: Vec::from_slice(alloc, self.faulty.as_slice())?,
        })
    }
}
