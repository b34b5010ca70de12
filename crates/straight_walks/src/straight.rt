//! Whether the walks of a query go straight, and what they end in.

ghost use Rattle.std.specs.Prelude.{◌≡◌, ◌<◌, ◌≤◌, ◌+◌, ◌*◌, ◌↔◌, ◌++◌, Option as Optional, IfOk, IfSome, length, true};
ghost use Rattle.std.specs.List.{AllByRecursion, slice_get};
ghost use Rattle.dns_data.specs.Name.{Labels};
ghost use Rattle.dns_data.specs.declared.rr_type.RrType.{RrType as RrTypeValue};
ghost use Rattle.net_model.specs.declared.walk.Leaf.{Leaf as LeafValue};
ghost use Rattle.net_model.specs.Shown.{with_lists};
ghost use Rattle.net_model.specs.Step.{following};
ghost use Rattle.net_model.specs.Tails.{IsUnnamedTail};
ghost use Rattle.net_model.specs.Tree.{HasMoreThan, IsReached};
ghost use Rattle.net_model.specs.Walk.{IsBoundedWith};
ghost use Rattle.straight_walks.specs.Ends.{IsOutcomeOf};
ghost use Rattle.straight_walks.specs.Faulty.{ShowsThese};
ghost use Rattle.straight_walks.specs.Nowhere.{HasLimit};
ghost use Rattle.zone_lookup.specs.CutTable.{IsTableOf};
ghost use Rattle.zone_lookup.specs.Reply.{IsReply};
ghost use Rattle.straight_walks.specs.Searching.{HavePassed, GoesStraightIn, HoldsOfEachName};
ghost use Rattle.zone_lookup.specs.declared.reply.Reply.TheVariants as reply_as;
ghost use Rattle.straight_walks.specs.Regions.{AreRegionsFor, IsSearchBelow};
ghost use Rattle.straight_walks.specs.Straight.{NoOriginBetween, faults_by_ends};
ghost use Rattle.walk_laws.specs.Outcome.{HasOutcome};

use crate::asked::Asked;
use crate::ends::StraightEnds;
use crate::lent_place::AliasFault;
use crate::queue::Queue;
use crate::referrals::{Referring, queue_referrals};
use crate::referring::{NextReferral, next_referral};
use crate::regions::Regions;
use crate::searching::Search;
use dns_data::{List, Name, NoMemory, RrType};
use std::alloc::Global;
use zone_lookup::{CutTable, Hosts, LearntSets};
use zone_tree::{NodeId, Tree};

/// No more states than these are looked at.
pub(crate) const MOST: usize = 4096;

/// How many rewrites each walk may use, and how many states may be looked at, with those behind rewrites. The states at
/// all top servers count besides: walks of each query begin there.
#[derive(Clone, Copy)]
struct Limits {
    rewrites: u32,
    states: usize,
}

/// What the walks of a query end in, where they are seen to go straight over few enough pairs of state and type, or `None`.
/// Each walk may use so many rewrites and follows the servers of the least set; the sets are the least and the greatest set
/// of learnt addresses.
///
/// Where ends are given the query shows with each type the faults that they tell with it and no others, and has the
/// outcomes of these ends and no others. If the ends say `below`, each name below the query that has no origin of a zone
/// between shows these faults and no others. If they say `unnamed_below`, the query with an unnamed tail does.
///
/// The table and the regions are those of the same servers and sets. The query's region is looked for near a place first,
/// whatever that is, and the place is left near which that of the next query may be looked for. With no type does a walk
/// of the query end in a name of more than 255 octets (RFC 6672 section 2.2).
pub fn straight_ends<'h, 'a>(
    alloc: Global,
    hosts: &'h Hosts<'a>,
    sets: &LearntSets,
    table: &CutTable<'a>,
    regions: &Regions<'a>,
    near: &mut usize,
    query: &Name,
    rewrites: u32,
    states: u32,
) -> Result<Option<StraightEnds<'h, 'a>>, NoMemory>
    requires table { IsTableOf hosts.now sets.now table.now }
    requires regions { AreRegionsFor hosts.now sets.now regions.now }
    ensures few { IfOk result (λ found. IfSome found (λ ends. HasMoreThan (IsReached hosts.now rewrites query.now) states → ⊥)) }
    ensures shown { IfOk result (λ found. IfSome found (λ ends.
        ShowsThese (with_lists (following hosts.now rewrites sets.now.least) sets.now.least sets.now.greatest) query.now (faults_by_ends query.now ends))) }
    ensures bounded { IfOk result (λ found. IfSome found (λ ends. (rtype : RrTypeValue)
        → IsBoundedWith (following hosts.now rewrites sets.now.least) query.now rtype)) }
    ensures outcomes { IfOk result (λ found. IfSome found (λ ends. (rtype : RrTypeValue) (outcome : Optional LeafValue)
        → HasOutcome (following hosts.now rewrites sets.now.least) query.now rtype outcome ↔ IsOutcomeOf ends rtype outcome)) }
    ensures few_below { IfOk result (λ found. IfSome found (λ ends. ends.below ≡ true → (name : Labels) → NoOriginBetween hosts.now query.now name
        → HasMoreThan (IsReached hosts.now rewrites name) states → ⊥)) }
    ensures shown_below { IfOk result (λ found. IfSome found (λ ends. ends.below ≡ true → (name : Labels) → NoOriginBetween hosts.now query.now name
        → ShowsThese (with_lists (following hosts.now rewrites sets.now.least) sets.now.least sets.now.greatest) name (faults_by_ends query.now ends))) }
    ensures few_unnamed { IfOk result (λ found. IfSome found (λ ends. ends.unnamed_below ≡ true → (tail : Labels) → IsUnnamedTail hosts.now query.now tail
        → HasMoreThan (IsReached hosts.now rewrites (query.now ++ tail)) states → ⊥)) }
    ensures shown_unnamed { IfOk result (λ found. IfSome found (λ ends. ends.unnamed_below ≡ true → (tail : Labels) → IsUnnamedTail hosts.now query.now tail
        → ShowsThese (with_lists (following hosts.now rewrites sets.now.least) sets.now.least sets.now.greatest) (query.now ++ tail) (faults_by_ends query.now ends))) }
{
    let Some(states) = states_left(hosts, states) else {
        return Ok(None);
    };
    let limits = Limits { rewrites, states };
    let asked = Asked {
        hosts,
        sets,
        table,
        name: query,
        rewrites,
    };
    ends_by_region(alloc, asked, regions, near, limits)
}

/// How many states may be looked at where so many pairs of state and type may be reached, or `None` where the states at
/// the top servers are more already.
fn states_left(hosts: &Hosts<'_>, pairs: u32) -> Option<usize>
    ensures { IfSome result (λ left. (left + length hosts.now.tops) * 12 ≤ pairs) }
{
    let tops = hosts.config().tops().len();
    let most = pairs as usize / RrType::COUNT;
    if tops <= most {
        Some((most - tops).min(MOST))
    } else {
        None
    }
}

/// What walks end in that go straight within the limits, from the states of the search of the query's region, or from
/// those at the top servers where it is in none.
fn ends_by_region<'h, 'a>(
    alloc: Global,
    asked: Asked<'h, '_, 'a>,
    regions: &Regions<'a>,
    near: &mut usize,
    limits: Limits,
) -> Result<Option<StraightEnds<'h, 'a>>, NoMemory>
    requires table { IsTableOf asked.hosts.now asked.sets.now asked.table.now }
    requires regions { AreRegionsFor asked.hosts.now asked.sets.now regions.now }
    ensures { IfOk result (λ found. IfSome found (HoldsOfEachName asked.entry.hosts.now asked.entry.name.now
        (GoesStraightIn asked.entry.hosts.now asked.entry.sets.now limits.rewrites (limits.states + length asked.entry.hosts.now.tops)))) }
{
    match regions.search_for(near, asked.name) {
        Some(searched) => ends_from(alloc, asked, searched, limits),
        None => {
            let searched = Search::at_top(alloc, asked.hosts, regions.tops(), asked.name)?;
            ends_from(alloc, asked, &searched, limits)
        }
    }
}

/// What walks end in that go straight within the limits from all states of a search that has begun. The states are
/// copied where a server refers the query to servers that are configured, and the search goes on from there.
fn ends_from<'h, 'a>(
    alloc: Global,
    asked: Asked<'h, '_, 'a>,
    searched: &Search<'a>,
    limits: Limits,
) -> Result<Option<StraightEnds<'h, 'a>>, NoMemory>
    requires table { IsTableOf asked.hosts.now asked.sets.now asked.table.now }
    requires searched { IsSearchBelow asked.hosts.now asked.sets.now asked.name.now searched.now }
    ensures { IfOk result (λ found. IfSome found (HoldsOfEachName asked.entry.hosts.now asked.entry.name.now
        (GoesStraightIn asked.entry.hosts.now asked.entry.sets.now limits.rewrites (limits.states + length asked.entry.hosts.now.tops)))) }
{
    let queue = searched.queue.as_slice();
    if queue.len() > limits.states {
        return Ok(None);
    }
    let mut ends = StraightEnds {
        answer: None,
        fails: searched.fails,
        faulty: Vec::from_slice(alloc, searched.faulty.as_slice())?,
        blackholes: List::new(alloc),
        alias_faults: List::new(alloc),
        rewrites: 0,
        below: true,
        unnamed_below: true,
    };
    match next_referral(alloc, asked, queue, searched.passed, &mut ends) {
        NextReferral::Ends => Ok(ends_within(ends, queue.len(), limits)),
        NextReferral::NoMemory => Err(NoMemory),
        NextReferral::Unclear => Ok(None),
        NextReferral::Refers { passed, tree, cut } => {
            let mut queue = Queue::of(alloc, Vec::from_slice(alloc, queue)?);
            if !passes_referral(asked, tree, cut, passed, &mut queue, &mut ends)? {
                return Ok(None);
            }
            all_ends(alloc, asked, queue, passed + 1, ends, limits)
        }
    }
}

/// What walks end in that go straight within the limits from all queued states, and from those to which their servers
/// refer the query. A search has passed the first so many of them, and has the ends of walks there.
fn all_ends<'h, 'a>(
    alloc: Global,
    asked: Asked<'h, '_, 'a>,
    queue: Queue<'a>,
    passed: usize,
    ends: StraightEnds<'h, 'a>,
    limits: Limits,
) -> Result<Option<StraightEnds<'h, 'a>>, NoMemory>
    requires table { IsTableOf asked.hosts.now asked.sets.now asked.table.now }
    requires passed { HavePassed asked.hosts.now asked.sets.now asked.name.now queue passed ends }
    ensures { IfOk result (λ found. IfSome found (HoldsOfEachName asked.entry.hosts.now asked.entry.name.now
        (GoesStraightIn asked.entry.hosts.now asked.entry.sets.now limits.rewrites (limits.states + length asked.entry.hosts.now.tops)))) }
{
    let mut queue = queue;
    let mut passed = passed;
    let mut ends = ends;
    while queue.len() <= limits.states {
        match next_referral(alloc, asked, queue.as_slice(), passed, &mut ends) {
            NextReferral::Ends => return Ok(ends_within(ends, queue.len(), limits)),
            NextReferral::NoMemory => return Err(NoMemory),
            NextReferral::Unclear => return Ok(None),
            NextReferral::Refers {
                passed: place,
                tree,
                cut,
            } => {
                if !passes_referral(asked, tree, cut, place, &mut queue, &mut ends)? {
                    return Ok(None);
                }
                passed = place + 1;
            }
        }
    }
    Ok(None)
}

/// Whether a search passes the next state too, that at this place, whose server refers the query by this zone cut: it
/// does where walks are seen to go straight by the referrals. The states to which they lead are queued then, and the ends
/// say whether walks fail, and which of the referrals show faults.
fn passes_referral<'h, 'a>(
    asked: Asked<'h, '_, 'a>,
    tree: &'h Tree<'a>,
    cut: NodeId,
    place: usize,
    queue: &mut Queue<'a>,
    ends: &mut StraightEnds<'h, 'a>,
) -> Result<bool, NoMemory>
    requires table { IsTableOf asked.hosts.now asked.sets.now asked.table.now }
    requires within { place < length queue.old }
    requires refers { IfSome (slice_get queue.old place) (λ one. IsReply asked.hosts.now one.server.now asked.name.now (reply_as.Refers tree cut)) }
    requires passed { HavePassed asked.hosts.now asked.sets.now asked.name.now queue.old place ends.old }
    ensures { IfOk result (λ straight. straight ≡ true
        → HavePassed asked.entry.hosts.now asked.entry.sets.now asked.entry.name.now queue.new (place + 1) ends.new) }
{
    let one = queue.as_slice()[place];
    let from = Referring {
        server: one.server,
        near: one.near,
        tree,
        cut,
    };
    queue_referrals(asked, from, queue, &mut ends.fails, &mut ends.faulty)
}

/// The ends, where no walk is rewritten more often than it may be, each limit that they tell is this one, and so many
/// states are no more than may be looked at, with as many behind each of them as there are rewrites.
#[tactic(auto, using(crate::proofs::GivenEnds::times_fit))]
fn ends_within<'h, 'a>(
    ends: StraightEnds<'h, 'a>,
    states: usize,
    limits: Limits,
) -> Option<StraightEnds<'h, 'a>>
    ensures same { IfSome result (λ found. found ≡ ends.entry) }
    ensures few { IfSome result (λ found. states * (ends.entry.rewrites + 1) ≤ limits.states) }
    ensures rewrites { IfSome result (λ found. ends.entry.rewrites ≤ limits.rewrites) }
    ensures limits { IfSome result (λ found. AllByRecursion (HasLimit limits.rewrites) ends.entry.alias_faults) }
{
    if ends.rewrites <= limits.rewrites
        && states <= limits.states / (ends.rewrites as usize + 1)
        && are_limits(ends.alias_faults.items(), limits.rewrites)
    {
        return Some(ends);
    }
    None
}

/// Whether each limit that is told is this one.
fn are_limits(faults: &[AliasFault<'_, '_>], rewrites: u32) -> bool
    ensures { result ≡ true → AllByRecursion (HasLimit rewrites) faults.now }
{
    for one in faults {
        if let Some(limit) = one.limit {
            if limit != rewrites {
                return false;
            }
        }
    }
    true
}
