//! Searches up to a server that refers the query.

ghost use Rattle.zone_lookup.specs.CutTable.{IsTableOf};
ghost use Rattle.straight_walks.specs.Searching.{IsNextReferral};

use crate::answering::put_answer;
use crate::asked::Asked;
use crate::ends::StraightEnds;
use crate::queue::Queued;
use crate::referrals::{Referring, all_end_outside};
use dns_data::NoMemory;
use std::alloc::Global;
use zone_lookup::{Reply, reply_near};
use zone_tree::{NodeId, Tree};

/// The next referral of a search over the queued states that it hasn't passed yet: there is none, walks end at all of
/// them, and all servers that answer answer alike; or they do so up to the state of this place, whose server refers the
/// query by this zone cut; or memory was wanting, which is no `Err`, since no call that gives a `Result` of nodes is
/// proved. A zone cut at all of whose name servers walks end is no such referral. Of other searches nothing is said.
#[derive(Clone, Copy)]
pub(crate) enum NextReferral<'h, 'a> {
    Ends,
    Refers {
        passed: usize,
        tree: &'h Tree<'a>,
        cut: NodeId,
    },
    NoMemory,
    Unclear,
}

/// The next referral of the search that has passed this many of the queued states. What walks end in at the states on the
/// way is put to what they ended in before. It takes memory for labels and names alone that it makes.
#[tactic(auto, using(crate::proofs::Replies::refers_inside, crate::proofs::Replies::refers_held))]
pub(crate) fn next_referral<'h, 'a>(
    alloc: Global,
    asked: Asked<'h, '_, 'a>,
    queue: &[Queued<'a>],
    passed: usize,
    ends: &mut StraightEnds<'h, 'a>,
) -> NextReferral<'h, 'a>
    requires { IsTableOf asked.hosts.now asked.sets.now asked.table.now }
    ensures { IsNextReferral asked.entry.hosts.now asked.entry.name.now queue.now passed ends.old ends.new result }
{
    let mut passed = passed;
    while passed < queue.len() {
        let one = queue[passed];
        let passes = match reply_near(asked.hosts, one.near, one.server, asked.name) {
            Reply::Outside => {
                ends.put_failing();
                true
            }
            Reply::Refers(tree, cut) => {
                let from = Referring {
                    server: one.server,
                    near: one.near,
                    tree,
                    cut,
                };
                if !all_end_outside(asked, from) {
                    return NextReferral::Refers { passed, tree, cut };
                }
                ends.put_failing();
                true
            }
            reply => match put_answer(alloc, asked, one, reply, ends) {
                Ok(answered) => answered,
                Err(NoMemory) => return NextReferral::NoMemory,
            },
        };
        if !passes {
            return NextReferral::Unclear;
        }
        passed += 1;
    }
    NextReferral::Ends
}
