//! What servers answer to queries, put to the ends of walks.

ghost use Rattle.std.specs.Prelude.{◌≡◌, true, ◌&&◌, not, IfOk, IfSome, is_some, option_map};
ghost use Rattle.straight_walks.specs.Aliases.{told_by_fault};
ghost use Rattle.straight_walks.specs.Answers.{IsLast, alias_answering, last_owner};
ghost use Rattle.zone_tree.specs.Tree.{IsNode};
ghost use Rattle.zone_lookup.specs.Reply.{IsReply};
ghost use Rattle.straight_walks.specs.Nowhere.{place_of};
ghost use Rattle.straight_walks.specs.Searching.{AnswerIsPut, IsAnswered, IsAnsweredBehind};
ghost use Rattle.zone_lookup.specs.declared.reply.Reply.TheVariants as reply_as;

use crate::aliases::{AliasEnd, alias_end};
use crate::answers::ZoneAnswer;
use crate::asked::Asked;
use crate::below::has_nothing_below;
use crate::ends::StraightEnds;
use crate::lent_place::LentPlace;
use crate::queue::Queued;
use dns_data::{JoinFault, Name, NoMemory};
use name_rules::substitute;
use std::alloc::Global;
use zone_lookup::{Reply, reply_near};
use zone_tree::{NodeId, Tree};

/// Whether the state's server, which gives the query this reply, is seen to answer as each one before. What it answers is
/// put to the others. It isn't so where it gives no answer.
pub(crate) fn put_answer<'h, 'a>(
    alloc: Global,
    asked: Asked<'h, '_, 'a>,
    one: Queued<'a>,
    reply: Reply<'h, 'a>,
    ends: &mut StraightEnds<'h, 'a>,
) -> Result<bool, NoMemory>
    requires { IsReply asked.hosts.now one.server.now asked.name.now reply }
    ensures { IfOk result (λ answered. answered ≡ true → IsAnswered asked.entry.hosts.now asked.entry.name.now one.entry.server.now ends.old ends.new) }
{
    match reply {
        Reply::Records(tree, owner) => {
            let none_below = has_nothing_below(alloc, tree, owner, asked.name)?;
            Ok(ends.put(ZoneAnswer::of_owner(tree, owner), 0, none_below))
        }
        Reply::Alias(tree, owner, target) => {
            let alias = LentPlace::of_owner(one.server, tree, owner);
            match alias_end(asked.hosts, one.near, alias, target, 0, asked.rewrites) {
                Some(end) => {
                    let none_below = has_nothing_below(alloc, tree, owner, asked.name)?;
                    put_alias(tree, owner, &end, none_below, ends)
                }
                None => Ok(false),
            }
        }
        Reply::Redirects(tree, owner, target) => {
            put_redirected(alloc, asked, one, tree, owner, target, ends)
        }
        Reply::Nothing(tree) => Ok(ends.put(ZoneAnswer::of_nothing(tree), 0, false)),
        Reply::Outside | Reply::Refers(..) => Ok(false),
    }
}

/// Whether the server at which this owner's name is an alias with this end is seen to answer as each one before.
fn put_alias<'h, 'a>(
    tree: &'h Tree<'a>,
    owner: NodeId,
    end: &AliasEnd<'h, 'a>,
    none_below: bool,
    ends: &mut StraightEnds<'h, 'a>,
) -> Result<bool, NoMemory>
    requires node { IsNode tree.now owner }
    requires last { IfSome end.now.last IsLast }
    ensures { IfOk result (λ answered. answered ≡ true → AnswerIsPut ends.old (alias_answering tree.now owner (option_map last_owner end.now.last)) end.now.rewrites
        (none_below && not (is_some end.now.fault)) (told_by_fault end.now.fault) ends.new) }
{
    let answer = ZoneAnswer::of_alias(tree, owner, &end.last);
    match end.fault {
        Some(fault) => ends.put_with_fault(answer, fault, end.rewrites),
        None => Ok(ends.put(answer, end.rewrites, none_below)),
    }
}

/// Whether the state's server, at which a DNAME record of this owner with this target redirects the query, is seen to
/// answer as each one before. What it answers to the name that the record makes is put to the others (RFC 6672 section
/// 2.2).
fn put_redirected<'h, 'a>(
    alloc: Global,
    asked: Asked<'h, '_, 'a>,
    one: Queued<'a>,
    tree: &'h Tree<'a>,
    owner: NodeId,
    target: &'a Name,
    ends: &mut StraightEnds<'h, 'a>,
) -> Result<bool, NoMemory>
    requires { IsReply asked.hosts.now one.server.now asked.name.now (reply_as.Redirects tree owner target) }
    ensures { IfOk result (λ answered. answered ≡ true → IsAnswered asked.entry.hosts.now asked.entry.name.now one.entry.server.now ends.old ends.new) }
{
    match substitute(alloc, asked.name, tree.name(owner), target) {
        Ok(to) => put_behind(
            asked,
            one,
            LentPlace::of_owner(one.server, tree, owner),
            &to,
            ends,
        ),
        Err(JoinFault::TooLong) => Ok(false),
        Err(JoinFault::NoMemory) => Err(NoMemory),
    }
}

/// Whether the state's server is seen to answer to a name, to which the one rewrite at this place led there, as each one
/// before answers the query. It is where the server has data for the name, or for that to which its aliases lead; or where
/// there is no such name, which is put to the blackholes.
fn put_behind<'h, 'a>(
    asked: Asked<'h, '_, 'a>,
    one: Queued<'a>,
    by: LentPlace<'h, 'a>,
    name: &Name,
    ends: &mut StraightEnds<'h, 'a>,
) -> Result<bool, NoMemory>
    ensures { IfOk result (λ answered. answered ≡ true → IsAnsweredBehind asked.entry.hosts.now one.entry.server.now name.now 1 (place_of by.entry) ends.old ends.new) }
{
    match reply_near(asked.hosts, one.near, one.server, name) {
        Reply::Records(tree, owner) => Ok(ends.put(ZoneAnswer::of_owner(tree, owner), 1, false)),
        Reply::Alias(tree, owner, target) => {
            let alias = LentPlace::of_owner(one.server, tree, owner);
            match alias_end(asked.hosts, one.near, alias, target, 1, asked.rewrites) {
                Some(end) => put_alias(tree, owner, &end, false, ends),
                None => Ok(false),
            }
        }
        Reply::Nothing(tree) => ends.put_blackhole(tree, by, 1),
        Reply::Outside | Reply::Refers(..) | Reply::Redirects(..) => Ok(false),
    }
}
