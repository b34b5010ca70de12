//! What a server replies to a name.

ghost use Rattle.std.specs.Prelude.{◌≡◌, true, Some};
ghost use Rattle.dns_data.specs.Name.{is_prefix};
ghost use Rattle.zone_lookup.specs.Reply.{IsReply, IsReplyIn, zone_of};

use crate::hosts::{Hosts, Near};
use dns_data::Name;
use zone_tree::{Decider, NodeId, Tree, deciding};

/// What a server replies to a name, whatever the type (RFC 1034 section 4.3.2): it holds no zone for the name; it refers
/// the name by this zone cut; the DNAME record of this owner with this target redirects the name; this owner, whose records
/// are the name's, is an alias of this target; it is none; or there is no such name. It takes no memory.
#[derive(Clone, Copy)]
pub enum Reply<'h, 'a> {
    Outside,
    Refers(&'h Tree<'a>, NodeId),
    Redirects(&'h Tree<'a>, NodeId, &'a Name),
    Alias(&'h Tree<'a>, NodeId, &'a Name),
    Records(&'h Tree<'a>, NodeId),
    Nothing(&'h Tree<'a>),
}

/// What the server of this name replies to a name.
pub fn reply_of<'h, 'a>(hosts: &'h Hosts<'a>, server: &Name, name: &Name) -> Reply<'h, 'a>
    ensures { IsReply hosts.now server.now name.now result }
{
    match hosts.nearest_of(server, name) {
        Some(tree) => reply_in(tree, name),
        None => Reply::Outside,
    }
}

/// What the server of this name replies to a name. The server and its zone are looked for near a place first.
pub fn reply_near<'h, 'a>(
    hosts: &'h Hosts<'a>,
    near: Near,
    server: &Name,
    name: &Name,
) -> Reply<'h, 'a>
    ensures { IsReply hosts.now server.now name.now result }
{
    match hosts.nearest_near(near, server, name) {
        Some(tree) => reply_in(tree, name),
        None => Reply::Outside,
    }
}

/// What the zone of the tree replies to a name at or below its origin.
pub fn reply_in<'h, 'a>(tree: &'h Tree<'a>, name: &Name) -> Reply<'h, 'a>
    requires { is_prefix tree.now.zone.origin name.now ≡ true }
    ensures zone { zone_of result ≡ Some tree.now.zone }
    ensures reply { IsReplyIn name.now result }
{
    match deciding(tree, name) {
        Decider::Cut(cut) => Reply::Refers(tree, cut),
        Decider::Redirection(owner) => match tree.redirection(owner) {
            Some(target) => Reply::Redirects(tree, owner, target),
            // The owner has the record.
            None => unreachable!(),
        },
        Decider::Records(owner) => match tree.alias(owner) {
            Some(target) => Reply::Alias(tree, owner, target),
            None => Reply::Records(tree, owner),
        },
        Decider::Nothing => Reply::Nothing(tree),
    }
}
