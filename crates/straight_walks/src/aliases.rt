//! Where the aliases of a name lead.

ghost use Rattle.std.specs.Prelude.{IfSome};
ghost use Rattle.straight_walks.specs.Aliases.{LeadsByAliases};
ghost use Rattle.straight_walks.specs.Nowhere.{place_of};

use crate::answers::LastOwner;
use crate::lent_place::{AliasFault, LentPlace};
use dns_data::Name;
use zone_lookup::{Hosts, Near, Reply, reply_near};

/// Where aliases lead at a server behind so many rewrites: to the last owner, or without one to a walk's failure; and the
/// fault that walks show then.
#[derive(Clone, Copy)]
pub(crate) struct AliasEnd<'h, 'a> {
    pub last: Option<LastOwner<'h, 'a>>,
    pub rewrites: u32,
    pub fault: Option<AliasFault<'h, 'a>>,
}

/// Where an alias of this place and with this target leads, at which walks stand behind so many rewrites, of which they
/// may use as many as the limit: to data that its server has or to a name that it hasn't, or past the limit. It is `None`
/// for others. The server and its zones are looked for near a place first.
pub(crate) fn alias_end<'h, 'a>(
    hosts: &'h Hosts<'a>,
    near: Near,
    alias: LentPlace<'h, 'a>,
    target: &Name,
    used: u32,
    limit: u32,
) -> Option<AliasEnd<'h, 'a>>
    ensures { IfSome result (LeadsByAliases hosts.now (place_of alias.entry) target.now used) }
{
    if used >= limit {
        return Some(AliasEnd {
            last: None,
            rewrites: used,
            fault: Some(AliasFault {
                place: alias,
                limit: Some(limit),
            }),
        });
    }
    match reply_near(hosts, near, alias.server, target) {
        Reply::Records(tree, owner) => Some(AliasEnd {
            last: Some(LastOwner {
                tree,
                owner: Some(owner),
            }),
            rewrites: used + 1,
            fault: None,
        }),
        Reply::Nothing(tree) => Some(AliasEnd {
            last: Some(LastOwner { tree, owner: None }),
            rewrites: used + 1,
            fault: Some(AliasFault {
                place: alias,
                limit: None,
            }),
        }),
        Reply::Alias(tree, owner, further) => {
            let next = LentPlace::of_owner(alias.server, tree, owner);
            alias_end(hosts, near, next, further, used + 1, limit)
        }
        _ => None,
    }
}
