//! Lookups.

ghost use Rattle.std.specs.Prelude.{◌≡◌, true, IfOk};
ghost use Rattle.dns_data.specs.Name.{is_prefix};
ghost use Rattle.net_model.specs.Lookup.{found};

use crate::reply::{Reply, reply_in};
use dns_data::{Name, NoMemory, RrType};
use name_rules::redirected;
use net_model::Found;
use std::alloc::Global;
use zone_tree::{Tree, at_name, referral};

/// What the zone of the tree answers to a name at or below its origin and a type (RFC 1034 section 4.3.2, RFC 4592
/// section 3.3, RFC 6672 section 3.2).
pub fn find(alloc: Global, tree: &Tree<'_>, name: &Name, t: RrType) -> Result<Found, NoMemory>
    requires { is_prefix tree.now.zone.origin name.now ≡ true }
    ensures { IfOk result (λ answer. answer ≡ found tree.now.zone name.now t) }
{
    match reply_in(tree, name) {
        Reply::Refers(tree, cut) => referral(alloc, tree, cut),
        Reply::Redirects(tree, owner, target) => {
            redirected(alloc, name, tree.name(owner), Some(target))
        }
        Reply::Alias(tree, owner, _) => at_name(alloc, tree, owner, t),
        Reply::Records(tree, owner) => at_name(alloc, tree, owner, t),
        Reply::Nothing(_) => Ok(Found::NxDomain),
        // The tree is that of a zone.
        Reply::Outside => unreachable!(),
    }
}
