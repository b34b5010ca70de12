//! Which name servers may be followed.

ghost use Rattle.std.specs.Prelude.{◌≡◌, option_map};
ghost use Rattle.net_model.specs.declared.walk.Leaf.TheVariants as leaf_as;
ghost use Rattle.interp_graph.specs.Restricted.{shut_of};

use dns_data::Name;
use net_model::Hop;
use zone_lookup::Hosts;

/// The servers of a configuration, and those that may be followed though neither a top server nor glue gives their address.
#[derive(Drop)]
pub(crate) struct Limits<'g, 'a> {
    pub hosts: &'g Hosts<'a>,
    pub followed: &'g [Name],
}

impl<'g, 'a> Limits<'g, 'a> {
    /// The name server of a hop, where it may not be followed.
    pub(crate) fn unknown<'h>(&self, hop: &'h Hop) -> Option<&'h Name>
        ensures { option_map (λ ns. leaf_as.NoAddress ns.now) result ≡ shut_of self.now hop.now }
    {
        match hop {
            Hop::Refer(cut) => {
                if self.hosts.may_follow(cut, self.followed) {
                    None
                } else {
                    Some(&cut.ns)
                }
            }
            Hop::Rewrite { .. } => None,
        }
    }
}
