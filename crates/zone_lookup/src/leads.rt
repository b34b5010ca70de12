//! Where referrals lead.

ghost use Rattle.std.specs.Prelude.{◌≡◌, true};
ghost use Rattle.dns_data.specs.Name.{is_prefix};
ghost use Rattle.zone_lookup.specs.Leads.{IsLead};
ghost use Rattle.zone_lookup.specs.LentCut.{cut_of};

use crate::lent_cut::LentCut;
use crate::walker::Walker;
use dns_data::Name;
use zone_tree::Tree;

/// Where a referral of a name to a name server leads: that one isn't configured, or its address isn't known, or it has no
/// zone at or below the zone cut for the name; or on to its zone. It takes no memory.
#[derive(Clone, Copy)]
pub enum Lead<'h, 'a> {
    Unhosted,
    NoAddress,
    Lame,
    Goes(&'h Tree<'a>),
}

impl<'h, 'a> Walker<'h, 'a> {
    /// Where a referral of the name to the cut's name server leads.
    pub fn leads(&self, cut: LentCut<'_>, name: &Name) -> Lead<'h, 'a>
        requires { is_prefix cut.zone.now cut.cut.now ≡ true }
        ensures { IsLead self.now (cut_of cut.entry) name.now result }
    {
        let Some(host) = self.hosts().host(cut.ns) else {
            return Lead::Unhosted;
        };
        if !self.may_follow(cut) {
            return Lead::NoAddress;
        }
        match host.nearest(name) {
            Some(tree) if cut.cut.is_prefix_of(&tree.zone().origin) => Lead::Goes(tree),
            _ => Lead::Lame,
        }
    }
}
