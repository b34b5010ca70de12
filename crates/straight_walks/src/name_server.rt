//! Referrals to one name server.

ghost use Rattle.std.specs.Prelude.{◌≡◌, true};
ghost use Rattle.dns_data.specs.Name.{is_prefix};
ghost use Rattle.zone_lookup.specs.LentCut.{cut_of};
ghost use Rattle.straight_walks.specs.Faulty.{AreFlagsBySides};
ghost use Rattle.straight_walks.specs.Searching.{IsReferral};

use crate::asked::Asked;
use crate::faulty::ReferralFlags;
use zone_lookup::{CutFlags, Lead, LentCut, Walker};

/// A referral to a name server, with the faults that it shows: walks end there, since it isn't configured or has no zone at
/// or below the zone cut, or go on to it. Of other referrals nothing is said, such as of those to a name server without an
/// address: it may have one where more servers are followed, and walks would go on to it.
#[derive(Clone, Copy)]
pub(crate) enum Referral {
    Ends(ReferralFlags),
    GoesOn(ReferralFlags),
    Unclear,
}

/// The referral of the query to a name server of a zone cut, by the flags of what it shows.
pub(crate) fn referral_to(asked: Asked<'_, '_, '_>, to: LentCut<'_>, flags: CutFlags) -> Referral
    requires inside { is_prefix to.zone.now to.cut.now ≡ true }
    requires flags { AreFlagsBySides asked.hosts.now (cut_of to) flags }
    ensures { IsReferral asked.entry.hosts.now asked.entry.sets.now asked.entry.name.now (cut_of to.entry) result }
{
    match Walker::following_least(asked.hosts, 0, asked.sets).leads(to, asked.name) {
        Lead::Goes(_) => Referral::GoesOn(ReferralFlags::of(flags, false)),
        Lead::Unhosted => Referral::Ends(ReferralFlags::of(flags, false)),
        Lead::Lame => Referral::Ends(ReferralFlags::of(flags, true)),
        Lead::NoAddress => Referral::Unclear,
    }
}
