//! Referrals that show faults.

ghost use Rattle.std.specs.Prelude.{◌≡◌};
ghost use Rattle.straight_walks.specs.Faulty.{flags_by, shows_some};

use dns_data::Name;
use zone_lookup::CutFlags;

/// Which faults a referral to a name server shows: those of its zone cut, whatever comes behind it, and that walks end
/// there, since the name server has no zone at or below the cut. Neither a cyclic dependency nor a name server without an
/// address is among them: walks aren't seen to go straight there.
#[derive(Clone, Copy)]
pub struct ReferralFlags {
    pub lame: bool,
    pub differs: bool,
    pub no_glue: bool,
    pub glue_differs: bool,
}

impl ReferralFlags {
    /// What the table of zone cuts has of the referral, and whether walks end there since the name server has no zone at
    /// or below the cut.
    pub(crate) fn of(flags: CutFlags, lame: bool) -> ReferralFlags
        ensures { result ≡ flags_by flags lame }
    {
        ReferralFlags {
            lame,
            differs: flags.differs,
            no_glue: flags.no_glue,
            glue_differs: flags.glue_differs,
        }
    }

    /// Whether the referral shows some fault.
    pub(crate) fn shows_some(self) -> bool
        ensures { result ≡ shows_some self }
    {
        self.lame || self.differs || self.no_glue || self.glue_differs
    }
}

/// A referral that shows faults, for a name and all names below it alike: the server that refers, the origin of its zone,
/// how many labels of the name the zone cut has, the name server of the cut, and which faults.
#[derive(Clone, Copy)]
pub struct Faulty<'a> {
    pub server: &'a Name,
    pub zone: &'a Name,
    pub cut: u32,
    pub ns: &'a Name,
    pub flags: ReferralFlags,
}
