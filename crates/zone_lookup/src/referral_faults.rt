//! The faults that a referral shows, whatever comes behind it.

ghost use Rattle.std.specs.Prelude.{◌≡◌, ◌++◌, true, OnOk};
ghost use Rattle.dns_data.specs.Name.{is_prefix};
ghost use Rattle.zone_lookup.specs.ReferralFaults.{cut_faults, referral_faults};

use crate::cut_flags::CutFlags;
use crate::hosts::Hosts;
use crate::learnt_sets::LearntSets;
use crate::lent_cut::LentCut;
use dns_data::{List, NoMemory};
use net_model::{Cut, Fault};
use std::alloc::Global;

/// Puts the faults of a referral, whatever comes behind it, behind the others, if its zone cut is at or below its zone's
/// origin, as the zone cut of every referral on a walk is. `NoMemory` comes where there is no room for them, or for the
/// addresses that are compared; some of them stand behind the others then (RFC 1034 sections 4.2.1 and 4.3.2).
pub fn put_cut_faults(
    alloc: Global,
    hosts: &Hosts<'_>,
    sets: &LearntSets,
    cut: &Cut,
    faults: &mut List<Fault>,
) -> Result<(), NoMemory>
    ensures { OnOk result (faults.new ≡ faults.old ++ cut_faults hosts.now sets.now cut.now) }
{
    if cut.zone.is_prefix_of(&cut.cut) {
        put_referral(alloc, hosts, sets, cut, faults)
    } else {
        Ok(())
    }
}

/// Puts the faults of a referral to a name server behind the others.
fn put_referral(
    alloc: Global,
    hosts: &Hosts<'_>,
    sets: &LearntSets,
    cut: &Cut,
    faults: &mut List<Fault>,
) -> Result<(), NoMemory>
    requires { is_prefix cut.now.zone cut.now.cut ≡ true }
    ensures { OnOk result (faults.new ≡ faults.old ++ referral_faults hosts.now sets.now cut.now) }
{
    CutFlags::of(alloc, hosts, sets, LentCut::of(cut))?.put_faults(alloc, cut, faults)
}
