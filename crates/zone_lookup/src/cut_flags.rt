//! What a referral shows, whatever comes behind it, as flags.

ghost use Rattle.std.specs.Prelude.{◌≡◌, ◌++◌, ◌&&◌, ◌||◌, not, true, IfOk, IfSome, OnOk};
ghost use Rattle.std.specs.Option.{option_map};
ghost use Rattle.dns_data.specs.Name.{is_among, is_prefix};
ghost use Rattle.net_model.specs.Nearest.{is_top};
ghost use Rattle.net_model.specs.declared.fault.Fault.{Fault as FaultValue};
ghost use Rattle.zone_lookup.specs.CutFlags.{faults_by, flags_by, flags_of, glue_alone, is_quiet};
ghost use Rattle.zone_lookup.specs.LentCut.{cut_of};
ghost use Rattle.zone_lookup.specs.ReferralFaults.{if_shown};
ghost use Rattle.zone_lookup.specs.Sound.{wants_glue};

use crate::hosts::Hosts;
use crate::learnt_sets::LearntSets;
use crate::lent_cut::LentCut;
use crate::sides::{addresses_differ, has_glue, zones_differ};
use dns_data::{List, Name, NoMemory};
use net_model::{Cut, Fault, is_among};
use std::alloc::Global;
use zone_tree::Tree;

/// What a referral to a name server shows, whatever comes behind it and whatever is asked: which of the faults of its zone
/// cut; and whether the configured name server's address isn't known while the servers of the least set are followed.
#[derive(Clone, Copy, Debug, PartialEq, Eq)]
pub struct CutFlags {
    pub differs: bool,
    pub no_glue: bool,
    pub glue_differs: bool,
    pub cyclic: bool,
    pub no_address: bool,
}

impl CutFlags {
    /// What a referral shows whose zone cut is at or below its zone's origin. Of a name server that isn't configured the
    /// glue alone is looked for. `NoMemory` comes where there is no room for the addresses that are compared.
    pub fn of(
        alloc: Global,
        hosts: &Hosts<'_>,
        sets: &LearntSets,
        cut: LentCut<'_>,
    ) -> Result<CutFlags, NoMemory>
        requires { is_prefix cut.zone.now cut.cut.now ≡ true }
        ensures { IfOk result (λ flags. flags ≡ flags_of hosts.now sets.now (cut_of cut.entry)) }
    {
        match hosts.host(cut.ns) {
            Some(host) => {
                let above = hosts.held_zone(cut.server, cut.zone);
                let below = host.zone_with_origin(cut.cut);
                CutFlags::of_sides(alloc, hosts, sets, above, below, cut.cut, cut.ns)
            }
            None => Ok(CutFlags::of_glue(wants_glue(hosts, cut))),
        }
    }

    /// What a referral shows of which the glue alone is looked for.
    pub fn of_glue(missing: bool) -> CutFlags
        ensures { result ≡ glue_alone missing }
    {
        CutFlags {
            differs: false,
            no_glue: missing,
            glue_differs: false,
            cyclic: false,
            no_address: false,
        }
    }

    /// What a referral to a configured name server shows, by the zones at both sides of it and what is learnt: by the one
    /// that refers, and by the name server's own with the zone cut as its origin.
    pub(crate) fn of_sides(
        alloc: Global,
        hosts: &Hosts<'_>,
        sets: &LearntSets,
        above: Option<&Tree<'_>>,
        below: Option<&Tree<'_>>,
        cut: &Name,
        ns: &Name,
    ) -> Result<CutFlags, NoMemory>
        requires above { IfSome above (λ tree. is_prefix tree.now.zone.origin cut.now ≡ true) }
        requires below { IfSome below (λ tree. is_prefix tree.now.zone.origin cut.now ≡ true) }
        ensures { IfOk result (λ flags. flags ≡ flags_by hosts.now sets.now true
            (option_map (λ tree. tree.now.zone) above.entry) (option_map (λ tree. tree.now.zone) below.entry) cut.now ns.now) }
    {
        let glued = has_glue(above, cut, ns);
        let known = is_known(hosts, sets, glued, ns);
        let glue_differs = addresses_differ(alloc, above, below, cut, ns)?;
        Ok(CutFlags {
            differs: zones_differ(above, below, cut),
            no_glue: is_without(glued, cut, ns),
            glue_differs,
            cyclic: is_cyclic(known, sets, ns),
            no_address: !known,
        })
    }

    /// Whether the referral shows no fault, and walks don't end there for want of an address.
    pub fn is_quiet(&self) -> bool
        ensures { result ≡ is_quiet self.now }
    {
        !(self.differs || self.no_glue || self.glue_differs || self.cyclic || self.no_address)
    }

    /// Puts the faults behind the others that the flags tell of a referral's zone cut.
    pub fn put_faults(
        &self,
        alloc: Global,
        cut: &Cut,
        faults: &mut List<Fault>,
    ) -> Result<(), NoMemory>
        ensures { OnOk result (faults.new ≡ faults.old ++ faults_by self.now cut.now) }
    {
        put_shown(alloc, self.differs, Fault::Differs, cut, faults)?;
        put_shown(alloc, self.no_glue, Fault::NoGlue, cut, faults)?;
        put_shown(alloc, self.glue_differs, Fault::GlueDiffers, cut, faults)?;
        put_shown(alloc, self.cyclic, Fault::Cyclic, cut, faults)
    }
}

/// Whether the address of a name server is known: by glue, which it may have, as a top server, or as one of the least set.
fn is_known(hosts: &Hosts<'_>, sets: &LearntSets, glued: bool, ns: &Name) -> bool
    ensures { result ≡ (is_top hosts.now ns.now || glued || is_among sets.now.least ns.now) }
{
    is_among(hosts.config().tops(), ns) || glued || sets.has_least(ns)
}

/// Whether the name server, which may have glue, is at or below the cut and has none.
fn is_without(glued: bool, cut: &Name, ns: &Name) -> bool
    ensures { result ≡ (is_prefix cut.now ns.now && not glued) }
{
    cut.is_prefix_of(ns) && !glued
}

/// Whether the address of a name server, which may be known, isn't known and is learnt all the same if each is followed.
fn is_cyclic(known: bool, sets: &LearntSets, ns: &Name) -> bool
    ensures { result ≡ (not known && is_among sets.now.greatest ns.now) }
{
    !known && sets.has_greatest(ns)
}

/// Whether the name server is at or below the cut and has no glue.
fn wants_glue(hosts: &Hosts<'_>, cut: LentCut<'_>) -> bool
    requires { is_prefix cut.zone.now cut.cut.now ≡ true }
    ensures { result ≡ wants_glue hosts.now (cut_of cut.entry) }
{
    cut.cut.is_prefix_of(cut.ns) && !hosts.has_glue(cut)
}

/// Puts the fault of this kind at a zone cut behind the others, where it is shown.
fn put_shown<F: Fn(Cut) -> Fault>(
    alloc: Global,
    shown: bool,
    kind: F,
    cut: &Cut,
    faults: &mut List<Fault>,
) -> Result<(), NoMemory>
    requires { F.IsAlwaysCallable kind }
    ensures { OnOk result ((fault : FaultValue) → ((made : FaultValue) → F.post kind cut.now made → made ≡ fault) → faults.new ≡ faults.old ++ if_shown shown fault) }
{
    if shown {
        return faults.push(kind(cut.copy(alloc)?));
    }
    Ok(())
}
