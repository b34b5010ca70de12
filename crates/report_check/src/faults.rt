//! The faults that one walk shows by itself.

ghost use Rattle.std.specs.Prelude.{◌≡◌, ◌++◌, IfOk, OnOk};
ghost use Rattle.graph_form.specs.EndFaults.{fault_of, if_picked, is_shown, walk_fault};
ghost use Rattle.report_check.specs.WalkFaults.{walk_faults};
ghost use Rattle.zone_lookup.specs.ReferralFaults.{hop_faults};

use dns_data::{List, NoMemory};
use graph_form::{EndFault, walk_fault};
use net_model::{Fault, Hop, Walk};
use std::alloc::Global;
use zone_lookup::{Hosts, LearntSets, put_cut_faults};

/// The faults that a walk shows by itself: those of its referrals, whatever comes behind them, and that of its end. An
/// overlong rewrite is among them whatever the query.
pub(crate) fn faults_of_walk(
    alloc: Global,
    hosts: &Hosts<'_>,
    sets: &LearntSets,
    walk: &Walk,
) -> Result<List<Fault>, NoMemory>
    ensures { IfOk result (λ faults. faults ≡ walk_faults hosts.now sets.now walk.now) }
{
    let mut faults = List::new(alloc);
    for hop in walk.hops.items() {
        put_hop_faults(alloc, hosts, sets, hop, &mut faults)?;
    }
    put_end_fault(alloc, sets, walk, &mut faults)?;
    Ok(faults)
}

/// Puts the faults of a hop behind the others, if it is a referral.
fn put_hop_faults(
    alloc: Global,
    hosts: &Hosts<'_>,
    sets: &LearntSets,
    hop: &Hop,
    faults: &mut List<Fault>,
) -> Result<(), NoMemory>
    ensures { OnOk result (faults.new ≡ faults.old ++ hop_faults hosts.now sets.now hop.now) }
{
    match hop {
        Hop::Refer(cut) => put_cut_faults(alloc, hosts, sets, cut, faults),
        Hop::Rewrite { .. } => Ok(()),
    }
}

/// Puts the fault of a walk's end behind the others, if it has one and the sets show it.
fn put_end_fault(
    alloc: Global,
    sets: &LearntSets,
    walk: &Walk,
    faults: &mut List<Fault>,
) -> Result<(), NoMemory>
    ensures { OnOk result (faults.new ≡ faults.old ++ if_picked (is_shown sets.now) (walk_fault walk.now)) }
{
    match walk_fault(walk) {
        Some(end) => {
            if is_shown(sets, &end) {
                return faults.push(end.to_fault(alloc)?);
            }
            Ok(())
        }
        None => Ok(()),
    }
}

/// Whether the sets show the fault of an end: of a name server without an address, that it isn't in the greatest.
fn is_shown(sets: &LearntSets, end: &EndFault<'_>) -> bool
    ensures { result ≡ is_shown sets.now (fault_of end.now) }
{
    match end {
        EndFault::NoAddress(cut) => !sets.has_greatest(&cut.ns),
        _ => true,
    }
}
