//! The faults of the zone cuts of a graph's referrals, whatever comes behind them.

ghost use Rattle.std.specs.Prelude.{◌≡◌, ◌++◌, map, true, Some, IfOk, OnOk};
ghost use Rattle.std.specs.List.{AllZip, flat_map};
ghost use Rattle.std.specs.Option.{option_copied, option_map};
ghost use Rattle.delegation_checks.specs.Referrals.{ArmRefers, AreFlagged, GraphRefers, IsFlagged, NodeRefers, RefersByOne, branch_faults, branch_faults_by, first_cut, typed_faults};
ghost use Rattle.graph_form.specs.Branches.{arm_branches, branch_seen, hop_of, node_branches, seen_by, with_type};
ghost use Rattle.net_model.specs.Nearest.{held_zone};
ghost use Rattle.net_model.specs.Zone.{exists_in};
ghost use Rattle.net_model.specs.declared.config.Config.{Config};
ghost use Rattle.net_model.specs.declared.config.Zone.{Zone};
ghost use Rattle.net_model.specs.declared.deps.Deps.{Deps};
ghost use Rattle.net_model.specs.declared.walk.State.{State};
ghost use Rattle.zone_lookup.specs.CutFlags.{faults_by};
ghost use Rattle.zone_lookup.specs.CutTable.{IsTableOf, AreCutFlags, referrals_at};

use dns_data::{List, NoMemory, RrType};
use graph_form::{Arm, Branch, Graph, Node, Seen};
use net_model::{Cut, Fault, Hop};
use std::alloc::Global;
use zone_lookup::{CutFlags, CutTable, Hosts};

/// The faults of the zone cuts of a graph's referrals, branch by branch, as the table tells them. The table is asked once
/// for the branches of a state, which refer by one zone cut.
pub(crate) fn cut_faults_of(
    alloc: Global,
    hosts: &Hosts<'_>,
    table: &CutTable<'_>,
    graph: &Graph,
) -> Result<List<Seen>, NoMemory>
    ensures { IfOk result (λ seen. (deps : Deps) → IsTableOf hosts.now deps table.now → GraphRefers hosts.now graph.now
        → seen ≡ seen_by (λ state. branch_faults hosts.now deps) graph.now) }
{
    let mut seen = List::new(alloc);
    for number in 0..graph.nodes() {
        put_node(alloc, hosts, table, graph.node(number), &mut seen)?;
    }
    Ok(seen)
}

/// Puts the faults of the zone cuts of a node's referrals behind those seen.
fn put_node(
    alloc: Global,
    hosts: &Hosts<'_>,
    table: &CutTable<'_>,
    node: &Node,
    seen: &mut List<Seen>,
) -> Result<(), NoMemory>
    ensures { OnOk result ((deps : Deps) → IsTableOf hosts.now deps table.now → NodeRefers hosts.now node.now
        → seen.new ≡ seen.old ++ flat_map (branch_seen (λ state. branch_faults hosts.now deps)) (node_branches node.now)) }
{
    for arm in node.arms.items() {
        put_arm(alloc, hosts, table, arm, seen)?;
    }
    Ok(())
}

/// Puts the faults of the zone cut of an arm's referrals behind those seen, with the arm's first type, if it has one.
fn put_arm(
    alloc: Global,
    hosts: &Hosts<'_>,
    table: &CutTable<'_>,
    arm: &Arm,
    seen: &mut List<Seen>,
) -> Result<(), NoMemory>
    ensures { OnOk result ((deps : Deps) (state : State) → IsTableOf hosts.now deps table.now → ArmRefers hosts.now arm.now
        → seen.new ≡ seen.old ++ flat_map (branch_seen (λ of. branch_faults hosts.now deps)) (arm_branches state arm.now)) }
{
    let Some(rtype) = arm.types.first() else {
        return Ok(());
    };
    let branches = arm.branches.items();
    match flags_of_branches(hosts, table, branches) {
        Some(all_flags) => put_branches(alloc, branches, all_flags, rtype, seen),
        None => Ok(()),
    }
}

/// Puts the faults of branches behind those seen, with the type. The flags of each stand beside it.
fn put_branches(
    alloc: Global,
    branches: &[Branch],
    all_flags: &[CutFlags],
    rtype: RrType,
    seen: &mut List<Seen>,
) -> Result<(), NoMemory>
    ensures { OnOk result ((config : Config) (deps : Deps) → AllZip (IsFlagged config deps) branches.now all_flags.now
        → seen.new ≡ seen.old ++ flat_map (typed_faults config deps rtype) branches.now) }
{
    for (place, branch) in branches.iter().enumerate() {
        if let Some(flags) = all_flags.get(place) {
            put_branch(alloc, branch, flags, rtype, seen)?;
        }
    }
    Ok(())
}

/// Puts the faults that flags tell of a branch, if it is a referral, behind those seen, with the type.
fn put_branch(
    alloc: Global,
    branch: &Branch,
    flags: &CutFlags,
    rtype: RrType,
    seen: &mut List<Seen>,
) -> Result<(), NoMemory>
    ensures { OnOk result (seen.new ≡ seen.old ++ with_type rtype (branch_faults_by flags.now branch.now)) }
{
    if flags.is_quiet() {
        return Ok(());
    }
    match branch.hop() {
        Some(Hop::Refer(cut)) => put_cut(alloc, cut, flags, rtype, seen),
        _ => Ok(()),
    }
}

/// Puts the faults that flags tell of a zone cut behind those seen, with the type.
fn put_cut(
    alloc: Global,
    cut: &Cut,
    flags: &CutFlags,
    rtype: RrType,
    seen: &mut List<Seen>,
) -> Result<(), NoMemory>
    ensures { OnOk result (seen.new ≡ seen.old ++ with_type rtype (faults_by flags.now cut.now)) }
{
    let mut faults = List::new(alloc);
    flags.put_faults(alloc, cut, &mut faults)?;
    put_faults(faults, rtype, seen)
}

/// Puts faults that a query of the type shows behind those seen.
fn put_faults(faults: List<Fault>, rtype: RrType, seen: &mut List<Seen>) -> Result<(), NoMemory>
    ensures { OnOk result (seen.new ≡ seen.old ++ with_type rtype faults) }
{
    for fault in faults {
        seen.push(Seen { fault, rtype })?;
    }
    Ok(())
}

/// The flags of branches that refer by one zone cut, in their order; `None` where they show no fault.
fn flags_of_branches<'t>(
    hosts: &Hosts<'_>,
    table: &'t CutTable<'_>,
    branches: &[Branch],
) -> Option<&'t [CutFlags]>
    ensures { (deps : Deps) → IsTableOf hosts.now deps table.now → RefersByOne hosts.now (map hop_of branches.now)
        → AreFlagged hosts.now deps branches.now (option_map (λ flags. flags.now) result) }
{
    match first_cut(branches) {
        Some(cut) => flags_of_cut(hosts, table, cut),
        None => None,
    }
}

/// The flags of the zone cut of a referral, one for each of its name servers, in their order; `None` where they show no
/// fault.
fn flags_of_cut<'t>(hosts: &Hosts<'_>, table: &'t CutTable<'_>, cut: &Cut) -> Option<&'t [CutFlags]>
    ensures { (deps : Deps) (zone : Zone) → IsTableOf hosts.now deps table.now → held_zone hosts.now cut.now.server cut.now.zone ≡ Some zone
        → exists_in zone cut.now.cut ≡ true
        → AreCutFlags hosts.now deps (referrals_at cut.now.server zone cut.now.cut) (option_map (λ flags. flags.now) result) }
{
    let tree = hosts.held_zone(&cut.server, &cut.zone)?;
    let node = tree.node_at(&cut.cut)?;
    let near = hosts.near_of(&cut.server, &cut.zone);
    table.flags(near, &cut.server, tree, node)
}

/// The zone cut of the first branch, if that is a referral.
fn first_cut(branches: &[Branch]) -> Option<&Cut>
    ensures { option_copied result ≡ first_cut (map hop_of branches.now) }
{
    let first = branches.first()?;
    match first.hop() {
        Some(Hop::Refer(cut)) => Some(cut),
        _ => None,
    }
}
