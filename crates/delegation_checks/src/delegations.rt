//! The faults of delegations that a query shows.

ghost use Rattle.std.specs.Prelude.{IfOk};
ghost use Rattle.dns_data.specs.Name.{Labels};
ghost use Rattle.delegation_checks.specs.Delegations.{IsGraphIn, is_of_delegations, is_shown};
ghost use Rattle.graph_form.specs.Verdict.{AreShownOf};
ghost use Rattle.net_model.specs.Shown.{with_lists};
ghost use Rattle.net_model.specs.Step.{Setting};
ghost use Rattle.zone_lookup.specs.CutTable.{IsTableOf};

use crate::cut_faults::cut_faults_of;
use dns_data::{List, NoMemory};
use graph_form::{
    Deps, EndFault, Graph, PicksFaults, Seen, first_types, put_end_faults, typed_branches,
};
use std::alloc::Global;
use zone_lookup::{CutTable, Hosts, LearntSets};

/// Picks the lame name servers, and those without an address that aren't in the greatest set.
#[derive(Clone, Copy)]
struct ServerFaults<'s> {
    sets: &'s LearntSets,
}

impl<'s> PicksFaults for ServerFaults<'s> {
    ghost picked = { λ picker. is_shown picker.sets.now };

    fn picks(&self, fault: &EndFault<'_>) -> bool {
        match fault {
            EndFault::Lame(_) => true,
            EndFault::NoAddress(cut) => !self.sets.has_greatest(&cut.ns),
            EndFault::Limit(_) | EndFault::Blackhole(_) | EndFault::Overlong(_) => false,
        }
    }
}

/// The faults of delegations that the query of a graph shows in the configuration of the servers, each once and with its
/// first type, in fault order. The two lists stand in the place of the least and the greatest set of learnt addresses. It
/// makes sets of them, and the table of what the referrals of all zone cuts show; for many graphs make these once, and call
/// `delegation_faults_with`.
pub fn delegation_faults(
    alloc: Global,
    hosts: &Hosts<'_>,
    deps: &Deps,
    graph: &Graph,
) -> Result<List<Seen>, NoMemory>
    ensures { IfOk result (λ shown. (setting : Setting) (query : Labels) → IsGraphIn hosts.now setting query graph.now
        → AreShownOf (with_lists setting deps.now.least deps.now.greatest) query is_of_delegations shown) }
{
    let lists = Deps {
        least: deps.least.copy(alloc)?,
        greatest: deps.greatest.copy(alloc)?,
    };
    let sets = LearntSets::build(alloc, lists)?;
    let table = CutTable::build(alloc, hosts, &sets)?;
    delegation_faults_with(alloc, hosts, &sets, &table, graph)
}

/// The faults of delegations that the query of a graph shows in the configuration of the servers, each once and with its
/// first type, in fault order. The two sets stand in the place of the least and the greatest set of learnt addresses; the
/// table is that of the configuration with them.
pub fn delegation_faults_with(
    alloc: Global,
    hosts: &Hosts<'_>,
    sets: &LearntSets,
    table: &CutTable<'_>,
    graph: &Graph,
) -> Result<List<Seen>, NoMemory>
    requires table { IsTableOf hosts.now sets.now table.now }
    ensures { IfOk result (λ shown. (setting : Setting) (query : Labels) → IsGraphIn hosts.now setting query graph.now
        → AreShownOf (with_lists setting sets.now.least sets.now.greatest) query is_of_delegations shown) }
{
    let branches = typed_branches(alloc, graph)?;
    let mut seen = cut_faults_of(alloc, hosts, table, graph)?;
    put_end_faults(
        alloc,
        branches.as_slice(),
        &ServerFaults { sets },
        &mut seen,
    )?;
    // Named, since the proof speaks of the list that comes where memory suffices.
    let shown = first_types(alloc, seen)?;
    Ok(shown)
}
