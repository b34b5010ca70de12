//! The faults of the ends of a graph.

ghost use Rattle.std.specs.Prelude.{◌≡◌, ◌++◌, Bool, OnOk, map};
ghost use Rattle.std.specs.List.{flat_map};
ghost use Rattle.graph_form.specs.Branches.{branch_seen, plain_branch};
ghost use Rattle.graph_form.specs.EndFaults.{fault_of, picked_fault};
ghost use Rattle.net_model.specs.declared.fault.Fault.{Fault as FaultOf};

use crate::branches::TypedBranch;
use crate::end_faults::{EndFault, branch_fault};
use crate::report::Seen;
use dns_data::{List, NoMemory};
use std::alloc::Global;

/// What picks faults of ends. An end alone doesn't tell whether its fault is one of those that are asked for, nor whether
/// the query and the zones show it.
pub trait PicksFaults {
    ghost picked: { Self → FaultOf → Bool };

    /// Whether the fault is picked.
    fn picks(&self, fault: &EndFault<'_>) -> bool
        ensures { result ≡ picked self.now (fault_of fault.now) };
}

/// Puts the picked faults of ends behind those seen, branch by branch, each with the type of its branch.
pub fn put_end_faults<P: PicksFaults>(
    alloc: Global,
    branches: &[TypedBranch<'_>],
    picker: &P,
    seen: &mut List<Seen>,
) -> Result<(), NoMemory>
    ensures { OnOk result (seen.new ≡ seen.old ++ flat_map (branch_seen (picked_fault (P.picked picker.now))) (map plain_branch branches.now)) }
{
    for one in branches {
        put_end_fault(alloc, one, picker, seen)?;
    }
    Ok(())
}

/// Puts the fault of a branch behind those seen, if the branch is an end that shows one, and it is picked.
fn put_end_fault<P: PicksFaults>(
    alloc: Global,
    one: &TypedBranch<'_>,
    picker: &P,
    seen: &mut List<Seen>,
) -> Result<(), NoMemory>
    ensures { OnOk result (seen.new ≡ seen.old ++ branch_seen (picked_fault (P.picked picker.now)) (plain_branch one.now)) }
{
    match branch_fault(one.state, one.branch) {
        Some(end) => {
            if picker.picks(&end) {
                let fault = end.to_fault(alloc)?;
                return seen.push(Seen {
                    fault,
                    rtype: one.rtype,
                });
            }
            Ok(())
        }
        None => Ok(()),
    }
}
