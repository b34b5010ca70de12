//! How the steps of a state are followed.

ghost use Rattle.std.specs.Prelude.{◌≡◌, ◌≤◌, length, slice_get, Some, IfOk, OnOk, IsErrOf};
ghost use Rattle.std.specs.List.{AllZip};
ghost use Rattle.zone_lookup.specs.Steps.{branch_of};
ghost use Rattle.interp_graph.specs.Listed.{Lists, Passes, OfOne, ForkGoes, StepGoes};
ghost use Rattle.interp_graph.specs.Making.{IsArmOf, TellsStep};

use crate::fault::GraphFault;
use crate::key::Key;
use crate::key_set::KeySet;
use crate::step::Fork;
use dns_data::{Boxed, List};
use graph_form::{Arm, Branch};
use net_model::State;
use std::alloc::Global;
use zone_lookup::Step;

/// The arms that the forks of a state tell. They lead to the numbers of the next states.
pub(crate) fn arms(
    alloc: Global,
    states: &mut KeySet,
    most: u32,
    forks: List<Fork>,
) -> Result<List<Arm>, GraphFault>
    requires { length states.old ≤ most }
    ensures lists { OnOk result (Lists (OfOne ForkGoes forks) most states.old states.new) }
    ensures told { IfOk result (λ arms. AllZip (IsArmOf states.new) arms forks) }
    ensures passed { IsErrOf result GraphFault.StatesPassed → Passes (OfOne ForkGoes forks) most states.old }
{
    let mut arms = Vec::with_capacity(alloc, forks.len())?;
    for fork in forks {
        let types = fork.types;
        let branches = branches(alloc, states, most, fork.steps)?;
        arms.push(Arm { types, branches })?;
    }
    Ok(List::from_vec(arms))
}

/// The branches that the steps of a state tell.
fn branches(
    alloc: Global,
    states: &mut KeySet,
    most: u32,
    steps: List<Step>,
) -> Result<List<Branch>, GraphFault>
    requires { length states.old ≤ most }
    ensures lists { OnOk result (Lists (OfOne (λ step. StepGoes (branch_of step)) steps) most states.old states.new) }
    ensures told { IfOk result (λ branches. AllZip (λ branch step. TellsStep states.new branch (branch_of step)) branches steps) }
    ensures passed { IsErrOf result GraphFault.StatesPassed → Passes (OfOne (λ step. StepGoes (branch_of step)) steps) most states.old }
{
    let mut branches = Vec::with_capacity(alloc, steps.len())?;
    for step in steps {
        branches.push(branch(alloc, states, most, step)?)?;
    }
    Ok(List::from_vec(branches))
}

/// The branch that a step of a state tells.
fn branch(alloc: Global, states: &mut KeySet, most: u32, step: Step) -> Result<Branch, GraphFault>
    requires { length states.old ≤ most }
    ensures lists { OnOk result (Lists (StepGoes (branch_of step)) most states.old states.new) }
    ensures told { IfOk result (λ branch. TellsStep states.new branch (branch_of step)) }
    ensures passed { IsErrOf result GraphFault.StatesPassed → Passes (StepGoes (branch_of step)) most states.old }
{
    match step {
        Step::Go(hop, state) => {
            let to = reach(alloc, states, most, state)?;
            Ok(Branch::Go { hop, to })
        }
        Step::End(hop, leaf) => Ok(Branch::End { hop, leaf }),
    }
}

/// The number of a state. A new one gets the next number; it is `StatesPassed` where there are more than `most` states
/// then.
pub(crate) fn reach(
    alloc: Global,
    states: &mut KeySet,
    most: u32,
    state: Boxed<State>,
) -> Result<u32, GraphFault>
    requires { length states.old ≤ most }
    ensures lists { OnOk result (Lists (λ one. state ≡ one) most states.old states.new) }
    ensures told { IfOk result (λ at. slice_get states.new at ≡ Some state) }
    ensures passed { IsErrOf result GraphFault.StatesPassed → Passes (λ one. state ≡ one) most states.old }
{
    let (at, _) = states.insert(alloc, Key::new(state))?;
    if at >= most as usize {
        return Err(GraphFault::StatesPassed);
    }
    Ok(at as u32)
}
