//! The two turns in which states are visited: first those that all types reach, and then those that all but CNAME reach.
//!
//! Only an alias sends types different ways: walks of type CNAME end there, and those of the other types go on.

ghost use Rattle.std.specs.Prelude.{◌≤◌, length, IfOk, OnOk, IsErrOf};
ghost use Rattle.std.specs.List.{IsDistinct};
ghost use Rattle.interp_graph.specs.StateKey.{state_eq};
ghost use Rattle.interp_graph.specs.Listed.{ComesFrom, DraftGoes, Lists, Passes, but_cname, every};
ghost use Rattle.interp_graph.specs.Making.{AreEarly, AreNodes, EarlyGoes, IsDraftBy, IsEarlyOf, IsFinishedOf};
ghost use Rattle.interp_graph.specs.Steps.{AreLocated, IsLocated};

use crate::fault::GraphFault;
use crate::following::arms;
use crate::forks::{early_forks, forks};
use crate::key_set::KeySet;
use crate::step::{Draft, Early, Fork};
use dns_data::{List, NoMemory, RrType, TypeSet};
use graph_form::Arm;
use net_model::State;
use std::alloc::Global;
use zone_lookup::Walker;

/// What the first turn gives for the states that are listed, and for those to which walks of all types go on from them. It
/// is `StatesPassed` where these are more than `most`.
pub(crate) fn follow_all(
    alloc: Global,
    walker: &Walker<'_, '_>,
    states: &mut KeySet,
    most: u32,
) -> Result<List<Early>, GraphFault>
    requires few { length states.old ≤ most }
    requires located { AreLocated walker.now.config states.old }
    ensures lists { OnOk result (Lists (ComesFrom walker.now every states.old) most states.old states.new) }
    ensures early { IfOk result (AreEarly walker.now states.new) }
    ensures passed { IsErrOf result GraphFault.StatesPassed → Passes (ComesFrom walker.now every states.old) most states.old }
{
    let mut all = List::new(alloc);
    while all.len() < states.len() {
        let state = states.key(all.len()).state();
        let forks = early_forks(alloc, walker, state)?;
        all.push(early_arms(alloc, states, most, forks)?)?;
    }
    Ok(all)
}

/// What the first turn gives for a state by its forks, or for an alias where there are none.
fn early_arms(
    alloc: Global,
    states: &mut KeySet,
    most: u32,
    forks: Option<List<Fork>>,
) -> Result<Early, GraphFault>
    requires { length states.old ≤ most }
    ensures lists { OnOk result (Lists (EarlyGoes forks) most states.old states.new) }
    ensures early { IfOk result (IsEarlyOf states.new forks) }
    ensures passed { IsErrOf result GraphFault.StatesPassed → Passes (EarlyGoes forks) most states.old }
{
    match forks {
        Some(forks) => {
            let arms = arms(alloc, states, most, forks)?;
            Ok(Early::Done(arms))
        }
        None => Ok(Early::Alias),
    }
}

/// The arms of each state's node: of the states that are listed by what the first turn gives for them, and of those to
/// which walks of all types but CNAME go on from them. It is `StatesPassed` where these are more than `most` together.
pub(crate) fn follow_rest(
    alloc: Global,
    walker: &Walker<'_, '_>,
    states: &mut KeySet,
    most: u32,
    early: List<Early>,
) -> Result<List<List<Arm>>, GraphFault>
    requires few { length states.old ≤ most }
    requires located { AreLocated walker.now.config states.old }
    requires early { AreEarly walker.now states.old early }
    ensures lists { OnOk result (Lists (ComesFrom walker.now but_cname states.old) most states.old states.new) }
    ensures nodes { IfOk result (λ arms. AreNodes walker.now states.new (length states.old) arms) }
    ensures once { OnOk result (IsDistinct state_eq states.new) }
    ensures passed { IsErrOf result GraphFault.StatesPassed → Passes (ComesFrom walker.now but_cname states.old) most states.old }
{
    let types = TypeSet::all().minus(TypeSet::one(RrType::Cname));
    let mut left = early.into_iter();
    let mut nodes = List::new(alloc);
    while nodes.len() < states.len() {
        let state = states.key(nodes.len()).state();
        let draft = draft_or_forks(alloc, walker, state, types, left.next())?;
        nodes.push(finished(alloc, states, most, draft)?)?;
    }
    Ok(nodes)
}

/// The draft of a state's node by what the first turn gives for it; or where that didn't visit the state, the state's forks
/// for these types.
fn draft_or_forks(
    alloc: Global,
    walker: &Walker<'_, '_>,
    state: &State,
    types: TypeSet,
    given: Option<Early>,
) -> Result<Draft, NoMemory>
    requires { IsLocated walker.now.config state.now }
    ensures { IfOk result (IsDraftBy walker.now state.now types given) }
{
    match given {
        Some(Early::Done(arms)) => Ok(Draft::Done(arms)),
        Some(Early::Alias) => Ok(Draft::Left(forks(alloc, walker, state, TypeSet::all())?)),
        None => Ok(Draft::Left(forks(alloc, walker, state, types)?)),
    }
}

/// The arms of a node by its draft.
fn finished(
    alloc: Global,
    states: &mut KeySet,
    most: u32,
    draft: Draft,
) -> Result<List<Arm>, GraphFault>
    requires { length states.old ≤ most }
    ensures lists { OnOk result (Lists (DraftGoes draft) most states.old states.new) }
    ensures arms { IfOk result (λ arms. IsFinishedOf states.new draft arms) }
    ensures passed { IsErrOf result GraphFault.StatesPassed → Passes (DraftGoes draft) most states.old }
{
    match draft {
        Draft::Done(arms) => Ok(arms),
        Draft::Left(forks) => arms(alloc, states, most, forks),
    }
}
