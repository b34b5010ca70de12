//! One step of a walk.

ghost use Rattle.std.specs.Prelude.{◌≡◌, map, IfOk};
ghost use Rattle.net_model.specs.Step.{next};
ghost use Rattle.zone_lookup.specs.Steps.{branch_of};

use crate::resolver::Resolver;
use dns_data::{List, NoMemory};
use net_model::State;
use std::alloc::Global;
use zone_lookup::Step;

/// The steps of a state, in order.
pub(crate) fn steps_of(
    alloc: Global,
    resolver: &Resolver<'_, '_>,
    state: &State,
) -> Result<List<Step>, NoMemory>
    ensures { IfOk result (λ steps. map branch_of steps ≡ next resolver.now.setting resolver.now.rtype state.now) }
{
    zone_lookup::steps_of(alloc, resolver.walker(), state, resolver.rtype())
}
