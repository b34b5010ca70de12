//! How a run ends where a query reaches too many states.

ghost use Rattle.std.specs.Prelude.{◌≡◌, ◌⊎◌};
ghost use Rattle.report_run.specs.Budgets.{too_many_states};
ghost use Rattle.run_endings.specs.Endings.{no_memory};

use dns_data::Name;
use query_verdicts::MOST_STATES;
use run_endings::Ending;
use std::alloc::Global;

/// The query reaches more pairs of state and type than are looked at.
pub fn too_many_states(alloc: Global, query: &Name) -> Ending
    ensures { (result ≡ too_many_states query.now) ⊎ (result ≡ no_memory) }
{
    Ending::too_many_states(alloc, MOST_STATES, query)
}
