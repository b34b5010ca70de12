//! The state in which a server is asked for a name.

ghost use Rattle.std.specs.Prelude.{◌≡◌, ◌∷◌, [], IfOk, None, true};
ghost use Rattle.net_model.specs.Step.{arrived};

use dns_data::{Boxed, List, Name, NoMemory};
use net_model::State;
use std::alloc::Global;
use zone_lookup::{Hosts, arrived};

/// The state in which the server is asked for the name, with no rewrite used, alone in a list.
pub(crate) fn asked_at(
    alloc: Global,
    hosts: &Hosts<'_>,
    server: &Name,
    name: &Name,
) -> Result<List<Boxed<State>>, NoMemory>
    ensures { IfOk result (λ states. states ≡ arrived hosts.now name.now true 0 None server.now ∷ []) }
{
    let state = arrived(alloc, hosts, name, true, 0, server)?;
    let mut states = List::new(alloc);
    states.push(Boxed::new(alloc, state)?)?;
    Ok(states)
}
