//! Rewrites of a name, and the states in which a query begins.

ghost use Rattle.std.specs.Prelude.{◌≡◌, ◌+◌, ◌^◌, ◌<◌, ◌&&◌, map, None, Some, IfOk};
ghost use Rattle.std.specs.Option.{option_map};
ghost use Rattle.net_model.specs.Nearest.{nearest_of};
ghost use Rattle.net_model.specs.Step.{Go, arrived, rewritten, start};
ghost use Rattle.net_model.specs.declared.walk.Hop.TheVariants as hop_as;
ghost use Rattle.zone_lookup.specs.Steps.{branch_of};

use crate::hosts::Hosts;
use crate::steps::{Step, one_step};
use crate::walker::Walker;
use dns_data::{Boxed, List, Name, NoMemory};
use net_model::{Hop, Place, State};
use std::alloc::Global;

/// The states in which the query begins, one at each top server.
pub fn starts(
    alloc: Global,
    hosts: &Hosts<'_>,
    query: &Name,
) -> Result<List<Boxed<State>>, NoMemory>
    ensures { IfOk result (λ states. states ≡ start hosts.now query.now) }
{
    let tops = hosts.config().tops();
    let mut states = Vec::with_capacity(alloc, tops.len())?;
    for server in tops {
        let state = arrived(alloc, hosts, query, true, 0, server)?;
        states.push(Boxed::new(alloc, state)?)?;
    }
    Ok(List::from_vec(states))
}

/// The steps of a rewrite while rewrites are left: at the same server if it has a zone for the new name, else at the top
/// servers.
pub(crate) fn rewrites(
    alloc: Global,
    walker: &Walker<'_, '_>,
    state: &State,
    place: Place,
    by_dname: bool,
    to: Name,
) -> Result<List<Step>, NoMemory>
    requires { state.now.used + 1 < 2 ^ 32 }
    ensures { IfOk result (λ steps. map branch_of steps ≡ rewritten walker.now.config state.now place by_dname to) }
{
    let hosts = walker.hosts();
    match hosts.nearest_of(&state.server, &to) {
        Some(tree) => {
            let step = rewrite_here(alloc, state, place, by_dname, to, &tree.zone().origin)?;
            one_step(alloc, step)
        }
        None => rewrites_at_tops(alloc, hosts, state, &place, by_dname, &to),
    }
}

/// The steps of a rewrite, one at each top server.
fn rewrites_at_tops(
    alloc: Global,
    hosts: &Hosts<'_>,
    state: &State,
    place: &Place,
    by_dname: bool,
    to: &Name,
) -> Result<List<Step>, NoMemory>
    requires { state.now.used + 1 < 2 ^ 32 }
    ensures { IfOk result (λ steps. map branch_of steps ≡ map (λ server. Go (hop_as.Rewrite place.now by_dname to.now) (arrived hosts.now to.now (state.now.carried && by_dname) (state.now.used + 1) (Some place.now) server)) hosts.now.tops) }
{
    let tops = hosts.config().tops();
    let mut steps = Vec::with_capacity(alloc, tops.len())?;
    for server in tops {
        steps.push(rewrite(alloc, hosts, state, place, by_dname, to, server)?)?;
    }
    Ok(List::from_vec(steps))
}

/// The step of a rewrite at the state's own server, whose nearest zone for the new name has this origin.
fn rewrite_here(
    alloc: Global,
    state: &State,
    place: Place,
    by_dname: bool,
    to: Name,
    origin: &Name,
) -> Result<Step, NoMemory>
    requires { state.now.used + 1 < 2 ^ 32 }
    ensures { IfOk result (λ step. branch_of step ≡ Go (hop_as.Rewrite place by_dname to) (record { server = state.now.server; name = to; carried = state.now.carried && by_dname; cut = 0; used = state.now.used + 1; last = Some place; zone = Some origin.now })) }
{
    let made = stayed(alloc, state, &place, by_dname, &to, origin)?;
    let hop = Hop::Rewrite {
        place,
        by_dname,
        to,
    };
    Ok(Step::Go(Boxed::new(alloc, hop)?, made))
}

/// The state at the same server to which a rewrite leads, where its nearest zone for the new name has this origin.
fn stayed(
    alloc: Global,
    state: &State,
    place: &Place,
    by_dname: bool,
    to: &Name,
    origin: &Name,
) -> Result<Boxed<State>, NoMemory>
    requires { state.now.used + 1 < 2 ^ 32 }
    ensures { IfOk result (λ made. made ≡ record { server = state.now.server; name = to.now; carried = state.now.carried && by_dname; cut = 0; used = state.now.used + 1; last = Some place.now; zone = Some origin.now }) }
{
    let made = State {
        server: state.server.copy(alloc)?,
        name: to.copy(alloc)?,
        carried: state.carried && by_dname,
        cut: 0,
        used: state.used + 1,
        last: Some(place.copy(alloc)?),
        zone: Some(origin.copy(alloc)?),
    };
    Boxed::new(alloc, made)
}

/// The step of a rewrite at a server.
fn rewrite(
    alloc: Global,
    hosts: &Hosts<'_>,
    state: &State,
    place: &Place,
    by_dname: bool,
    to: &Name,
    server: &Name,
) -> Result<Step, NoMemory>
    requires { state.now.used + 1 < 2 ^ 32 }
    ensures { IfOk result (λ step. branch_of step ≡ Go (hop_as.Rewrite place.now by_dname to.now) (arrived hosts.now to.now (state.now.carried && by_dname) (state.now.used + 1) (Some place.now) server.now)) }
{
    let hop = hop_of(alloc, place, by_dname, to)?;
    let to = rewritten(alloc, hosts, state, place, by_dname, to, server)?;
    Ok(Step::Go(hop, to))
}

/// The hop of a rewrite.
fn hop_of(alloc: Global, place: &Place, by_dname: bool, to: &Name) -> Result<Boxed<Hop>, NoMemory>
    ensures { IfOk result (λ hop. hop ≡ hop_as.Rewrite place.now by_dname to.now) }
{
    let to = to.copy(alloc)?;
    let place = place.copy(alloc)?;
    let hop = Hop::Rewrite {
        place,
        by_dname,
        to,
    };
    Boxed::new(alloc, hop)
}

/// The state at a server to which a rewrite leads.
fn rewritten(
    alloc: Global,
    hosts: &Hosts<'_>,
    state: &State,
    place: &Place,
    by_dname: bool,
    to: &Name,
    server: &Name,
) -> Result<Boxed<State>, NoMemory>
    requires { state.now.used + 1 < 2 ^ 32 }
    ensures { IfOk result (λ made. made ≡ arrived hosts.now to.now (state.now.carried && by_dname) (state.now.used + 1) (Some place.now) server.now) }
{
    let last = place.copy(alloc)?;
    let carried = state.carried && by_dname;
    let mut made = arrived(alloc, hosts, to, carried, state.used + 1, server)?;
    made.last = Some(last);
    Boxed::new(alloc, made)
}

/// The state at a server to which neither a zone cut nor a rewrite led, with so many rewrites used; `carried` says whether
/// no CNAME record was followed yet.
pub fn arrived(
    alloc: Global,
    hosts: &Hosts<'_>,
    name: &Name,
    carried: bool,
    used: u32,
    server: &Name,
) -> Result<State, NoMemory>
    ensures { IfOk result (λ state. state ≡ arrived hosts.now name.now carried used None server.now) }
{
    let at = server.copy(alloc)?;
    let asked = name.copy(alloc)?;
    let zone = origin_for(alloc, hosts, server, name)?;
    Ok(State {
        server: at,
        name: asked,
        carried,
        cut: 0,
        used,
        last: None,
        zone,
    })
}

/// The origin of the server's nearest zone for the name, or `None` where it has none.
fn origin_for(
    alloc: Global,
    hosts: &Hosts<'_>,
    server: &Name,
    name: &Name,
) -> Result<Option<Name>, NoMemory>
    ensures { IfOk result (λ origin. origin ≡ option_map (λ zone. zone.origin) (nearest_of hosts.now server.now name.now)) }
{
    match hosts.nearest_of(server, name) {
        Some(tree) => Ok(Some(tree.zone().origin.copy(alloc)?)),
        None => Ok(None),
    }
}
