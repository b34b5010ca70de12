//! What a state leads to while every configured server is followed, by what its server replies.

ghost use Rattle.std.specs.Prelude.{◌≡◌, true, option_map, IfOk, IfSome};
ghost use Rattle.dns_data.specs.Name.{is_prefix};
ghost use Rattle.dns_data.specs.TypeSet.{has_bit};
ghost use Rattle.net_model.specs.Nearest.{nearest_of};
ghost use Rattle.zone_lookup.specs.Alike.{GoAlike, HasSome};
ghost use Rattle.zone_lookup.specs.Reply.{IsReply};
ghost use Rattle.interp_graph.specs.Steps.{AreForks, AreForksOrAlias, IsFork, IsLocated, is_alias};

use crate::step::Fork;
use dns_data::{List, NoMemory, TypeSet};
use net_model::State;
use std::alloc::Global;
use zone_lookup::{Reply, Walker, next_steps, reply_in, split_by};
use zone_tree::Tree;

/// What a state leads to for each type, where walks of all types go on alike or end; or `None` where its name is an alias:
/// walks of type CNAME end there, and those of the other types go on.
pub(crate) fn early_forks(
    alloc: Global,
    walker: &Walker<'_, '_>,
    state: &State,
) -> Result<Option<List<Fork>>, NoMemory>
    requires { IsLocated walker.now.config state.now }
    ensures { IfOk result (AreForksOrAlias walker.now state.now) }
{
    match zone_for(walker, state) {
        Some(tree) => {
            let reply = reply_in(tree, &state.name);
            unless_alias(alloc, walker, state, &reply)
        }
        None => unless_alias(alloc, walker, state, &Reply::Outside),
    }
}

/// The same, by what the state's server replies to its name.
fn unless_alias(
    alloc: Global,
    walker: &Walker<'_, '_>,
    state: &State,
    reply: &Reply<'_, '_>,
) -> Result<Option<List<Fork>>, NoMemory>
    requires { IsReply walker.now.config state.now.server state.now.name reply.now }
    ensures { IfOk result (AreForksOrAlias walker.now state.now) }
{
    if is_alias(reply) {
        return Ok(None);
    }
    let forks = forks_by(alloc, walker, state, reply, TypeSet::all())?;
    Ok(Some(forks))
}

/// Whether a server replies that the name is an alias.
fn is_alias(reply: &Reply<'_, '_>) -> bool
    ensures { result ≡ is_alias reply.now }
{
    match *reply {
        Reply::Outside => false,
        Reply::Refers(_, _) => false,
        Reply::Redirects(_, _, _) => false,
        Reply::Alias(_, _, _) => true,
        Reply::Records(_, _) => false,
        Reply::Nothing(_) => false,
    }
}

/// What a state leads to for each of these types.
pub(crate) fn forks(
    alloc: Global,
    walker: &Walker<'_, '_>,
    state: &State,
    types: TypeSet,
) -> Result<List<Fork>, NoMemory>
    requires { IsLocated walker.now.config state.now }
    ensures { IfOk result (AreForks walker.now state.now (has_bit types)) }
{
    // Not by `reply_of`: a reply whose tree isn't named here has no proof.
    match zone_for(walker, state) {
        Some(tree) => {
            let reply = reply_in(tree, &state.name);
            forks_by(alloc, walker, state, &reply, types)
        }
        None => forks_by(alloc, walker, state, &Reply::Outside, types),
    }
}

/// The tree of the zone in which the state's server looks its name up, or `None` where it holds none. It isn't looked for
/// where the state has no origin of it.
fn zone_for<'h, 'a>(walker: &Walker<'h, 'a>, state: &State) -> Option<&'h Tree<'a>>
    requires { IsLocated walker.now.config state.now }
    ensures zone { option_map (λ tree. tree.now.zone) result ≡ nearest_of walker.now.config state.now.server state.now.name }
    ensures inside { IfSome result (λ tree. is_prefix tree.now.zone.origin state.now.name ≡ true) }
{
    match &state.zone {
        Some(_) => walker.hosts().nearest_of(&state.server, &state.name),
        None => None,
    }
}

/// What a state leads to by what its server replies to its name: one fork for the types that go the same way, and one for
/// each other type.
fn forks_by(
    alloc: Global,
    walker: &Walker<'_, '_>,
    state: &State,
    reply: &Reply<'_, '_>,
    types: TypeSet,
) -> Result<List<Fork>, NoMemory>
    requires { IsReply walker.now.config state.now.server state.now.name reply.now }
    ensures { IfOk result (AreForks walker.now state.now (has_bit types)) }
{
    let sets = split_by(alloc, reply, types)?;
    let sets = sets.items();
    let mut forks = List::new(alloc);
    for at in 0..sets.len() {
        forks.push(fork(alloc, walker, state, reply, sets[at])?)?;
    }
    Ok(forks)
}

/// The fork of types of a set, of which there are some, and which go the same way.
fn fork(
    alloc: Global,
    walker: &Walker<'_, '_>,
    state: &State,
    reply: &Reply<'_, '_>,
    types: TypeSet,
) -> Result<Fork, NoMemory>
    requires reply { IsReply walker.now.config state.now.server state.now.name reply.now }
    requires some { HasSome types }
    requires alike { GoAlike reply.now types }
    ensures types { IfOk result (λ fork. fork.types ≡ types) }
    ensures fork { IfOk result (IsFork walker.now state.now) }
{
    match types.first() {
        Some(t) => {
            let steps = next_steps(alloc, walker, state, reply, t)?;
            Ok(Fork { types, steps })
        }
        // There are some.
        None => unreachable!(),
    }
}
