//! All walks of a query.

ghost use Rattle.std.specs.Prelude.{◌≡◌, ◌+◌, ◌<◌, List as Walks, map, length, IfOk, OnOk, IsErrOf};
ghost use Rattle.std.specs.List.{flat_map, fold};
ghost use Rattle.std.specs.Option.{option_map};
ghost use Rattle.net_model.specs.Step.{following};
ghost use Rattle.net_model.specs.Walk.{AreWalks};
ghost use Rattle.net_model.specs.declared.walk.Walk.{Walk as WalkValue};
ghost use Rattle.net_model.proofs.AllWalks.{Settled};
ghost use Rattle.plain_resolver.specs.Begun.{ended, led_along, states_left, walks_on};
ghost use Rattle.plain_resolver.specs.FromServer.{AreAsked, HasMoreAsked};
ghost use Rattle.plain_resolver.specs.Passed.{HasMoreWalks};
ghost use Rattle.plain_resolver.specs.Shown.{HasMore, ShownAll};
ghost use Rattle.plain_resolver.specs.WalkEnds.{end_of, zone_ends_of};

use crate::begun::BegunWalk;
use crate::fault::ResolveFault;
use crate::resolver::Resolver;
use crate::steps::steps_of;
use crate::visitor::WalkVisitor;
use crate::walk_end::{WalkEnd, ZoneEnd};
use dns_data::{Boxed, List, Name, RrType};
use net_model::{Config, Hop, Leaf, State, Walk};
use std::alloc::Global;
use zone_lookup::{Hosts, Step, Walker};

/// All walks of the query in order, while these servers are followed. It is `WalksPassed` where there are more than
/// `most`; no more than `most` are made.
pub fn resolve(
    alloc: Global,
    config: &Config,
    rewrites: u32,
    followed: &[Name],
    name: &Name,
    t: RrType,
    most: u32,
) -> Result<List<Walk>, ResolveFault>
    ensures walks { IfOk result (λ walks. AreWalks (following config.now rewrites followed.now) name.now t walks) }
    ensures few { OnOk result (HasMoreWalks (following config.now rewrites followed.now) name.now t most → ⊥) }
    ensures passed { IsErrOf result ResolveFault.WalksPassed → HasMoreWalks (following config.now rewrites followed.now) name.now t most }
{
    let hosts = Hosts::build(alloc, config)?;
    resolve_at(alloc, &hosts, rewrites, followed, name, t, most)
}

/// All walks of the query in order, while these servers are followed, by the trees of the configuration's zones. It is
/// `WalksPassed` where there are more than `most`. The walks are counted first: where there are more, none is made.
pub fn resolve_at(
    alloc: Global,
    hosts: &Hosts<'_>,
    rewrites: u32,
    followed: &[Name],
    name: &Name,
    t: RrType,
    most: u32,
) -> Result<List<Walk>, ResolveFault>
    ensures walks { IfOk result (λ walks. AreWalks (following hosts.now rewrites followed.now) name.now t walks) }
    ensures few { OnOk result (HasMoreWalks (following hosts.now rewrites followed.now) name.now t most → ⊥) }
    ensures passed { IsErrOf result ResolveFault.WalksPassed → HasMoreWalks (following hosts.now rewrites followed.now) name.now t most }
{
    count_walks(alloc, hosts, rewrites, followed, name, t, most)?;
    let resolver = Resolver::new(hosts, rewrites, followed, name, t);
    let mut walks = List::new(alloc);
    visit_walks(alloc, &resolver, most, &mut walks)?;
    Ok(walks)
}

/// The ends of all walks of the query in order, each with whether the walk is rewritten, while these servers are followed.
/// It is `WalksPassed` where there are more than `most`. No walk is made, and no more than `most` ends are.
pub fn ends_at(
    alloc: Global,
    hosts: &Hosts<'_>,
    rewrites: u32,
    followed: &[Name],
    name: &Name,
    t: RrType,
    most: u32,
) -> Result<List<WalkEnd>, ResolveFault>
    ensures ends { IfOk result (λ ends. (walks : Walks WalkValue) × AreWalks (following hosts.now rewrites followed.now) name.now t walks × (ends ≡ map end_of walks)) }
    ensures few { OnOk result (HasMoreWalks (following hosts.now rewrites followed.now) name.now t most → ⊥) }
    ensures passed { IsErrOf result ResolveFault.WalksPassed → HasMoreWalks (following hosts.now rewrites followed.now) name.now t most }
{
    let resolver = Resolver::new(hosts, rewrites, followed, name, t);
    let mut ends = List::new(alloc);
    visit_walks(alloc, &resolver, most, &mut ends)?;
    Ok(ends)
}

/// What the walks of a name ask last that end in what a zone tells, in order: the server, and the name for which it is
/// asked there. The walks begin at the top servers, or at the server that is named, in the state in which it looks the name
/// up, with no rewrite used. It is `WalksPassed` where there are more than `most` walks. None is made.
pub fn zone_ends(
    alloc: Global,
    walker: Walker<'_, '_>,
    server: Option<&Name>,
    name: &Name,
    t: RrType,
    most: u32,
) -> Result<List<ZoneEnd>, ResolveFault>
    ensures ends { IfOk result (λ ends. (walks : Walks WalkValue) × AreAsked walker.entry name.now t (option_map (λ one. one.now) server.entry) walks × (ends ≡ flat_map zone_ends_of walks)) }
    ensures few { OnOk result (HasMoreAsked walker.entry name.now t (option_map (λ one. one.now) server.entry) most → ⊥) }
    ensures passed { IsErrOf result ResolveFault.WalksPassed → HasMoreAsked walker.entry name.now t (option_map (λ one. one.now) server.entry) most }
{
    let resolver = Resolver::of(walker, server, name, t);
    let mut ends = List::new(alloc);
    visit_walks(alloc, &resolver, most, &mut ends)?;
    Ok(ends)
}

/// Counts the walks of the query while these servers are followed. It is `WalksPassed` where there are more than `most`;
/// no walk is made.
pub fn count_walks(
    alloc: Global,
    hosts: &Hosts<'_>,
    rewrites: u32,
    followed: &[Name],
    name: &Name,
    t: RrType,
    most: u32,
) -> Result<(), ResolveFault>
    ensures few { OnOk result (HasMoreWalks (following hosts.now rewrites followed.now) name.now t most → ⊥) }
    ensures passed { IsErrOf result ResolveFault.WalksPassed → HasMoreWalks (following hosts.now rewrites followed.now) name.now t most }
{
    let resolver = Resolver::new(hosts, rewrites, followed, name, t);
    visit_walks(alloc, &resolver, most, &mut ())
}

/// Shows a visitor all walks that are asked for in order, or tells that there are more than `most`; no more than `most` are
/// shown.
pub(crate) fn visit_walks<V: WalkVisitor>(
    alloc: Global,
    resolver: &Resolver<'_, '_>,
    most: u32,
    visitor: &mut V,
) -> Result<(), ResolveFault>
    ensures shown { OnOk result (ShownAll V.after resolver.now visitor.old visitor.new) }
    ensures few { OnOk result (HasMore resolver.now most → ⊥) }
    ensures passed { IsErrOf result ResolveFault.WalksPassed → HasMore resolver.now most }
{
    let mut begun = BegunWalk::new(alloc);
    let mut room = most;
    for state in resolver.begins(alloc)? {
        visit_from(alloc, resolver, state, &mut begun, &mut room, visitor)?;
    }
    Ok(())
}

/// Shows a visitor all walks that go on from a begun walk by this state, or tells that there is no room for that many.
fn visit_from<V: WalkVisitor>(
    alloc: Global,
    resolver: &Resolver<'_, '_>,
    state: Boxed<State>,
    begun: &mut BegunWalk,
    room: &mut u32,
    visitor: &mut V,
) -> Result<(), ResolveFault>
    requires { Settled (states_left resolver.now begun.old) resolver.now.setting resolver.now.rtype state }
    ensures shown { OnOk result (visitor.new ≡ fold V.after visitor.old (map (led_along begun.old) (walks_on resolver.now begun.old state))) }
    ensures begun { OnOk result (begun.new ≡ begun.old) }
    ensures room { OnOk result (room.new + length (walks_on resolver.now begun.old state) ≡ room.old) }
    ensures passed { IsErrOf result ResolveFault.WalksPassed → room.old < length (walks_on resolver.now begun.old state) }
{
    let steps = steps_of(alloc, resolver, state.get())?;
    begun.enter(state)?;
    for step in steps {
        match step {
            Step::Go(hop, to) => {
                begun.go(hop)?;
                visit_from(alloc, resolver, to, begun, room, visitor)?;
                begun.back();
            }
            Step::End(hop, leaf) => visit_end(alloc, begun, hop, leaf, room, visitor)?,
        }
    }
    begun.leave();
    Ok(())
}

/// Shows a visitor the walk that the begun one is with this end, or tells that there is no room for it.
fn visit_end<V: WalkVisitor>(
    alloc: Global,
    begun: &BegunWalk,
    hop: Option<Boxed<Hop>>,
    leaf: Boxed<Leaf>,
    room: &mut u32,
    visitor: &mut V,
) -> Result<(), ResolveFault>
    ensures shown { OnOk result (visitor.new ≡ V.after visitor.old (ended begun.now hop leaf)) }
    ensures room { OnOk result (room.new + 1 ≡ room.old) }
    ensures passed { IsErrOf result ResolveFault.WalksPassed → room.old ≡ 0 }
{
    if *room == 0 {
        return Err(ResolveFault::WalksPassed);
    }
    *room -= 1;
    visitor.visit(alloc, begun, hop, leaf)?;
    Ok(())
}
