//! The walks of a query whose states pass tests.

ghost use Rattle.std.specs.Prelude.{◌≡◌, ◌++◌, ◌∷◌, [], Bool, map, IfOk, OnOk};
ghost use Rattle.std.specs.List.{flat_map, fold};
ghost use Rattle.net_model.specs.Step.{following, start};
ghost use Rattle.net_model.specs.declared.walk.State.{State as StateValue};
ghost use Rattle.plain_resolver.specs.Begun.{led_along};
ghost use Rattle.plain_resolver.specs.Tested.{ArePassing, passing_from};

use crate::begun::BegunWalk;
use crate::resolver::Resolver;
use crate::steps::steps_of;
use crate::visitor::WalkVisitor;
use dns_data::{Boxed, List, Name, NoMemory, RrType};
use net_model::{State, Walk};
use std::alloc::Global;
use zone_lookup::{Hosts, Step, starts};

/// What the state in one place of a walk is tested by.
pub trait StateTest {
    ghost fits: { Self → StateValue → Bool };

    /// Whether the state passes.
    fn fits(&self, alloc: Global, state: &State) -> Result<bool, NoMemory>
        ensures { IfOk result (λ answer. answer ≡ fits self.now state.now) };
}

/// The walks of the query, while these servers are followed, whose states pass the tests: the first state of a walk the
/// first test, the next one the next. No walk is followed beyond a state that doesn't pass, or beyond the last test.
pub fn resolve_tested<T: StateTest>(
    alloc: Global,
    hosts: &Hosts<'_>,
    rewrites: u32,
    followed: &[Name],
    name: &Name,
    t: RrType,
    tests: &[T],
) -> Result<List<Walk>, NoMemory>
    ensures { IfOk result (ArePassing T.fits (following hosts.now rewrites followed.now) name.now t tests.now) }
{
    let resolver = Resolver::new(hosts, rewrites, followed, name, t);
    let mut walks = List::new(alloc);
    put_passing(alloc, &resolver, tests, &mut walks)?;
    Ok(walks)
}

/// Puts the walks of the query whose states pass the tests behind the others.
fn put_passing<T: StateTest>(
    alloc: Global,
    resolver: &Resolver<'_, '_>,
    tests: &[T],
    walks: &mut List<Walk>,
) -> Result<(), NoMemory>
    ensures { OnOk result (walks.new ≡ fold (λ all walk. all ++ walk ∷ []) walks.old (flat_map (passing_from T.fits resolver.now.setting resolver.now.rtype tests.now) (start resolver.now.setting.config resolver.now.query))) }
{
    let mut begun = BegunWalk::new(alloc);
    for state in starts(alloc, resolver.walker().hosts(), resolver.query())? {
        put_passing_from(alloc, resolver, tests, state, &mut begun, walks)?;
    }
    Ok(())
}

/// Puts the walks that go on from a begun walk by this state, and whose states from this one on pass the tests, behind
/// the others.
fn put_passing_from<T: StateTest>(
    alloc: Global,
    resolver: &Resolver<'_, '_>,
    tests: &[T],
    state: Boxed<State>,
    begun: &mut BegunWalk,
    walks: &mut List<Walk>,
) -> Result<(), NoMemory>
    ensures walks { OnOk result (walks.new ≡ fold (λ all walk. all ++ walk ∷ []) walks.old (map (led_along begun.old) (passing_from T.fits resolver.now.setting resolver.now.rtype tests.now state))) }
    ensures begun { OnOk result (begun.new ≡ begun.old) }
{
    let Some((test, rest)) = tests.split_first() else {
        return Ok(());
    };
    if !test.fits(alloc, state.get())? {
        return Ok(());
    }
    let steps = steps_of(alloc, resolver, state.get())?;
    begun.enter(state)?;
    for step in steps {
        match step {
            Step::Go(hop, to) => {
                begun.go(hop)?;
                put_passing_from(alloc, resolver, rest, to, begun, walks)?;
                begun.back();
            }
            Step::End(hop, leaf) => walks.visit(alloc, begun, hop, leaf)?,
        }
    }
    begun.leave();
    Ok(())
}
